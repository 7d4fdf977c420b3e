//! The symbol `MODULES`.
ghost use Rattle.std.specs.Prelude.{◌≡◌, ◌<◌, length, IfSome};
ghost use Rattle.kc_tree_model.specs.TreeLookup.{IsConsistent};
ghost use Rattle.kc_dependencies.specs.checker.ModulesSymbol.{modules_symbol};

use kc_tree::{Sym, Tree};

/// The symbol `MODULES`, if it is defined.
pub fn modules_of(tree: &Tree) -> Option<Sym>
    ensures consistent { IsConsistent tree.now.tree }
    ensures modules { result ≡ modules_symbol tree.now.tree }
    ensures there { IfSome result (λ s. s < length tree.now.tree.symbols) }
{
    let name = tree.arena().find("MODULES")?;
    tree.symbol_at(name)
}
