//! The names of symbols in messages and lists.
ghost use Rattle.std.specs.Prelude.{◌≡◌};
ghost use Rattle.kmin_report.specs.Reports.{name_at};

use kc_tree::{Sym, Tree};

/// The name of the symbol of this number; empty if there is none.
pub fn name_of(tree: &Tree, s: Sym) -> &str
    ensures { result.now ≡ name_at tree.now.tree s }
{
    if s.number() < tree.symbol_count() {
        tree.name(s)
    } else {
        ""
    }
}
