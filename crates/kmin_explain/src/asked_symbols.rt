//! A symbol as the lines of configuration files speak of it.
ghost use Rattle.std.specs.Prelude.{◌≡◌, ◌<◌, Some, length, slice_get};
ghost use Rattle.kc_tree_model.specs.Trees.{Symbol as ModelSymbol};
ghost use Rattle.kc_tree_model.specs.TreeLookup.{unit_of};
ghost use Rattle.kc_config.specs.ConfigStates.{tree_in};
ghost use Rattle.kmin_explain.specs.between.Sources.{config_of};

use super::sources::Sources;
use kc_config_reasons::valuation;
use kc_tree::Sym;
use kc_value::Kind;

/// A symbol as the lines of files speak of it.
#[derive(Drop)]
pub struct AskedSymbol {
    pub s: Sym,
    pub unit: u32,
    pub kind: Kind,
}

/// Symbol `s` as the lines of files speak of it.
pub fn asked_symbol(by: &Sources<'_>, s: Sym) -> AskedSymbol
    requires there { s < length (tree_in (config_of by.now)).symbols }
    ensures number { result.s ≡ s }
    ensures unit { result.unit ≡ unit_of (tree_in (config_of by.now)) s }
    ensures kind { (symbol : ModelSymbol) → slice_get (tree_in (config_of by.now)).symbols s ≡ Some symbol → result.kind ≡ symbol.kind }
{
    let symbol = valuation(by.config).rules.tree.symbol(s);
    AskedSymbol {
        s,
        unit: symbol.unit,
        kind: symbol.kind,
    }
}
