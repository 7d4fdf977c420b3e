//! Which values a file can give a symbol or a choice, all other values as they are.
ghost use Rattle.std.specs.Prelude.{◌≡◌, ◌<◌, length};
ghost use Rattle.kc_tree.specs.between.Views.{symbol_view, choice_view, SymbolFits, ChoiceFits};
ghost use Rattle.kc_evaluation.specs.checker.ValuationView.{valuation_tree, valuation_exprs, valuation_values};
ghost use Rattle.kc_rules_model.specs.Shapes.{tri_fits};
ghost use Rattle.kc_reasons_model.specs.Assignable.{can_be, can_select};

use super::choices::counts;
use kc_evaluation::{Valuation, is_member_visible, is_visible, tri_rule};
use kc_rules_model::Profile;
use kc_tree::{Choice, Sym, Symbol};
use kc_value::{Kind, Tri};

/// Whether a symbol of this type can have this value.
fn fits(kind: Kind, value: Tri) -> bool
    ensures { result ≡ tri_fits kind value }
{
    match kind {
        Kind::Bool => value != Tri::M,
        Kind::Tristate => true,
        Kind::Text | Kind::Int | Kind::Hex => false,
    }
}

/// Whether a bool or tristate can be set to this value: it is visible, and asked for this value it has it.
pub fn can_be(under: &Valuation<'_>, profile: Profile, symbol: &Symbol<'_>, value: Tri) -> bool
    requires fits { SymbolFits (valuation_exprs under.now) (length (valuation_tree under.now).symbols) symbol.now }
    ensures value { result ≡ can_be profile (valuation_tree under.now) (symbol_view (valuation_exprs under.now) symbol.now) (valuation_values under.now) value }
{
    is_visible(under, symbol)
        && fits(symbol.kind, value)
        && tri_rule(under, profile, symbol, Some(value)) == value
}

/// Whether a choice can be set to this member: it counts, and the member is visible.
pub fn can_select(under: &Valuation<'_>, choice: &Choice<'_>, s: Sym) -> bool
    requires fits { ChoiceFits (valuation_exprs under.now) (length (valuation_tree under.now).symbols) choice.now }
    requires there { s < length (valuation_tree under.now).symbols }
    ensures value { result ≡ can_select (valuation_tree under.now) (choice_view (valuation_exprs under.now) choice.now) (valuation_values under.now) s }
{
    counts(under, choice) && is_member_visible(under, s)
}
