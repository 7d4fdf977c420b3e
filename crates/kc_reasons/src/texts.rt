//! What gives a string its value, and what an int or hex has by default.
ghost use Rattle.std.specs.Prelude.{◌≡◌, length, if◌then◌else◌};
ghost use Rattle.kc_tree.specs.between.Views.{symbol_view, SymbolFits};
ghost use Rattle.kc_evaluation.specs.checker.ValuationView.{valuation_tree, valuation_exprs, valuation_values};
ghost use Rattle.kc_rules_model.specs.Rule.{active_default};
ghost use Rattle.kc_reasons_model.specs.declared.cases.TextCase.TheVariants.{User as UserText};
ghost use Rattle.kc_reasons_model.specs.Cases.{default_case, number_default_case};

use super::tristates::active_mark;
use kc_evaluation::Valuation;
use kc_reasons_model::TextCase;
use kc_tree::Symbol;

/// By the active default.
#[tactic(auto, using(crate::proofs::Marks::text_by_mark))]
fn default_case(under: &Valuation<'_>, symbol: &Symbol<'_>) -> TextCase
    requires fits { SymbolFits (valuation_exprs under.now) (length (valuation_tree under.now).symbols) symbol.now }
    ensures value { result ≡ default_case (active_default (valuation_tree under.now) (valuation_values under.now) (symbol_view (valuation_exprs under.now) symbol.now)) }
{
    match active_mark(under, symbol.defaults) {
        None => TextCase::Nothing,
        Some(true) => TextCase::Environment,
        Some(false) => TextCase::Default,
    }
}

/// Of an int or hex before its range, by whether the text of its default is a number.
#[tactic(auto, using(crate::proofs::Marks::number_by_mark))]
pub(crate) fn number_default_case(
    under: &Valuation<'_>,
    symbol: &Symbol<'_>,
    linux_6_12: bool,
    is_number: bool,
) -> TextCase
    requires fits { SymbolFits (valuation_exprs under.now) (length (valuation_tree under.now).symbols) symbol.now }
    ensures value { result ≡ number_default_case linux_6_12 is_number (active_default (valuation_tree under.now) (valuation_values under.now) (symbol_view (valuation_exprs under.now) symbol.now)) }
{
    match active_mark(under, symbol.defaults) {
        None => {
            if linux_6_12 {
                TextCase::Zero
            } else {
                TextCase::Nothing
            }
        }
        Some(mark) => {
            if !is_number {
                TextCase::NoNumber
            } else if mark {
                TextCase::Environment
            } else {
                TextCase::Default
            }
        }
    }
}

/// What gives a string its value, by whether the user's text counts.
pub(crate) fn string_case(under: &Valuation<'_>, symbol: &Symbol<'_>, by_user: bool) -> TextCase
    requires fits { SymbolFits (valuation_exprs under.now) (length (valuation_tree under.now).symbols) symbol.now }
    ensures value { result ≡ (if by_user then UserText else default_case (active_default (valuation_tree under.now) (valuation_values under.now) (symbol_view (valuation_exprs under.now) symbol.now))) }
{
    if by_user {
        TextCase::User
    } else {
        default_case(under, symbol)
    }
}
