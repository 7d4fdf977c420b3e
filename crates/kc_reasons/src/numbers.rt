//! What gives an int or hex its value.
ghost use Rattle.std.specs.Prelude.{◌≡◌, ◌<◌, length, map, is_some, option_map, unwrap_or, pos, IfSome};
ghost use Rattle.std.specs.Option.{option_copied};
ghost use Rattle.kc_value.specs.Number.{number_of_text};
ghost use Rattle.kc_tree.specs.between.Views.{symbol_view, range_view, SymbolFits};
ghost use Rattle.kc_evaluation.specs.checker.Texts.{IsNumber, active_range_of};
ghost use Rattle.kc_evaluation.specs.checker.ValuationView.{valuation_tree, valuation_exprs, valuation_values};
ghost use Rattle.kc_rules_model.specs.Rule.{default_text, user_number};
ghost use Rattle.kc_reasons_model.specs.Cases.{bound_case, number_case, user_text_number, counted_text, default_number};
ghost use Rattle.kc_reasons.specs.checker.CaseParts.{default_number_case};

use super::texts::number_default_case;
use kc_evaluation::{
    Valuation, active_range, assigned_text, bound, default_text, is_upside_down, is_visible,
    is_within, number_of,
};
use kc_reasons_model::TextCase;
use kc_rules_model::UserValue;
use kc_tree::{Range, Symbol};
use kc_value::Kind;

/// A number outside the range gives way to a bound: the case of the lower one, of the upper one, or of the number itself.
fn bound_case(
    under: &Valuation<'_>,
    kind: Kind,
    range: &Option<Range>,
    number: i128,
    low: TextCase,
    high: TextCase,
    other: TextCase,
) -> TextCase
    requires there { IfSome range.now (λ r. (r.low < length (valuation_exprs under.now).nodes) × (r.high < length (valuation_exprs under.now).nodes)) }
    requires number { IsNumber kind }
    ensures value { result ≡ bound_case (valuation_tree under.now) (valuation_values under.now) kind (option_map (range_view (valuation_exprs under.now)) range.now) number low high other }
{
    match range {
        None => other,
        Some(r) => {
            if number < bound(under, kind, r.low) {
                return low;
            }
            if bound(under, kind, r.high) < number {
                return high;
            }
            other
        }
    }
}

/// Whether the number of a user's text counts: within the range, under the rules of Linux 6.12 unless that is upside down.
fn counts(under: &Valuation<'_>, kind: Kind, range: &Option<Range>, text: &str) -> bool
    requires there { IfSome range.now (λ r. (r.low < length (valuation_exprs under.now).nodes) × (r.high < length (valuation_exprs under.now).nodes)) }
    requires number { IsNumber kind }
    ensures value { result ≡ is_some (user_number (valuation_tree under.now) (valuation_values under.now) kind (option_map (range_view (valuation_exprs under.now)) range.now) (unwrap_or (number_of_text kind text.now) (pos 0)) text.now) }
{
    if under.rules.tree.language().is_linux_6_12() {
        !is_upside_down(under, kind, range)
    } else {
        is_within(under, kind, range, number_of(kind, text).unwrap_or(0))
    }
}

/// Of the default, up to the range.
fn default_number_case(
    under: &Valuation<'_>,
    symbol: &Symbol<'_>,
    range: &Option<Range>,
) -> TextCase
    requires fits { SymbolFits (valuation_exprs under.now) (length (valuation_tree under.now).symbols) symbol.now }
    requires there { IfSome range.now (λ r. (r.low < length (valuation_exprs under.now).nodes) × (r.high < length (valuation_exprs under.now).nodes)) }
    requires range { option_map (range_view (valuation_exprs under.now)) range.now ≡ active_range_of (valuation_tree under.now) (valuation_values under.now) (map (range_view (valuation_exprs under.now)) symbol.now.ranges.now) }
    requires number { IsNumber symbol.now.kind }
    ensures value { result ≡ default_number_case (valuation_tree under.now) (symbol_view (valuation_exprs under.now) symbol.now) (valuation_values under.now) }
{
    let number = number_of(symbol.kind, default_text(under, symbol));
    let linux = under.rules.tree.language().is_linux_6_12();
    let other = number_default_case(under, symbol, linux, number.is_some());
    bound_case(
        under,
        symbol.kind,
        range,
        number.unwrap_or(0),
        TextCase::LowBound,
        TextCase::HighBound,
        other,
    )
}

/// What gives an int or hex its value.
pub(crate) fn number_case(
    under: &Valuation<'_>,
    symbol: &Symbol<'_>,
    user: Option<&UserValue>,
) -> TextCase
    requires fits { SymbolFits (valuation_exprs under.now) (length (valuation_tree under.now).symbols) symbol.now }
    requires number { IsNumber symbol.now.kind }
    ensures value { result ≡ number_case (valuation_tree under.now) (symbol_view (valuation_exprs under.now) symbol.now) (option_copied user.entry) (valuation_values under.now) }
{
    let range = active_range(under, symbol.ranges);
    let Some(text) = assigned_text(user) else {
        return default_number_case(under, symbol, &range);
    };
    if !is_visible(under, symbol) {
        return default_number_case(under, symbol, &range);
    }
    if !counts(under, symbol.kind, &range, text) {
        return default_number_case(under, symbol, &range);
    }
    bound_case(
        under,
        symbol.kind,
        &range,
        number_of(symbol.kind, text).unwrap_or(0),
        TextCase::UserLowBound,
        TextCase::UserHighBound,
        TextCase::User,
    )
}
