//! The place of what gives a symbol its value.
ghost use Rattle.std.specs.Prelude.{◌≡◌, ◌<◌, length, map, option_map, position, slice_get};
ghost use Rattle.std.specs.Option.{option_and_then};
ghost use Rattle.kc_tree.specs.between.Views.{symbol_view, default_view, range_view, SymbolFits};
ghost use Rattle.kc_dependencies.specs.checker.StoredRules.{AreDefaults, AreRanges};
ghost use Rattle.kc_evaluation.specs.checker.ValuationView.{valuation_tree, valuation_exprs, valuation_values};
ghost use Rattle.kc_symbol_lines.specs.between.LinesView.{position_view, symbol_lines_view};
ghost use Rattle.kc_located_reasons.specs.checker.ActivePlaces.{is_active, is_active_default, is_active_range};
ghost use Rattle.kc_located_reasons.specs.GivenPlaces.{default_place, range_place, given_place};

use kc_evaluation::Valuation;
use kc_expr::ExprId;
use kc_reasons::{Case, TextCase, TriCase};
use kc_symbol_lines::{Position, SymbolLines};
use kc_tree::{Default, Range, Symbol};

/// Whether a condition isn't `n`.
fn is_active(under: &Valuation<'_>, condition: ExprId) -> bool
    requires there { condition < length (valuation_exprs under.now).nodes }
    ensures { result ≡ is_active (valuation_tree under.now) (valuation_values under.now) (valuation_exprs under.now) condition }
{
    !under.condition(condition).is_n()
}

/// The number of the first default whose condition isn't `n`.
fn active_default(under: &Valuation<'_>, defaults: &[Default]) -> Option<usize>
    requires fits { AreDefaults (valuation_exprs under.now) defaults.now }
    ensures { result ≡ position (is_active_default (valuation_tree under.now) (valuation_values under.now) (valuation_exprs under.now)) defaults.now }
{
    defaults.iter().position(|d| is_active(under, d.condition))
}

/// The number of the first range whose condition isn't `n`.
fn active_range(under: &Valuation<'_>, ranges: &[Range]) -> Option<usize>
    requires fits { AreRanges (valuation_exprs under.now) ranges.now }
    ensures { result ≡ position (is_active_range (valuation_tree under.now) (valuation_values under.now) (valuation_exprs under.now)) ranges.now }
{
    ranges.iter().position(|r| is_active(under, r.condition))
}

/// The place with a number, if there are both.
fn place_at(places: &[Position], number: Option<usize>) -> Option<Position>
    ensures { option_map position_view result ≡ option_and_then (slice_get (map position_view places.now)) number }
{
    match number {
        None => None,
        Some(number) => match places.get(number) {
            None => None,
            Some(at) => Some(*at),
        },
    }
}

/// The place of the first default whose condition isn't `n`.
fn default_place(
    under: &Valuation<'_>,
    defaults: &[Default],
    places: &[Position],
) -> Option<Position>
    requires fits { AreDefaults (valuation_exprs under.now) defaults.now }
    ensures { option_map position_view result ≡ default_place (valuation_tree under.now) (valuation_values under.now) (map (default_view (valuation_exprs under.now)) defaults.now) (map position_view places.now) }
{
    place_at(places, active_default(under, defaults))
}

/// The place of the first range whose condition isn't `n`.
fn range_place(under: &Valuation<'_>, ranges: &[Range], places: &[Position]) -> Option<Position>
    requires fits { AreRanges (valuation_exprs under.now) ranges.now }
    ensures { option_map position_view result ≡ range_place (valuation_tree under.now) (valuation_values under.now) (map (range_view (valuation_exprs under.now)) ranges.now) (map position_view places.now) }
{
    place_at(places, active_range(under, ranges))
}

/// The place of what gives a symbol its value in a case: of the default, or of the range that raises or lowers it.
pub fn place_of_case(
    under: &Valuation<'_>,
    symbol: &Symbol<'_>,
    lines: &SymbolLines,
    case: Case,
) -> Option<Position>
    requires fits { SymbolFits (valuation_exprs under.now) (length (valuation_tree under.now).symbols) symbol.now }
    ensures { option_map position_view result ≡ given_place (valuation_tree under.now) (valuation_values under.now) (symbol_view (valuation_exprs under.now) symbol.now) (symbol_lines_view (valuation_exprs under.now) lines.now) case }
{
    match case {
        Case::Tri(TriCase::Default, _) => default_place(under, symbol.defaults, &lines.defaults),
        Case::Tri(TriCase::Environment, _) => default_place(
            under,
            symbol.defaults,
            &lines.defaults,
        ),
        Case::Text(TextCase::Default) => default_place(under, symbol.defaults, &lines.defaults),
        Case::Text(TextCase::Environment) => default_place(under, symbol.defaults, &lines.defaults),
        Case::Text(TextCase::NoNumber) => default_place(under, symbol.defaults, &lines.defaults),
        Case::Text(TextCase::UserLowBound) => range_place(under, symbol.ranges, &lines.ranges),
        Case::Text(TextCase::UserHighBound) => range_place(under, symbol.ranges, &lines.ranges),
        Case::Text(TextCase::LowBound) => range_place(under, symbol.ranges, &lines.ranges),
        Case::Text(TextCase::HighBound) => range_place(under, symbol.ranges, &lines.ranges),
        _ => None,
    }
}
