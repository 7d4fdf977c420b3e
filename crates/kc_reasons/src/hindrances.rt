//! What hinders that a symbol has what its user value asks.
ghost use Rattle.std.specs.Prelude.{◌≡◌, ◌<◌, length, Some, unwrap_or, pos};
ghost use Rattle.kc_value.specs.Number.{number_of_text};
ghost use Rattle.kc_tree.specs.between.Views.{symbol_view, SymbolFits};
ghost use Rattle.kc_evaluation.specs.checker.ValuationView.{valuation_tree, valuation_exprs, valuation_values};
ghost use Rattle.kc_value.specs.Tri.{is_m};
ghost use Rattle.kc_rules_model.specs.Rule.{active_range, is_upside_down, is_within};
ghost use Rattle.kc_reasons_model.specs.Hindrances.{hinders_symbol, hinders_tri, hinders_text, holds_of_tri, holds_of_text};

use super::tristates::{is_without_m, leaves_no_m};
use kc_evaluation::{
    Valuation, active_range, is_below, is_from_environment, is_upside_down, is_visible, is_within,
    number_of, reverse_limit, visibility,
};
use kc_reasons_model::Hindrance;
use kc_rules_model::{Profile, UserValue};
use kc_tree::Symbol;
use kc_value::{Kind, Tri};

/// Whether a hindrance holds of an assigned tristate, by what is known of the symbol.
fn holds_of_tri(
    hindrance: Hindrance,
    asked: Tri,
    visibility: Tri,
    selected: Tri,
    env: bool,
    without_m: bool,
    no_m_left: bool,
) -> bool
    ensures { result ≡ holds_of_tri hindrance asked visibility selected env without_m no_m_left }
{
    match hindrance {
        Hindrance::BelowSelected => is_below(asked, selected),
        Hindrance::FromEnvironment => env,
        Hindrance::Hidden => visibility.is_n(),
        Hindrance::AboveVisibility => !visibility.is_n() && is_below(visibility, asked),
        Hindrance::Promoted => is_m(asked) && without_m,
        Hindrance::ImpliedY => is_m(asked) && no_m_left,
        Hindrance::UpsideDown => false,
        Hindrance::OutOfRange => false,
        Hindrance::ChoiceNotShown => false,
        Hindrance::MemberHidden => false,
        Hindrance::LaterY => false,
        Hindrance::FirstOfAll => false,
    }
}

/// Whether a tristate is `m`.
fn is_m(value: Tri) -> bool
    ensures { result ≡ is_m value }
{
    match value {
        Tri::M => true,
        Tri::N => false,
        Tri::Y => false,
    }
}

/// Whether a hindrance holds of a tristate that is assigned to a symbol.
fn hinders_tri(
    under: &Valuation<'_>,
    profile: Profile,
    hindrance: Hindrance,
    symbol: &Symbol<'_>,
    asked: Tri,
) -> bool
    requires fits { SymbolFits (valuation_exprs under.now) (length (valuation_tree under.now).symbols) symbol.now }
    ensures value { result ≡ hinders_tri hindrance profile (valuation_tree under.now) (symbol_view (valuation_exprs under.now) symbol.now) asked (valuation_values under.now) }
{
    holds_of_tri(
        hindrance,
        asked,
        visibility(under, symbol),
        reverse_limit(under, symbol.selectors),
        is_from_environment(symbol),
        is_without_m(under, symbol.kind),
        leaves_no_m(under, profile, symbol),
    )
}

/// Whether a hindrance holds of an assigned text, by what is known of the symbol.
fn holds_of_text(
    hindrance: Hindrance,
    env: bool,
    visible: bool,
    upside_down: bool,
    within: bool,
) -> bool
    ensures { result ≡ holds_of_text hindrance env visible upside_down within }
{
    match hindrance {
        Hindrance::FromEnvironment => env,
        Hindrance::Hidden => !visible,
        Hindrance::UpsideDown => visible && upside_down,
        Hindrance::OutOfRange => visible && !within,
        Hindrance::BelowSelected => false,
        Hindrance::AboveVisibility => false,
        Hindrance::Promoted => false,
        Hindrance::ImpliedY => false,
        Hindrance::ChoiceNotShown => false,
        Hindrance::MemberHidden => false,
        Hindrance::LaterY => false,
        Hindrance::FirstOfAll => false,
    }
}

/// Whether the active range of an int or hex is upside down; not of another symbol.
#[tactic(auto, using(crate::proofs::Ranges::no_number_upside))]
fn has_upside_down_range(under: &Valuation<'_>, symbol: &Symbol<'_>) -> bool
    requires fits { SymbolFits (valuation_exprs under.now) (length (valuation_tree under.now).symbols) symbol.now }
    ensures value { let tree = valuation_tree under.now in let values = valuation_values under.now in let seen = symbol_view (valuation_exprs under.now) symbol.now in result ≡ is_upside_down tree values seen.kind (active_range tree values seen) }
{
    match symbol.kind {
        Kind::Bool | Kind::Tristate | Kind::Text => false,
        Kind::Int => is_upside_down(under, Kind::Int, &active_range(under, symbol.ranges)),
        Kind::Hex => is_upside_down(under, Kind::Hex, &active_range(under, symbol.ranges)),
    }
}

/// Whether the number of a text is within the active range of an int or hex; it is for another symbol.
#[tactic(auto, using(crate::proofs::Ranges::no_number_within))]
fn has_number_within(under: &Valuation<'_>, symbol: &Symbol<'_>, text: &str) -> bool
    requires fits { SymbolFits (valuation_exprs under.now) (length (valuation_tree under.now).symbols) symbol.now }
    ensures value { let tree = valuation_tree under.now in let values = valuation_values under.now in let seen = symbol_view (valuation_exprs under.now) symbol.now in result ≡ is_within tree values seen.kind (active_range tree values seen) (unwrap_or (number_of_text seen.kind text.now) (pos 0)) }
{
    match symbol.kind {
        Kind::Bool | Kind::Tristate | Kind::Text => true,
        Kind::Int => is_within(
            under,
            Kind::Int,
            &active_range(under, symbol.ranges),
            number_of(Kind::Int, text).unwrap_or(0),
        ),
        Kind::Hex => is_within(
            under,
            Kind::Hex,
            &active_range(under, symbol.ranges),
            number_of(Kind::Hex, text).unwrap_or(0),
        ),
    }
}

/// Whether a hindrance holds of a text that is assigned to a symbol.
fn hinders_text(
    under: &Valuation<'_>,
    hindrance: Hindrance,
    symbol: &Symbol<'_>,
    text: &str,
) -> bool
    requires fits { SymbolFits (valuation_exprs under.now) (length (valuation_tree under.now).symbols) symbol.now }
    ensures value { result ≡ hinders_text hindrance (valuation_tree under.now) (symbol_view (valuation_exprs under.now) symbol.now) text.now (valuation_values under.now) }
{
    holds_of_text(
        hindrance,
        is_from_environment(symbol),
        is_visible(under, symbol),
        has_upside_down_range(under, symbol),
        has_number_within(under, symbol, text),
    )
}

/// Whether a hindrance holds of a user value of a symbol outside choices.
pub fn hinders_symbol(
    under: &Valuation<'_>,
    profile: Profile,
    hindrance: Hindrance,
    symbol: &Symbol<'_>,
    user: &UserValue,
) -> bool
    requires fits { SymbolFits (valuation_exprs under.now) (length (valuation_tree under.now).symbols) symbol.now }
    ensures value { result ≡ hinders_symbol hindrance profile (valuation_tree under.now) (Some (symbol_view (valuation_exprs under.now) symbol.now)) user.now (valuation_values under.now) }
{
    match user {
        UserValue::Tri(asked) => hinders_tri(under, profile, hindrance, symbol, *asked),
        UserValue::Text(text) => hinders_text(under, hindrance, symbol, text.as_str()),
        UserValue::Member(_) => false,
        UserValue::Lines(_) => false,
    }
}
