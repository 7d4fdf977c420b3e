//! What gives a bool or tristate its value.
ghost use Rattle.std.specs.Prelude.{◌≡◌, ◌<◌, length, map, is_some, option_map, if◌then◌else◌};
ghost use Rattle.std.specs.Option.{option_copied};
ghost use Rattle.kc_tree.specs.between.Views.{symbol_view, default_view, SymbolFits};
ghost use Rattle.kc_dependencies.specs.checker.StoredRules.{AreDefaults};
ghost use Rattle.kc_evaluation.specs.checker.RuleParts.{active_default_of};
ghost use Rattle.kc_evaluation.specs.checker.ValuationView.{valuation_tree, valuation_exprs, valuation_values};
ghost use Rattle.kc_rules_model.specs.Rule.{active_default, leaves_no_m, base, selected};
ghost use Rattle.kc_reasons_model.specs.Conjuncts.{below};
ghost use Rattle.kc_reasons_model.specs.declared.cases.TriCase.TheVariants.{Select as SelectTri};
ghost use Rattle.kc_reasons_model.specs.Cases.{is_environment, by_default, asked_tri, base_case, tri_case, is_without_m, given_tri, lift_of};
ghost use Rattle.kc_reasons.specs.checker.CaseParts.{mark_of, unasked_of};

use kc_evaluation::{
    Valuation, assigned_tri, base, default_value, implied_effect, is_below, largest, reverse_limit,
    visibility,
};
use kc_reasons_model::{Lift, TriCase};
use kc_rules_model::{Profile, UserValue};
use kc_tree::{Default, Symbol};
use kc_value::{Kind, Tri};

/// Whether the first default whose condition isn't `n` is an `option env`; `None` without such a default.
pub(crate) fn active_mark(under: &Valuation<'_>, defaults: &[Default]) -> Option<bool>
    requires fits { AreDefaults (valuation_exprs under.now) defaults.now }
    ensures value { result ≡ mark_of (active_default_of (valuation_tree under.now) (valuation_values under.now) (map (default_view (valuation_exprs under.now)) defaults.now)) }
{
    for default in defaults {
        if !under.condition(default.condition).is_n() {
            return Some(default.from_environment);
        }
    }
    None
}

/// By the active default, if there is one.
#[tactic(auto, using(crate::proofs::Marks::tri_by_mark))]
fn default_case(under: &Valuation<'_>, symbol: &Symbol<'_>) -> TriCase
    requires fits { SymbolFits (valuation_exprs under.now) (length (valuation_tree under.now).symbols) symbol.now }
    ensures value { let active = active_default (valuation_tree under.now) (valuation_values under.now) (symbol_view (valuation_exprs under.now) symbol.now) in result ≡ by_default (is_some active) (is_environment active) }
{
    match active_mark(under, symbol.defaults) {
        None => TriCase::Nothing,
        Some(true) => TriCase::Environment,
        Some(false) => TriCase::Default,
    }
}

/// Without a user value that counts; `other` where nothing is implied that counts.
fn unasked_by(profile: Profile, other: TriCase, default: Tri, implied: Tri, direct: Tri) -> TriCase
    ensures { result ≡ unasked_of profile other default implied direct }
{
    match profile {
        Profile::Present => {
            if !implied.is_n() && is_below(direct, default.or(implied)) {
                return TriCase::Dependency;
            }
            if is_below(default, implied) {
                return TriCase::Imply;
            }
            other
        }
        Profile::Classic => {
            if !implied.is_n() && direct.is_n() && default.is_n() {
                return TriCase::Dependency;
            }
            if is_below(default, implied) && !direct.is_n() {
                return TriCase::Imply;
            }
            other
        }
    }
}

/// A user value gives the value up to the visibility.
fn asked_by(visibility: Tri, asked: Tri) -> TriCase
    ensures { result ≡ asked_tri visibility asked }
{
    if is_below(visibility, asked) {
        TriCase::Visibility
    } else {
        TriCase::User
    }
}

/// Without regard to selects.
#[tactic(auto, using(crate::proofs::Marks::unasked_is))]
fn base_case(under: &Valuation<'_>, symbol: &Symbol<'_>, asked: Option<Tri>) -> TriCase
    requires fits { SymbolFits (valuation_exprs under.now) (length (valuation_tree under.now).symbols) symbol.now }
    ensures value { result ≡ base_case under.now.rules.now.profile (valuation_tree under.now) (symbol_view (valuation_exprs under.now) symbol.now) asked (valuation_values under.now) }
{
    if let Some(asked) = asked {
        let visibility = visibility(under, symbol);
        if !visibility.is_n() {
            return asked_by(visibility, asked);
        }
    }
    let other = default_case(under, symbol);
    let default = default_value(under, symbol.defaults);
    let implied = reverse_limit(under, symbol.impliers);
    unasked_by(
        under.rules.profile,
        other,
        default,
        implied,
        largest(under, symbol.direct),
    )
}

/// What gives a bool or tristate its value where this is assigned, before an `m` may become `y`.
pub(crate) fn tri_case(under: &Valuation<'_>, symbol: &Symbol<'_>, asked: Option<Tri>) -> TriCase
    requires fits { SymbolFits (valuation_exprs under.now) (length (valuation_tree under.now).symbols) symbol.now }
    ensures value { let tree = valuation_tree under.now in let values = valuation_values under.now in let seen = symbol_view (valuation_exprs under.now) symbol.now in let profile = under.now.rules.now.profile in result ≡ (if below (base profile tree values seen asked) (selected tree values seen) then SelectTri else base_case profile tree seen asked values) }
{
    let base = base(under, under.rules.profile, symbol, asked);
    if is_below(base, reverse_limit(under, symbol.selectors)) {
        TriCase::Select
    } else {
        base_case(under, symbol, asked)
    }
}

/// Whether a symbol of this type can't be `m`.
pub(crate) fn is_without_m(under: &Valuation<'_>, kind: Kind) -> bool
    ensures { result ≡ is_without_m (valuation_tree under.now) (valuation_values under.now) kind }
{
    match kind {
        Kind::Bool => true,
        Kind::Tristate => under.modules().is_n(),
        Kind::Text | Kind::Int | Kind::Hex => false,
    }
}

/// Whether `m` becomes `y` because `y` is implied.
pub(crate) fn leaves_no_m(under: &Valuation<'_>, profile: Profile, symbol: &Symbol<'_>) -> bool
    requires fits { SymbolFits (valuation_exprs under.now) (length (valuation_tree under.now).symbols) symbol.now }
    ensures value { result ≡ leaves_no_m profile (valuation_tree under.now) (valuation_values under.now) (symbol_view (valuation_exprs under.now) symbol.now) }
{
    match profile {
        Profile::Present => false,
        Profile::Classic => match implied_effect(under, symbol) {
            Tri::N => false,
            Tri::M => false,
            Tri::Y => true,
        },
    }
}

/// Why a given value is lifted, if it is.
fn lift_by(under: &Valuation<'_>, symbol: &Symbol<'_>, value: Tri) -> Lift
    requires fits { SymbolFits (valuation_exprs under.now) (length (valuation_tree under.now).symbols) symbol.now }
    ensures value { result ≡ lift_of under.now.rules.now.profile (valuation_tree under.now) (symbol_view (valuation_exprs under.now) symbol.now) (valuation_values under.now) value }
{
    match value {
        Tri::N => Lift::AsGiven,
        Tri::Y => Lift::AsGiven,
        Tri::M => {
            if is_without_m(under, symbol.kind) {
                return Lift::WithoutM;
            }
            if leaves_no_m(under, under.rules.profile, symbol) {
                return Lift::ImpliedY;
            }
            Lift::AsGiven
        }
    }
}

/// Why the value that its case gives is lifted, if it is.
pub(crate) fn lift(under: &Valuation<'_>, symbol: &Symbol<'_>, user: Option<&UserValue>) -> Lift
    requires fits { SymbolFits (valuation_exprs under.now) (length (valuation_tree under.now).symbols) symbol.now }
    ensures value { let tree = valuation_tree under.now in let values = valuation_values under.now in let seen = symbol_view (valuation_exprs under.now) symbol.now in let held = option_copied user.entry in let profile = under.now.rules.now.profile in result ≡ lift_of profile tree seen values (given_tri (tri_case profile tree seen held values) tree seen held values) }
{
    let base = base(under, under.rules.profile, symbol, assigned_tri(user));
    let given = base.or(reverse_limit(under, symbol.selectors));
    lift_by(under, symbol, given)
}
