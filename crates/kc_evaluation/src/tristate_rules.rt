//! The rule of bools and tristates.
ghost use Rattle.std.specs.Prelude.{◌≡◌, ◌<◌, length, map, if◌then◌else◌};
ghost use Rattle.std.specs.List.{list_any};
ghost use Rattle.kc_expr.specs.between.Arena.{Exprs, node_expr};
ghost use Rattle.kc_tree.specs.between.Views.{symbol_view, reverse_dependency_view as kept_force, default_view, SymbolFits};
ghost use Rattle.kc_dependencies.specs.checker.StoredRules.{AreNodes, AreReverseDependencies, AreDefaults};
ghost use Rattle.kc_value.specs.Tri.{largest, tri_or, y_for_m};
ghost use Rattle.kc_rules_model.specs.Rule.{conditions, reverse_dependency_value, reverse_dependency_limit, promoted, is_from_environment, counted_prompts, visibility, is_visible, default_tri, implied_effect, unassigned_value, base, leaves_no_m};
ghost use Rattle.kc_rules_model.specs.Reports.{allowed, is_unmet_symbol};
ghost use Rattle.kc_evaluation.specs.checker.RuleParts.{active_default_of, tri_rule_of};
ghost use Rattle.kc_evaluation.specs.checker.ValuationView.{valuation_tree, valuation_exprs, valuation_values};

use super::symbol_values::is_below;
use super::valuation::Valuation;
use kc_expr::ExprId;
use kc_rules_model::Profile;
use kc_tokens::Language;
use kc_tree::{Default, ReverseDependency, Symbol};
use kc_value::{Kind, Tri};

/// The largest value of some expressions, `n` without any.
#[inline(always)]
pub fn largest(under: &Valuation<'_>, ids: &[ExprId]) -> Tri
    requires fits { AreNodes (valuation_exprs under.now) ids.now }
    ensures value { result ≡ largest (conditions (valuation_tree under.now) (valuation_values under.now) (map (node_expr (valuation_exprs under.now)) ids.now)) }
{
    let mut most = Tri::N;
    for id in ids {
        most = most.or(under.condition(*id));
    }
    most
}

/// The least value that a select or imply demands.
#[inline(never)]
pub fn reverse_value(under: &Valuation<'_>, force: ReverseDependency) -> Tri
    requires by { force.by < length (valuation_tree under.now).symbols }
    requires condition { force.condition < length (valuation_exprs under.now).nodes }
    ensures value { result ≡ reverse_dependency_value (valuation_tree under.now) (valuation_values under.now) (kept_force (valuation_exprs under.now) force) }
{
    let by = under.tristate(force.by);
    match by {
        Tri::N => Tri::N,
        Tri::M | Tri::Y => by.and(under.condition(force.condition)),
    }
}

/// The larger of a value and of the largest that some selects or implies demand; once it's `y` the others aren't asked.
#[inline(always)]
fn raised(under: &Valuation<'_>, least: Tri, all: &[ReverseDependency]) -> Tri
    requires fits { AreReverseDependencies (valuation_exprs under.now) (valuation_tree under.now) all.now }
    ensures value { result ≡ tri_or least (largest (reverse_dependency_limit (valuation_tree under.now) (valuation_values under.now) (map (kept_force (valuation_exprs under.now)) all.now))) }
{
    let mut most = least;
    for force in all {
        if most == Tri::Y {
            return Tri::Y;
        }
        most = most.or(reverse_value(under, *force));
    }
    most
}

/// The largest of the values that some selects or implies demand of a symbol, `n` without any.
#[inline(always)]
pub fn reverse_limit(under: &Valuation<'_>, all: &[ReverseDependency]) -> Tri
    requires fits { AreReverseDependencies (valuation_exprs under.now) (valuation_tree under.now) all.now }
    ensures value { result ≡ largest (reverse_dependency_limit (valuation_tree under.now) (valuation_values under.now) (map (kept_force (valuation_exprs under.now)) all.now)) }
{
    raised(under, Tri::N, all)
}

/// A value for a symbol of this type, with `y` in place of `m` for a bool, and for a tristate while `MODULES` is `n`.
pub(crate) fn promoted(under: &Valuation<'_>, kind: Kind, value: Tri) -> Tri
    ensures { result ≡ promoted (valuation_tree under.now) (valuation_values under.now) kind value }
{
    if value != Tri::M {
        return value;
    }
    match kind {
        Kind::Bool => Tri::Y,
        Kind::Tristate => {
            if under.modules().is_n() {
                Tri::Y
            } else {
                Tri::M
            }
        }
        Kind::Text | Kind::Int | Kind::Hex => Tri::M,
    }
}

/// Whether one of some defaults is an `option env`.
fn has_environment_default(defaults: &[Default]) -> bool
    ensures { result ≡ list_any (λ d. d.from_environment) defaults.now }
{
    defaults.iter().any(|default| default.from_environment)
}

/// Whether a symbol has an `option env`, so that it is never visible.
pub fn is_from_environment(symbol: &Symbol<'_>) -> bool
    ensures { (exprs : Exprs) → result ≡ is_from_environment (symbol_view exprs symbol.now) }
{
    has_environment_default(symbol.defaults)
}

/// The largest value of the conditions of a symbol's prompts that count; `n` of a symbol with an `option env`.
fn prompted(under: &Valuation<'_>, symbol: &Symbol<'_>) -> Tri
    requires fits { SymbolFits (valuation_exprs under.now) (length (valuation_tree under.now).symbols) symbol.now }
    ensures value { result ≡ largest (conditions (valuation_tree under.now) (valuation_values under.now) (counted_prompts (symbol_view (valuation_exprs under.now) symbol.now))) }
{
    if is_from_environment(symbol) {
        return Tri::N;
    }
    largest(under, symbol.prompts)
}

/// The visibility of a symbol: the largest value of its prompts' conditions, with `y` in place of `m` where the symbol can't be
/// `m`.
pub fn visibility(under: &Valuation<'_>, symbol: &Symbol<'_>) -> Tri
    requires fits { SymbolFits (valuation_exprs under.now) (length (valuation_tree under.now).symbols) symbol.now }
    ensures value { result ≡ visibility (valuation_tree under.now) (valuation_values under.now) (symbol_view (valuation_exprs under.now) symbol.now) }
{
    promoted(under, symbol.kind, prompted(under, symbol))
}

/// Whether a symbol is visible: the condition of some prompt isn't `n`.
pub fn is_visible(under: &Valuation<'_>, symbol: &Symbol<'_>) -> bool
    requires fits { SymbolFits (valuation_exprs under.now) (length (valuation_tree under.now).symbols) symbol.now }
    ensures value { result ≡ is_visible (valuation_tree under.now) (valuation_values under.now) (symbol_view (valuation_exprs under.now) symbol.now) }
{
    !prompted(under, symbol).is_n()
}

/// The value of a bool's or tristate's first default whose condition isn't `n`, limited to the condition; `n` without one.
#[inline(always)]
pub fn default_value(under: &Valuation<'_>, defaults: &[Default]) -> Tri
    requires fits { AreDefaults (valuation_exprs under.now) defaults.now }
    ensures value { result ≡ default_tri (valuation_tree under.now) (valuation_values under.now) (active_default_of (valuation_tree under.now) (valuation_values under.now) (map (default_view (valuation_exprs under.now)) defaults.now)) }
{
    for default in defaults {
        let condition = under.condition(default.condition);
        if !condition.is_n() {
            return condition.and(under.condition(default.value));
        }
    }
    Tri::N
}

/// The largest value that some `imply` demands of a symbol; `n` without any, and where the symbol's direct dependency is `n`.
pub fn implied_effect(under: &Valuation<'_>, symbol: &Symbol<'_>) -> Tri
    requires fits { SymbolFits (valuation_exprs under.now) (length (valuation_tree under.now).symbols) symbol.now }
    ensures value { result ≡ implied_effect (valuation_tree under.now) (valuation_values under.now) (symbol_view (valuation_exprs under.now) symbol.now) }
{
    let implied = reverse_limit(under, symbol.impliers);
    if implied.is_n() || largest(under, symbol.direct).is_n() {
        Tri::N
    } else {
        implied
    }
}

/// The value of a bool or tristate by its defaults and the implies that name it, without regard to user values and selects.
pub(crate) fn unassigned_value(under: &Valuation<'_>, profile: Profile, symbol: &Symbol<'_>) -> Tri
    requires fits { SymbolFits (valuation_exprs under.now) (length (valuation_tree under.now).symbols) symbol.now }
    ensures value { result ≡ unassigned_value profile (valuation_tree under.now) (valuation_values under.now) (symbol_view (valuation_exprs under.now) symbol.now) }
{
    let default = default_value(under, symbol.defaults);
    match profile {
        Profile::Present => {
            let implied = reverse_limit(under, symbol.impliers);
            if implied.is_n() {
                default
            } else {
                default.or(implied).and(largest(under, symbol.direct))
            }
        }
        Profile::Classic => default.or(implied_effect(under, symbol)),
    }
}

/// The value of a bool or tristate before selects: the user value up to the visibility, or the value without a user value.
pub fn base(under: &Valuation<'_>, profile: Profile, symbol: &Symbol<'_>, user: Option<Tri>) -> Tri
    requires fits { SymbolFits (valuation_exprs under.now) (length (valuation_tree under.now).symbols) symbol.now }
    ensures value { result ≡ base profile (valuation_tree under.now) (valuation_values under.now) (symbol_view (valuation_exprs under.now) symbol.now) user }
{
    if let Some(assigned) = user {
        let visibility = visibility(under, symbol);
        if !visibility.is_n() {
            return assigned.and(visibility);
        }
    }
    unassigned_value(under, profile, symbol)
}

/// The value of a symbol with `y` in place of `m` where the profile is the classic one and the symbol is implied as `y`.
fn without_m(under: &Valuation<'_>, profile: Profile, symbol: &Symbol<'_>, value: Tri) -> Tri
    requires fits { SymbolFits (valuation_exprs under.now) (length (valuation_tree under.now).symbols) symbol.now }
    ensures value { result ≡ (if leaves_no_m profile (valuation_tree under.now) (valuation_values under.now) (symbol_view (valuation_exprs under.now) symbol.now) then y_for_m value else value) }
{
    match profile {
        Profile::Present => value,
        Profile::Classic => {
            if value == Tri::M && implied_effect(under, symbol) == Tri::Y {
                Tri::Y
            } else {
                value
            }
        }
    }
}

/// The value of a bool or tristate outside choices, by its user value, if there is one, and its rule in this profile.
pub fn tri_rule(
    under: &Valuation<'_>,
    profile: Profile,
    symbol: &Symbol<'_>,
    user: Option<Tri>,
) -> Tri
    requires fits { SymbolFits (valuation_exprs under.now) (length (valuation_tree under.now).symbols) symbol.now }
    ensures value { result ≡ tri_rule_of profile (valuation_tree under.now) (valuation_values under.now) (symbol_view (valuation_exprs under.now) symbol.now) user }
{
    let base = base(under, profile, symbol, user);
    let selected = raised(under, base, symbol.selectors);
    let value = promoted(under, symbol.kind, selected);
    without_m(under, profile, symbol, value)
}

/// The direct dependency of a symbol, up to which it may be selected: in the languages of Linux `m` counts as `y` for a bool.
fn allowed(under: &Valuation<'_>, symbol: &Symbol<'_>) -> Tri
    requires fits { SymbolFits (valuation_exprs under.now) (length (valuation_tree under.now).symbols) symbol.now }
    ensures value { result ≡ allowed (valuation_tree under.now) (valuation_values under.now) (symbol_view (valuation_exprs under.now) symbol.now) }
{
    let direct = largest(under, symbol.direct);
    match (under.rules.tree.language(), symbol.kind) {
        (Language::Linux(_), Kind::Bool) => direct.y_for_m(),
        _ => direct,
    }
}

/// Whether a symbol outside choices is selected above its direct dependency.
pub fn is_symbol_unmet(under: &Valuation<'_>, symbol: &Symbol<'_>) -> bool
    requires fits { SymbolFits (valuation_exprs under.now) (length (valuation_tree under.now).symbols) symbol.now }
    ensures value { result ≡ is_unmet_symbol (valuation_tree under.now) (valuation_values under.now) (symbol_view (valuation_exprs under.now) symbol.now) }
{
    if symbol.choice.is_some() {
        return false;
    }
    is_below(
        allowed(under, symbol),
        reverse_limit(under, symbol.selectors),
    )
}
