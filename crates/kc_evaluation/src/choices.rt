//! The rule of choices.
ghost use Rattle.std.specs.Prelude.{◌≡◌, ◌<◌, ◌&&◌, length, map, find, IfSome};
ghost use Rattle.kc_tree.specs.between.Views.{choice_view, member_default_view, ChoiceFits};
ghost use Rattle.kc_dependencies.specs.checker.StoredRules.{AreMemberDefaults, AreMembers, default_member_of, is_open};
ghost use Rattle.kc_rules_model.specs.Rule.{is_shown, is_visible_member, default_member};
ghost use Rattle.kc_evaluation.specs.checker.Choices.{shown_choice_rule_of};
ghost use Rattle.kc_evaluation.specs.checker.ValuationView.{valuation_tree, valuation_exprs, valuation_values};

use super::tristate_rules::is_visible;
use super::valuation::Valuation;
use kc_tree::{Choice, MemberDefault, Sym};

/// Whether the condition of a choice's prompt isn't `n`; false without a prompt.
pub fn is_shown(under: &Valuation<'_>, choice: &Choice<'_>) -> bool
    requires fits { ChoiceFits (valuation_exprs under.now) (length (valuation_tree under.now).symbols) choice.now }
    ensures value { result ≡ is_shown (valuation_tree under.now) (valuation_values under.now) (choice_view (valuation_exprs under.now) choice.now) }
{
    match choice.prompt {
        None => false,
        Some(id) => !under.condition(id).is_n(),
    }
}

/// Whether a member of a choice is visible.
pub fn is_member_visible(under: &Valuation<'_>, s: Sym) -> bool
    requires there { s < length (valuation_tree under.now).symbols }
    ensures value { result ≡ is_visible_member (valuation_tree under.now) (valuation_values under.now) s }
{
    is_visible(under, &under.rules.tree.symbol(s))
}

/// Whether a default of a choice counts: its condition isn't `n` and its member is visible.
fn is_default_open(under: &Valuation<'_>, default: MemberDefault) -> bool
    requires member { default.member < length (valuation_tree under.now).symbols }
    requires condition { default.condition < length (valuation_exprs under.now).nodes }
    ensures value { result ≡ is_open (valuation_tree under.now) (valuation_values under.now) (member_default_view (valuation_exprs under.now) default) }
{
    !under.condition(default.condition).is_n() && is_member_visible(under, default.member)
}

/// The member of a choice's first default whose condition isn't `n` and whose member is visible; `None` without such a default.
pub fn member_by_default(under: &Valuation<'_>, defaults: &[MemberDefault]) -> Option<Sym>
    requires fits { AreMemberDefaults (valuation_exprs under.now) (valuation_tree under.now) defaults.now }
    ensures value { result ≡ default_member_of (valuation_tree under.now) (valuation_values under.now) (map (member_default_view (valuation_exprs under.now)) defaults.now) }
{
    for default in defaults {
        if is_default_open(under, *default) {
            return Some(default.member);
        }
    }
    None
}

/// The first visible member of a choice, if there is one.
pub fn first_member(under: &Valuation<'_>, members: &[Sym]) -> Option<Sym>
    requires fits { AreMembers (valuation_tree under.now) members.now }
    ensures value { result ≡ find (is_visible_member (valuation_tree under.now) (valuation_values under.now)) members.now }
{
    for s in members {
        if is_member_visible(under, *s) {
            return Some(*s);
        }
    }
    None
}

/// The default member of a choice: the member of the first default that counts, otherwise the first visible one; `None` for an
/// optional choice.
pub fn default_member(under: &Valuation<'_>, choice: &Choice<'_>) -> Option<Sym>
    requires fits { ChoiceFits (valuation_exprs under.now) (length (valuation_tree under.now).symbols) choice.now }
    ensures value { result ≡ default_member (valuation_tree under.now) (choice_view (valuation_exprs under.now) choice.now) (valuation_values under.now) }
{
    if choice.optional {
        return None;
    }
    if let Some(s) = member_by_default(under, choice.defaults) {
        return Some(s);
    }
    first_member(under, choice.members)
}

/// The selection of a choice by the rules that Linux had before 6.10: the user's member if it is visible, otherwise the default
/// member. `None` where the choice isn't shown.
pub(crate) fn shown_choice_rule(
    under: &Valuation<'_>,
    choice: &Choice<'_>,
    user: Option<Sym>,
) -> Option<Sym>
    requires fits { ChoiceFits (valuation_exprs under.now) (length (valuation_tree under.now).symbols) choice.now }
    requires user { IfSome user (λ s. s < length (valuation_tree under.now).symbols) }
    ensures value { result ≡ shown_choice_rule_of (valuation_tree under.now) (choice_view (valuation_exprs under.now) choice.now) user (valuation_values under.now) }
{
    if !is_shown(under, choice) {
        return None;
    }
    if let Some(s) = user {
        if is_member_visible(under, s) {
            return Some(s);
        }
    }
    default_member(under, choice)
}
