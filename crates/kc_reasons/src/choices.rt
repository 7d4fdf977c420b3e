//! What gives a choice its member.
ghost use Rattle.std.specs.Prelude.{◌≡◌, ◌<◌, length, is_some, IfOk, IfSome, if◌then◌else◌};
ghost use Rattle.std.specs.Option.{option_copied};
ghost use Rattle.kc_tree.specs.between.Views.{choice_view, ChoiceFits};
ghost use Rattle.kc_evaluation.specs.checker.ValuationView.{valuation_tree, valuation_exprs, valuation_values};
ghost use Rattle.kc_rules_model.specs.Rule.{default_member, assigned_member};
ghost use Rattle.kc_rules_model.specs.declared.values.MemberLine.{MemberLine as TheLine};
ghost use Rattle.kc_reasons_model.specs.declared.cases.ChoiceCase.{ChoiceCase as TheCase};
ghost use Rattle.kc_reasons_model.specs.declared.cases.ChoiceCase.TheVariants.{FirstUnlisted, FirstListed};
ghost use Rattle.kc_reasons_model.specs.Cases.{counts, counted_lines, counted_member, is_listed_default, default_choice_case, member_by_default, first_member, first_unlisted, choice_case};

use kc_evaluation::{
    Valuation, assigned_lines, assigned_member, default_member, first_member, first_unlisted,
    is_listed, is_member_visible, is_shown, last_y, member_by_default,
};
use kc_reasons_model::ChoiceCase;
use kc_rules_model::{MemberLine, UserValue};
use kc_tree::Choice;
use std::alloc::{AllocError, Global};

/// What is assigned to members one by one; nothing but under the rules of Linux 6.12.
fn counted_lines<'a>(under: &Valuation<'_>, user: Option<&'a UserValue>) -> &'a [MemberLine]
    ensures { result.now ≡ counted_lines (valuation_tree under.now) (option_copied user.entry) }
{
    if under.rules.tree.language().is_linux_6_12() {
        assigned_lines(user)
    } else {
        &[]
    }
}

/// Whether what the user assigns selects a member.
fn has_counted_member(under: &Valuation<'_>, user: Option<&UserValue>) -> bool
    requires user { IfSome (assigned_member (option_copied user)) (λ s. s < length (valuation_tree under.now).symbols) }
    ensures value { result ≡ is_some (counted_member (valuation_tree under.now) (option_copied user.entry) (valuation_values under.now)) }
{
    if under.rules.tree.language().is_linux_6_12() {
        return last_y(under, assigned_lines(user)).is_some();
    }
    match assigned_member(user) {
        None => false,
        Some(s) => is_member_visible(under, s),
    }
}

/// Whether the choice is shown, or needn't be.
pub(crate) fn counts(under: &Valuation<'_>, choice: &Choice<'_>) -> bool
    requires fits { ChoiceFits (valuation_exprs under.now) (length (valuation_tree under.now).symbols) choice.now }
    ensures value { result ≡ counts (valuation_tree under.now) (choice_view (valuation_exprs under.now) choice.now) (valuation_values under.now) }
{
    under.rules.tree.language().is_linux_6_12() || is_shown(under, choice)
}

/// Without the user.
fn default_choice_case(under: &Valuation<'_>, choice: &Choice<'_>) -> ChoiceCase
    requires fits { ChoiceFits (valuation_exprs under.now) (length (valuation_tree under.now).symbols) choice.now }
    ensures value { let seen = choice_view (valuation_exprs under.now) choice.now in result ≡ default_choice_case seen.optional (is_some (member_by_default (valuation_tree under.now) seen (valuation_values under.now))) (is_some (first_member (valuation_tree under.now) seen (valuation_values under.now))) }
{
    if choice.optional {
        return ChoiceCase::Optional;
    }
    if member_by_default(under, choice.defaults).is_some() {
        return ChoiceCase::Default;
    }
    if first_member(under, choice.members).is_some() {
        return ChoiceCase::First;
    }
    ChoiceCase::NoMember
}

/// Whether there is a default member and something is assigned to it.
fn is_default_listed(under: &Valuation<'_>, choice: &Choice<'_>, lines: &[MemberLine]) -> bool
    requires fits { ChoiceFits (valuation_exprs under.now) (length (valuation_tree under.now).symbols) choice.now }
    ensures value { result ≡ is_listed_default lines.now (default_member (valuation_tree under.now) (choice_view (valuation_exprs under.now) choice.now) (valuation_values under.now)) }
{
    match default_member(under, choice) {
        None => false,
        Some(s) => is_listed(lines, s),
    }
}

/// Where the default member has an `n`.
fn listed_case(
    alloc: Global,
    under: &Valuation<'_>,
    choice: &Choice<'_>,
    lines: &[MemberLine],
) -> Result<ChoiceCase, AllocError>
    requires fits { ChoiceFits (valuation_exprs under.now) (length (valuation_tree under.now).symbols) choice.now }
    ensures ok { IfOk result (λ c. c ≡ (if is_some (first_unlisted (valuation_tree under.now) (choice_view (valuation_exprs under.now) choice.now) lines.now (valuation_values under.now)) then FirstUnlisted else FirstListed)) }
{
    match first_unlisted(alloc, under, choice.members, lines)? {
        Some(_) => Ok(ChoiceCase::FirstUnlisted),
        None => Ok(ChoiceCase::FirstListed),
    }
}

/// What gives a choice its member. An `Err` means out of memory.
pub(crate) fn choice_case(
    alloc: Global,
    under: &Valuation<'_>,
    choice: &Choice<'_>,
    user: Option<&UserValue>,
) -> Result<ChoiceCase, AllocError>
    requires fits { ChoiceFits (valuation_exprs under.now) (length (valuation_tree under.now).symbols) choice.now }
    requires user { IfSome (assigned_member (option_copied user)) (λ s. s < length (valuation_tree under.now).symbols) }
    ensures ok { IfOk result (λ c. c ≡ choice_case (valuation_tree under.now) (choice_view (valuation_exprs under.now) choice.now) (option_copied user.entry) (valuation_values under.now)) }
{
    if !counts(under, choice) {
        return Ok(ChoiceCase::NotShown);
    }
    if has_counted_member(under, user) {
        return Ok(ChoiceCase::User);
    }
    let lines = counted_lines(under, user);
    if is_default_listed(under, choice, lines) {
        return listed_case(alloc, under, choice, lines);
    }
    Ok(default_choice_case(under, choice))
}
