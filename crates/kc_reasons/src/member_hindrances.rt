//! What hinders that a choice has the member that its user value asks for.
ghost use Rattle.std.specs.Prelude.{◌≡◌, ◌<◌, ◌==◌, ◌&&◌, not, length, IfOk, IfSome, Some};
ghost use Rattle.std.specs.List.{list_any};
ghost use Rattle.kc_tree.specs.between.Views.{choice_view, ChoiceFits};
ghost use Rattle.kc_evaluation.specs.checker.ValuationView.{valuation_tree, valuation_exprs, valuation_values};
ghost use Rattle.kc_rules_model.specs.declared.values.UserValue.TheVariants.{Lines as LinesUser};
ghost use Rattle.kc_rules_model.specs.Rule.{assigned_member};
ghost use Rattle.kc_dotconfig_model.specs.MissedAssignments.{is_given_n};
ghost use Rattle.kc_reasons_model.specs.Cases.{choice_case};
ghost use Rattle.kc_reasons_model.specs.Hindrances.{hinders_member, hinders_listed, holds_of_member, is_given_y, is_asked_n, is_this, is_another, is_first_listed};

use super::choices::choice_case;
use kc_evaluation::{Valuation, first_listed, is_member_visible, is_shown, last_y};
use kc_reasons_model::{ChoiceCase, Hindrance};
use kc_rules_model::{MemberLine, UserValue};
use kc_tree::{Choice, Sym};
use std::alloc::{AllocError, Global};

/// Whether a hindrance holds of an assigned member, by whether the choice is shown and the member visible.
fn holds_of_member(hindrance: Hindrance, shown: bool, visible: bool) -> bool
    ensures { result ≡ holds_of_member hindrance shown visible }
{
    match hindrance {
        Hindrance::ChoiceNotShown => !shown,
        Hindrance::MemberHidden => shown && !visible,
        Hindrance::BelowSelected => false,
        Hindrance::FromEnvironment => false,
        Hindrance::Hidden => false,
        Hindrance::AboveVisibility => false,
        Hindrance::Promoted => false,
        Hindrance::ImpliedY => false,
        Hindrance::UpsideDown => false,
        Hindrance::OutOfRange => false,
        Hindrance::LaterY => false,
        Hindrance::FirstOfAll => false,
    }
}

/// Whether a hindrance holds of a member that the user selects.
pub(crate) fn hinders_member(
    under: &Valuation<'_>,
    hindrance: Hindrance,
    choice: &Choice<'_>,
    member: Sym,
) -> bool
    requires fits { ChoiceFits (valuation_exprs under.now) (length (valuation_tree under.now).symbols) choice.now }
    requires there { member < length (valuation_tree under.now).symbols }
    ensures value { result ≡ hinders_member hindrance (valuation_tree under.now) (choice_view (valuation_exprs under.now) choice.now) member (valuation_values under.now) }
{
    holds_of_member(
        hindrance,
        is_shown(under, choice),
        is_member_visible(under, member),
    )
}

/// Whether some assignments give a member `y`.
pub fn is_given_y(lines: &[MemberLine], s: Sym) -> bool
    ensures { result ≡ is_given_y lines.now s }
{
    lines
        .iter()
        .any(|line| line.member.number() == s.number() && line.is_y)
}

/// Whether some assignments give a member `n`.
fn is_given_n(lines: &[MemberLine], s: Sym) -> bool
    ensures { result ≡ is_given_n lines.now s }
{
    lines
        .iter()
        .any(|line| line.member.number() == s.number() && !line.is_y)
}

/// Whether some assignments ask that a member be `n`.
pub(crate) fn is_asked_n(lines: &[MemberLine], s: Sym) -> bool
    ensures { result ≡ is_asked_n lines.now s }
{
    is_given_n(lines, s) && !is_given_y(lines, s)
}

/// Whether a member is there and is this one.
fn is_this(s: Sym, member: Option<Sym>) -> bool
    ensures { result ≡ is_this s member }
{
    match member {
        None => false,
        Some(m) => m.number() == s.number(),
    }
}

/// Whether a member is there and is another one.
fn is_another(s: Sym, member: Option<Sym>) -> bool
    ensures { result ≡ is_another s member }
{
    match member {
        None => false,
        Some(m) => m.number() != s.number(),
    }
}

/// Whether a choice has its member as the first that has `n`.
fn is_first_listed(case: ChoiceCase) -> bool
    ensures { result ≡ is_first_listed case }
{
    match case {
        ChoiceCase::FirstListed => true,
        ChoiceCase::User => false,
        ChoiceCase::Default => false,
        ChoiceCase::First => false,
        ChoiceCase::FirstUnlisted => false,
        ChoiceCase::Optional => false,
        ChoiceCase::NoMember => false,
        ChoiceCase::NotShown => false,
    }
}

/// Whether a choice with this user value has its member as the first that has `n`. An `Err` means out of memory.
fn has_first_listed(
    alloc: Global,
    under: &Valuation<'_>,
    choice: &Choice<'_>,
    user: &UserValue,
) -> Result<bool, AllocError>
    requires fits { ChoiceFits (valuation_exprs under.now) (length (valuation_tree under.now).symbols) choice.now }
    requires user { IfSome (assigned_member (Some user.now)) (λ s. s < length (valuation_tree under.now).symbols) }
    ensures ok { IfOk result (λ b. b ≡ is_first_listed (choice_case (valuation_tree under.now) (choice_view (valuation_exprs under.now) choice.now) (Some user.now) (valuation_values under.now))) }
{
    let case = choice_case(alloc, under, choice, Some(user))?;
    Ok(is_first_listed(case))
}

/// Whether a hindrance holds of what assignments of members ask of member `s`. An `Err` means out of memory.
pub(crate) fn hinders_listed(
    alloc: Global,
    under: &Valuation<'_>,
    hindrance: Hindrance,
    choice: &Choice<'_>,
    s: Sym,
    lines: &[MemberLine],
    user: &UserValue,
) -> Result<bool, AllocError>
    requires fits { ChoiceFits (valuation_exprs under.now) (length (valuation_tree under.now).symbols) choice.now }
    requires there { s < length (valuation_tree under.now).symbols }
    requires lines { user.now ≡ LinesUser lines.now }
    ensures ok { IfOk result (λ b. b ≡ hinders_listed hindrance (valuation_tree under.now) (choice_view (valuation_exprs under.now) choice.now) s lines.now (valuation_values under.now)) }
{
    match hindrance {
        Hindrance::MemberHidden => Ok(is_given_y(lines, s) && !is_member_visible(under, s)),
        Hindrance::LaterY => Ok(is_given_y(lines, s) && is_another(s, last_y(under, lines))),
        Hindrance::FirstOfAll => {
            if is_asked_n(lines, s) && is_this(s, first_listed(under, lines)) {
                has_first_listed(alloc, under, choice, user)
            } else {
                Ok(false)
            }
        }
        Hindrance::BelowSelected => Ok(false),
        Hindrance::FromEnvironment => Ok(false),
        Hindrance::Hidden => Ok(false),
        Hindrance::AboveVisibility => Ok(false),
        Hindrance::Promoted => Ok(false),
        Hindrance::ImpliedY => Ok(false),
        Hindrance::UpsideDown => Ok(false),
        Hindrance::OutOfRange => Ok(false),
        Hindrance::ChoiceNotShown => Ok(false),
    }
}
