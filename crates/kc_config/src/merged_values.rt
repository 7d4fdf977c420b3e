//! User values that override earlier ones of the same units.
ghost use Rattle.std.specs.Prelude.{◌≡◌, ◌++◌, ℕ, IfOk, OnOk};
ghost use Rattle.std.specs.Option.{option_copied};
ghost use Rattle.std.specs.BTreeSet.{contains};
ghost use Rattle.std.specs.Ordering.{nat_cmp};
ghost use Rattle.kc_rules_model.specs.MemberLines.{is_listed, merged_lines};
ghost use Rattle.kc_solver.specs.Solutions.{user_of};
ghost use Rattle.kc_dotconfig_model.specs.ConfigFiles.{merged_user};
ghost use Rattle.kc_dotconfig.specs.Fragments.{changes_of};
ghost use Rattle.kc_config.specs.checker.Configs.{merged_assigns};

use kc_rules::Settled;
use kc_rules_model::{MemberLine, MemberLines, UserValue};
use kc_solver::System;
use std::alloc::{AllocError, Global};
use std::collections::BTreeSet;

/// The numbers of the members that some assignments list.
fn listed_members(alloc: Global, lines: &[MemberLine]) -> Result<BTreeSet<u32>, AllocError>
    ensures { IfOk result (λ members. (s : ℕ) → contains nat_cmp members s ≡ is_listed lines.now s) }
{
    let mut members = BTreeSet::new(alloc);
    for line in lines {
        match members.insert(line.member.number()) {
            Ok(_new) => {}
            Err(_) => return Err(AllocError),
        }
    }
    Ok(members)
}

/// Assignments of members of a choice, overridden by later ones of the same members.
fn merged_lines(
    alloc: Global,
    later: &[MemberLine],
    earlier: &[MemberLine],
) -> Result<MemberLines, AllocError>
    ensures { IfOk result (λ lines. lines ≡ merged_lines later.now earlier.now) }
{
    let members = listed_members(alloc, later)?;
    let mut lines = Vec::with_capacity(alloc, later.len())?;
    for line in earlier {
        if !members.contains(&line.member.number()) {
            lines.push(*line)?;
        }
    }
    lines.extend_from_slice(later)?;
    Ok(MemberLines::from_vec(lines))
}

/// A user value over an earlier one of the same unit, if there is one: assignments of members override those of the same members, any other
/// user value replaces the earlier one.
pub(crate) fn merged_user(
    alloc: Global,
    later: &UserValue,
    earlier: Option<&UserValue>,
) -> Result<UserValue, AllocError>
    ensures { IfOk result (λ x. x ≡ merged_user later.now (option_copied earlier.entry)) }
{
    match (later, earlier) {
        (UserValue::Lines(later), Some(UserValue::Lines(earlier))) => {
            let lines = merged_lines(alloc, later.as_slice(), earlier.as_slice())?;
            Ok(UserValue::Lines(lines))
        }
        (UserValue::Lines(_), Some(earlier)) => Settled::copy_user(alloc, earlier),
        (later, _) => Settled::copy_user(alloc, later),
    }
}

/// The user value of a unit in an assignment, or none.
pub fn user_at(users: &[Option<UserValue>], unit: u32) -> Option<&UserValue>
    ensures { option_copied result ≡ user_of users.now unit }
{
    match users.get(unit as usize) {
        Some(Some(user)) => Some(user),
        _ => None,
    }
}

/// Appends to `changes` those that set the units of `assigns` to their user values over those in `users`.
pub(crate) fn push_merged(
    alloc: Global,
    changes: &mut Vec<(u32, Option<UserValue>)>,
    users: &[Option<UserValue>],
    assigns: &[(u32, UserValue)],
) -> Result<(), AllocError>
    ensures { OnOk result (changes.new.items ≡ changes.old.items ++ changes_of (merged_assigns users.now assigns.now)) }
{
    for (unit, user) in assigns {
        let merged = merged_user(alloc, user, user_at(users, *unit))?;
        changes.push((*unit, Some(merged)))?;
    }
    Ok(())
}
