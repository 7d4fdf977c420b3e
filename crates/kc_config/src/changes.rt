//! Changes of an assignment, and the units that they give user values.
ghost use Rattle.std.specs.Prelude.{◌≡◌, ◌<◌, ◌++◌, ℕ, Option, Some, None, IfOk, OnOk, length, take, filter, is_none, replicate, slice_get};
ghost use Rattle.kc_solver.specs.Changes.{changed_users};
ghost use Rattle.kc_solver.specs.Solutions.{user_of};
ghost use Rattle.kc_dotconfig.specs.Fragments.{changes_of};
ghost use Rattle.kc_dotconfig.specs.checker.UserValueOrder.{units_of};
ghost use Rattle.kc_config.specs.checker.Configs.{clears_of};

use kc_rules::Settled;
use kc_rules_model::UserValue;
use kc_solver::System;
use std::alloc::{AllocError, Global};

/// Appends to `changes` those that set the units of `assigns` to copies of their user values.
pub(crate) fn push_users(
    alloc: Global,
    changes: &mut Vec<(u32, Option<UserValue>)>,
    assigns: &[(u32, UserValue)],
) -> Result<(), AllocError>
    ensures { OnOk result (changes.new.items ≡ changes.old.items ++ changes_of assigns.now) }
{
    for (unit, user) in assigns {
        let copy = Settled::copy_user(alloc, user)?;
        changes.push((*unit, Some(copy)))?;
    }
    Ok(())
}

/// Appends to `changes` those that remove the user value of each unit in `units`.
pub(crate) fn push_cleared(
    changes: &mut Vec<(u32, Option<UserValue>)>,
    units: &[u32],
) -> Result<(), AllocError>
    ensures { OnOk result (changes.new.items ≡ changes.old.items ++ clears_of units.now) }
{
    for unit in units {
        changes.push((*unit, None))?;
    }
    Ok(())
}

/// The units to which a list of user values assigns, in order.
pub(crate) fn units_assigned(
    alloc: Global,
    assigns: &[(u32, UserValue)],
) -> Result<Vec<u32>, AllocError>
    ensures { IfOk result (λ units. units.items ≡ units_of assigns.now) }
{
    let mut units = Vec::with_capacity(alloc, assigns.len())?;
    for (unit, _user) in assigns {
        units.push(*unit)?;
    }
    Ok(units)
}

/// No user value for each of `size` units.
fn blank_users(alloc: Global, size: u32) -> Result<Vec<Option<UserValue>>, AllocError>
    ensures { IfOk result (λ users. users.items ≡ replicate size None) }
{
    let mut users = Vec::with_capacity(alloc, size as usize)?;
    for _unit in 0..size {
        users.push(None)?;
    }
    Ok(users)
}

/// The assignment to `size` units that has the user values of `assigns` and no others.
pub(crate) fn users_assigned(
    alloc: Global,
    size: u32,
    assigns: &[(u32, UserValue)],
) -> Result<Vec<Option<UserValue>>, AllocError>
    requires units { (k u : ℕ) (x : UserValue) → slice_get assigns.now k ≡ Some (u, x) → u < size }
    ensures ok { IfOk result (λ users. users.items ≡ changed_users (changes_of assigns.now) (replicate size None)) }
{
    let mut users = blank_users(alloc, size)?;
    for (unit, user) in assigns {
        let copy = Settled::copy_user(alloc, user)?;
        users[*unit as usize] = Some(copy);
    }
    Ok(users)
}

/// Appends to `valued` the units of `assigns` that have no user value in `users`.
pub(crate) fn merge_units(
    valued: &mut Vec<u32>,
    users: &[Option<UserValue>],
    assigns: &[(u32, UserValue)],
) -> Result<(), AllocError>
    ensures ok { OnOk result (valued.new.items ≡ valued.old.items ++ filter (λ u. is_none (user_of users.now u)) (units_of assigns.now)) }
    ensures kept { take (length valued.old.items) valued.new.items ≡ valued.old.items }
{
    for (unit, _user) in assigns {
        let has_user = match users.get(*unit as usize) {
            Some(Some(_)) => true,
            _ => false,
        };
        if !has_user {
            valued.push(*unit)?;
        }
    }
    Ok(())
}
