//! Changes of user values, and the places that they make pending.
ghost use Rattle.std.specs.Prelude.{◌≡◌, ◌≢◌, ◌↔◌, ℕ, ◌<◌, true, [], Some, length, slice_get, OnOk};
ghost use Rattle.kc_solver.specs.Changes.{changed_users};
ghost use Rattle.kc_solver.specs.checker.Logs.{Undoes, undone};
ghost use Rattle.kc_solver.specs.checker.PendingPlaces.{FitsPlaces, IsDone, ListsChanged, is_pending};

use crate::copies::{copy_optional_user, is_same_optional_user};
use crate::place_sets::PlaceSet;
use crate::system::System;
use crate::undo_log::write_logged;
use std::alloc::{AllocError, Global};

/// Writes the user values of some changes one after another, and logs those that they replace; or out of memory.
pub(crate) fn write_users<S: System>(
    alloc: Global,
    changes: &[(u32, Option<S::User>)],
    users: &mut [Option<S::User>],
    log: &mut Vec<(u32, Option<S::User>)>,
) -> Result<(), AllocError>
    requires units { (k u : ℕ) (x : _) → slice_get changes.now k ≡ Some (u, x) → u < length users.old }
    requires nothing { log.old.items ≡ [] }
    ensures users { OnOk result (users.new ≡ changed_users changes.now users.old) }
    ensures undo { Undoes log.new.items users.old users.new }
{
    for (u, user) in changes {
        let user = copy_optional_user::<S>(alloc, user)?;
        write_logged(users, log, *u, user)?;
    }
    Ok(())
}

/// Adds a unit's place to the pending ones if its user value differs from the old one, and removes it otherwise.
fn mark_if_changed<S: System>(
    pending: &mut PlaceSet,
    place: u32,
    before: &Option<S::User>,
    after: &Option<S::User>,
)
    requires there { place < pending.old.size }
    ensures size { pending.new.size ≡ pending.old.size }
    ensures here { (is_pending pending.new place ≡ true) ↔ (before.now ≢ after.now) }
    ensures others { (k : ℕ) → k ≢ place → is_pending pending.new k ≡ is_pending pending.old k }
{
    if is_same_optional_user::<S>(before, after) {
        pending.remove(place);
    } else {
        pending.insert(place);
    }
}

/// Adds the places of the units whose user values differ from those before the logged changes to the set of pending places.
pub(crate) fn mark_changed<S: System>(
    pending: &mut PlaceSet,
    log: &[(u32, Option<S::User>)],
    users: &[Option<S::User>],
    places: &[u32],
)
    requires none { IsDone pending.old }
    requires within { FitsPlaces places.now pending.old }
    requires units { (k u : ℕ) (x : _) → slice_get log.now k ≡ Some (u, x) → u < length users.now }
    requires places { length places.now ≡ length users.now }
    requires once { (u w p : ℕ) → slice_get places.now u ≡ Some p → slice_get places.now w ≡ Some p → u ≡ w }
    ensures size { pending.new.size ≡ pending.old.size }
    ensures lists { ListsChanged places.now users.now (undone log.now users.now) (is_pending pending.new) }
{
    let mut i = log.len();
    while i > 0 {
        i -= 1;
        let (u, before) = &log[i];
        mark_if_changed::<S>(pending, places[*u as usize], before, &users[*u as usize]);
    }
}
