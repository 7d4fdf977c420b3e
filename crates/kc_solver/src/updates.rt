//! Changes of an assignment, with its values brought up to date.
ghost use Rattle.std.specs.Prelude.{◌≡◌, ℕ, ◌+◌, ◌-◌, ◌^◌, ◌<◌, [], Some, length, min, slice_get, IfOk, OnOk, OnErr};
ghost use Rattle.kc_solver.specs.Changes.{changed_users, FitsChanges, IsTouched, IsChanged, IsCountOf, IsListOf, RecordsEach};
ghost use Rattle.kc_solver.specs.checker.Plans.{IsPlan};
ghost use Rattle.kc_solver.specs.checker.Logs.{Undoes};
ghost use Rattle.kc_solver.specs.checker.PendingPlaces.{FitsPlaces, IsDone, ListsChanged, is_pending};
ghost use Rattle.kc_solver.specs.Solutions.{Solves, FitsUsers, FitsValues};

use crate::changed_units::ChangedUnits;
use crate::place_sets::PlaceSet;
use crate::plans::Plan;
use crate::revision::revise;
use crate::system::{Graph, System};
use crate::undo_log::restore_logged;
use crate::user_values::{mark_changed, write_users};
use std::alloc::{AllocError, Global};

/// Writes some changes of user values, and makes the places of the units pending whose user values differ in the end.
fn write_changes<S: System>(
    plan: &Plan<'_, S>,
    changes: &[(u32, Option<S::User>)],
    users: &mut [Option<S::User>],
    pending: &mut PlaceSet,
    log: &mut Vec<(u32, Option<S::User>)>,
) -> Result<(), AllocError>
    requires units { (k u : ℕ) (x : _) → slice_get changes.now k ≡ Some (u, x) → u < length users.old }
    requires nothing { log.old.items ≡ [] }
    requires places { length plan.now.places.items ≡ length users.old }
    requires once { (u w p : ℕ) → slice_get plan.now.places.items u ≡ Some p → slice_get plan.now.places.items w ≡ Some p → u ≡ w }
    requires none { IsDone pending.old }
    requires within { FitsPlaces plan.now.places.items pending.old }
    ensures users { OnOk result (users.new ≡ changed_users changes.now users.old) }
    ensures undo { Undoes log.new.items users.old users.new }
    ensures size { pending.new.size ≡ pending.old.size }
    ensures lists { OnOk result (ListsChanged plan.now.places.items users.new users.old (is_pending pending.new)) }
    ensures err { OnErr result (IsDone pending.new) }
{
    write_users::<S>(plan.alloc, changes, users, log)?;
    mark_changed::<S>(pending, log, users, &plan.places);
    Ok(())
}

/// Makes some changes of user values, brings the values of all units up to date, and reports what changed. If memory runs out,
/// the user values and the values of units are as before.
pub(crate) fn change<S: System>(
    plan: &Plan<'_, S>,
    changes: &[(u32, Option<S::User>)],
    users: &mut [Option<S::User>],
    values: &mut [S::Value],
    pending: &mut PlaceSet,
    meter: &mut S::Meter,
) -> Result<ChangedUnits, AllocError>
    requires plan { IsPlan (S.size plan.now.system.now) (S.dependencies plan.now.system.now) plan.now.order.now plan.now.dependents.starts.items plan.now.dependents.units.items plan.now.places.items }
    requires changes { FitsChanges (S.size plan.now.system.now) (S.fits_user plan.now.system.now) changes.now }
    requires users { FitsUsers (S.size plan.now.system.now) (S.fits_user plan.now.system.now) users.old }
    requires fits { FitsValues (S.size plan.now.system.now) (S.fits_value plan.now.system.now) values.old }
    requires solves { Solves (S.size plan.now.system.now) (S.rule plan.now.system.now) users.old values.old }
    requires none { IsDone pending.old }
    requires size { pending.old.size ≡ S.size plan.now.system.now }
    ensures none { IsDone pending.new }
    ensures size { pending.new.size ≡ pending.old.size }
    ensures users { OnOk result (users.new ≡ changed_users changes.now users.old) }
    ensures fits_users { FitsUsers (S.size plan.now.system.now) (S.fits_user plan.now.system.now) users.new }
    ensures fits_values { FitsValues (S.size plan.now.system.now) (S.fits_value plan.now.system.now) values.new }
    ensures solves { Solves (S.size plan.now.system.now) (S.rule plan.now.system.now) users.new values.new }
    ensures changed { IfOk result (λ report. IsListOf (S.size plan.now.system.now) (IsChanged values.old values.new) report.changed.items) }
    ensures evaluated { IfOk result (λ report. IsCountOf (S.size plan.now.system.now) (IsTouched (S.dependencies plan.now.system.now) users.old users.new values.old values.new) report.evaluated) }
    ensures steps { IfOk result (λ report. S.count meter.new ≡ min (S.count meter.old + report.evaluated) (2 ^ 64 - 1)) }
    ensures recorded { OnOk result (RecordsEach (S.size plan.now.system.now) (IsTouched (S.dependencies plan.now.system.now) users.old users.new values.old values.new) (S.recorded meter.old) (S.recorded meter.new)) }
    ensures err_users { OnErr result (users.new ≡ users.old) }
    ensures err_values { OnErr result (values.new ≡ values.old) }
{
    let mut users_log = Vec::new(plan.alloc);
    let mut values_log = Vec::new(plan.alloc);
    match write_changes(plan, changes, users, pending, &mut users_log) {
        Ok(()) => {}
        Err(fault) => {
            restore_logged(users, &mut users_log);
            return Err(fault);
        }
    }
    match revise(plan, users, values, pending, &mut values_log, meter) {
        Ok(report) => Ok(report),
        Err(fault) => {
            pending.clear();
            restore_logged(values, &mut values_log);
            restore_logged(users, &mut users_log);
            Err(fault)
        }
    }
}
