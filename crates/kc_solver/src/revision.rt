//! The revision of a valuation, unit by unit.
ghost use Rattle.std.specs.Prelude.{◌≡◌, ◌↔◌, ℕ, ◌+◌, ◌-◌, ◌^◌, ◌<◌, true, false, List, [], ◌∷◌, Some, length, min, slice_get, IfOk, OnOk};
ghost use Rattle.std.specs.Io.KnownBytes.{Appends};
ghost use Rattle.kc_solver.specs.Changes.{IsChanged, IsCountOf, IsListOf, RecordsEach};
ghost use Rattle.kc_solver.specs.checker.Plans.{IsPlan};
ghost use Rattle.kc_solver.specs.checker.Logs.{Undoes};
ghost use Rattle.kc_solver.specs.checker.PendingPlaces.{IsDone, IsDue, is_pending};
ghost use Rattle.kc_solver.specs.checker.Revision.{RevisesUnit};
ghost use Rattle.kc_solver.specs.Solutions.{Solves, FitsUsers, FitsValues, user_of};

use crate::changed_units::{ChangedUnits, ascending_units};
use crate::place_sets::PlaceSet;
use crate::places::mark;
use crate::plans::Plan;
use crate::solution::evaluate;
use crate::system::{Graph, System};
use crate::undo_log::write_logged;
use std::alloc::{AllocError, Global};

/// Whether two values differ.
fn differs<S: System>(value: &S::Value, before: &S::Value) -> bool
    ensures { (result ≡ false) ↔ (value.now ≡ before.now) }
{
    !S::same(value, before)
}

/// Evaluates a unit. If its value differs from the old one, writes it, logs the old one, and adds the places of the units that
/// depend on it to the pending ones.
fn revise_unit<S: System>(
    plan: &Plan<'_, S>,
    u: u32,
    users: &[Option<S::User>],
    values: &mut [S::Value],
    pending: &mut PlaceSet,
    log: &mut Vec<(u32, S::Value)>,
    meter: &mut S::Meter,
) -> Result<(), AllocError>
    requires unit { u < S.size plan.now.system.now }
    requires plan { IsPlan (S.size plan.now.system.now) (S.dependencies plan.now.system.now) plan.now.order.now plan.now.dependents.starts.items plan.now.dependents.units.items plan.now.places.items }
    requires users { FitsUsers (S.size plan.now.system.now) (S.fits_user plan.now.system.now) users.now }
    requires values { FitsValues (S.size plan.now.system.now) (S.fits_value plan.now.system.now) values.old }
    requires size { pending.old.size ≡ S.size plan.now.system.now }
    ensures size { pending.new.size ≡ pending.old.size }
    ensures revises { OnOk result (RevisesUnit (S.size plan.now.system.now) (S.dependencies plan.now.system.now) (S.rule plan.now.system.now) plan.now.places.items users.now u values.old values.new log.old.items log.new.items (is_pending pending.old) (is_pending pending.new)) }
    ensures fits { OnOk result (FitsValues (S.size plan.now.system.now) (S.fits_value plan.now.system.now) values.new) }
    ensures undo { (old : List S.Value) → Undoes log.old.items old values.old → Undoes log.new.items old values.new }
    ensures step { S.count meter.new ≡ min (S.count meter.old + 1) (2 ^ 64 - 1) }
    ensures records { OnOk result (Appends (S.recorded meter.old) (S.recorded meter.new) (u ∷ [])) }
{
    let value = evaluate(plan.alloc, plan.system, u, users, values, meter)?;
    if differs::<S>(&value, &values[u as usize]) {
        mark(pending, plan.dependents.of(u), &plan.places);
        write_logged(values, log, u, value)?;
    }
    Ok(())
}

/// Evaluates the units at the pending places of the order, and every unit with a dependency whose value changes, each once and
/// after its dependencies, and reports what changed. Logs the old values of those that change, so that they can be restored.
pub(crate) fn revise<S: System>(
    plan: &Plan<'_, S>,
    users: &[Option<S::User>],
    values: &mut [S::Value],
    pending: &mut PlaceSet,
    log: &mut Vec<(u32, S::Value)>,
    meter: &mut S::Meter,
) -> Result<ChangedUnits, AllocError>
    requires plan { IsPlan (S.size plan.now.system.now) (S.dependencies plan.now.system.now) plan.now.order.now plan.now.dependents.starts.items plan.now.dependents.units.items plan.now.places.items }
    requires users { FitsUsers (S.size plan.now.system.now) (S.fits_user plan.now.system.now) users.now }
    requires fits { FitsValues (S.size plan.now.system.now) (S.fits_value plan.now.system.now) values.old }
    requires nothing { log.old.items ≡ [] }
    requires places { (k : ℕ) → is_pending pending.old k ≡ true → k < length plan.now.order.now }
    requires holds { (k u : ℕ) → slice_get plan.now.order.now k ≡ Some u → is_pending pending.old k ≡ false → slice_get values.old u ≡ Some (S.rule plan.now.system.now u (user_of users.now u) values.old) }
    requires size { pending.old.size ≡ S.size plan.now.system.now }
    ensures size { pending.new.size ≡ pending.old.size }
    ensures done { OnOk result (IsDone pending.new) }
    ensures solves { OnOk result (Solves (S.size plan.now.system.now) (S.rule plan.now.system.now) users.now values.new) }
    ensures fits { OnOk result (FitsValues (S.size plan.now.system.now) (S.fits_value plan.now.system.now) values.new) }
    ensures undo { Undoes log.new.items values.old values.new }
    ensures changed { IfOk result (λ report. IsListOf (S.size plan.now.system.now) (IsChanged values.old values.new) report.changed.items) }
    ensures evaluated { IfOk result (λ report. IsCountOf (S.size plan.now.system.now) (IsDue (S.dependencies plan.now.system.now) plan.now.order.now (is_pending pending.old) values.old values.new) report.evaluated) }
    ensures steps { IfOk result (λ report. S.count meter.new ≡ min (S.count meter.old + report.evaluated) (2 ^ 64 - 1)) }
    ensures recorded { OnOk result (RecordsEach (S.size plan.now.system.now) (IsDue (S.dependencies plan.now.system.now) plan.now.order.now (is_pending pending.old) values.old values.new) (S.recorded meter.old) (S.recorded meter.new)) }
{
    let order = plan.order;
    let mut evaluated = 0;
    while let Some(place) = pending.pop_first() {
        let u = order[place as usize];
        revise_unit(plan, u, users, values, pending, log, meter)?;
        evaluated += 1;
    }
    let changed = ascending_units(plan.alloc, log.as_slice())?;
    Ok(ChangedUnits { changed, evaluated })
}
