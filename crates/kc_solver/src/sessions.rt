//! Sessions: an assignment with its values, changed step by step.
ghost use Rattle.std.specs.Prelude.{◌≡◌, ◌+◌, None, min, IfOk, OnOk, OnErr, replicate};
ghost use Rattle.kc_solver.specs.Changes.{changed_users, FitsChanges, IsTouched, IsChanged, IsCountOf, IsListOf, RecordsEach};
ghost use Rattle.kc_solver.specs.Dependencies.{IsOrder};
ghost use Rattle.kc_solver.specs.Solutions.{UniquelySolves, FitsUsers, FitsValues};

use crate::changed_units::ChangedUnits;
use crate::copies::{copy_users, copy_values};
use crate::orders::Order;
use crate::place_sets::PlaceSet;
use crate::plans::{Plan, make_plan};
use crate::solution::solve;
use crate::system::{Graph, System};
use crate::updates::change;
use std::alloc::{AllocError, Global};
use std::marker::Model;

/// An assignment of user values and the values of all units that follow from it, kept up to date: a change takes as many
/// evaluations of units as it touches units.
#[derive(Drop)]
pub struct Session<'a, S: System> {
    plan: Plan<'a, S>,
    users: Vec<Option<S::User>>,
    values: Vec<S::Value>,
    pending: PlaceSet,
}

impl<'a, S: System> Model for Session<'a, S> {
    ghost use Rattle.std.specs.Prelude.{◌≡◌};
    ghost use Rattle.kc_solver.specs.SessionState.{SessionState};
    ghost use Rattle.kc_solver.specs.checker.PendingPlaces.{IsDone};
    ghost use Rattle.kc_solver.specs.Solutions.{UniquelySolves, FitsUsers, FitsValues};
    ghost use Rattle.kc_solver.specs.checker.Plans.{IsPlan};

    ghost Value = { SessionState S S.Value S.User };

    ghost view = { λ s. record { system = s.plan.system.now; users = s.users.items; values = s.values.items } };

    ghost invariant = { λ s. record {
      plan : IsPlan (S.size s.plan.system.now) (S.dependencies s.plan.system.now) s.plan.order.now s.plan.dependents.starts.items s.plan.dependents.units.items s.plan.places.items;
      users : FitsUsers (S.size s.plan.system.now) (S.fits_user s.plan.system.now) s.users.items;
      values : FitsValues (S.size s.plan.system.now) (S.fits_value s.plan.system.now) s.values.items;
      size : s.pending.size ≡ S.size s.plan.system.now;
      none : IsDone s.pending;
      gives : UniquelySolves (S.size s.plan.system.now) (S.rule s.plan.system.now) s.users.items s.values.items;
    } };
}

impl<'a, S: System> Session<'a, S> {
    /// A session that begins without any user value, or out of memory. The count of the meter rises by the number of units; after
    /// running out of memory, by an unstated number. The caller owes an order of the system.
    pub fn new(
        alloc: Global,
        system: &'a S,
        order: &'a Order,
        meter: &mut S::Meter,
    ) -> Result<Session<'a, S>, AllocError>
        requires order { IsOrder (S.size system.now) (S.dependencies system.now) order.now }
        ensures system { IfOk result (λ s. s.system ≡ system.now) }
        ensures users { IfOk result (λ s. s.users ≡ replicate (S.size system.now) None) }
        ensures gives { IfOk result (λ s. UniquelySolves (S.size system.now) (S.rule system.now) s.users s.values) }
        ensures steps { OnOk result (S.count meter.new ≡ min (S.count meter.old + S.size system.now) u64.MAX) }
    {
        let mut users = Vec::with_capacity(alloc, system.len() as usize)?;
        for _u in 0..system.len() {
            users.push(None)?;
        }
        Session::holding(alloc, system, order, users, meter)
    }

    /// A session that begins with these user values, or out of memory. The count of the meter rises by the number of units; after
    /// running out of memory, by an unstated number. The caller owes an order of the system, and for each unit a fitting user
    /// value or none.
    pub fn holding(
        alloc: Global,
        system: &'a S,
        order: &'a Order,
        users: Vec<Option<S::User>>,
        meter: &mut S::Meter,
    ) -> Result<Session<'a, S>, AllocError>
        requires order { IsOrder (S.size system.now) (S.dependencies system.now) order.now }
        requires users { FitsUsers (S.size system.now) (S.fits_user system.now) users.items }
        ensures system { IfOk result (λ s. s.system ≡ system.now) }
        ensures users { IfOk result (λ s. s.users ≡ users.items) }
        ensures gives { IfOk result (λ s. UniquelySolves (S.size system.now) (S.rule system.now) s.users s.values) }
        ensures steps { OnOk result (S.count meter.new ≡ min (S.count meter.old + S.size system.now) u64.MAX) }
    {
        let values = solve(alloc, system, order, users.as_slice(), meter)?;
        Session::with_values(alloc, system, order.units(), users, values)
    }

    /// A session that has an assignment of user values and the values that it gives, or out of memory.
    fn with_values(
        alloc: Global,
        system: &'a S,
        order: &'a [u32],
        users: Vec<Option<S::User>>,
        values: Vec<S::Value>,
    ) -> Result<Session<'a, S>, AllocError>
        requires order { IsOrder (S.size system.now) (S.dependencies system.now) order.now }
        requires users { FitsUsers (S.size system.now) (S.fits_user system.now) users.items }
        requires values { FitsValues (S.size system.now) (S.fits_value system.now) values.items }
        requires gives { UniquelySolves (S.size system.now) (S.rule system.now) users.items values.items }
        ensures ok { IfOk result (λ s. s ≡ record { system = system.now; users = users.items; values = values.items }) }
    {
        let plan = make_plan(alloc, system, order)?;
        let pending = PlaceSet::new(alloc, system.len())?;
        Ok(Session {
            plan,
            users,
            values,
            pending,
        })
    }

    /// Makes some changes of user values one after another, so that a later change of a unit wins, and brings the values of all
    /// units up to date.
    ///
    /// The count of the meter rises by the number of touched units: those whose user value differs in the end, and those with a
    /// dependency whose value does. These are the units that are evaluated, each once, as a meter that records them shows. After running out of memory the session is as before, and the count has risen by an unstated
    /// number. The caller owes units of the system and fitting user values.
    pub fn apply(
        &mut self,
        changes: &[(u32, Option<S::User>)],
        meter: &mut S::Meter,
    ) -> Result<ChangedUnits, AllocError>
        requires fits { FitsChanges (S.size self.old.system) (S.fits_user self.old.system) changes.now }
        ensures system { self.new.system ≡ self.old.system }
        ensures users { OnOk result (self.new.users ≡ changed_users changes.now self.old.users) }
        ensures fits { FitsUsers (S.size self.new.system) (S.fits_user self.new.system) self.new.users }
        ensures gives { UniquelySolves (S.size self.new.system) (S.rule self.new.system) self.new.users self.new.values }
        ensures changed { IfOk result (λ report. IsListOf (S.size self.old.system) (IsChanged self.old.values self.new.values) report.changed.items) }
        ensures evaluated { IfOk result (λ report. IsCountOf (S.size self.old.system) (IsTouched (S.dependencies self.old.system) self.old.users self.new.users self.old.values self.new.values) report.evaluated) }
        ensures steps { IfOk result (λ report. S.count meter.new ≡ min (S.count meter.old + report.evaluated) u64.MAX) }
        ensures recorded { OnOk result (RecordsEach (S.size self.old.system) (IsTouched (S.dependencies self.old.system) self.old.users self.new.users self.old.values self.new.values) (S.recorded meter.old) (S.recorded meter.new)) }
        ensures err { OnErr result (self.new ≡ self.old) }
    {
        change(
            &self.plan,
            changes,
            &mut self.users,
            &mut self.values,
            &mut self.pending,
            meter,
        )
    }

    /// A copy of the session, or out of memory. It evaluates no unit.
    pub fn copy(&self) -> Result<Session<'a, S>, AllocError>
        ensures { IfOk result (λ copy. copy ≡ self.now) }
    {
        let alloc = self.plan.alloc;
        let users = copy_users::<S>(alloc, self.users.as_slice())?;
        let values = copy_values::<S>(alloc, self.values.as_slice())?;
        Session::with_values(alloc, self.plan.system, self.plan.order, users, values)
    }

    /// The value of each unit, by the units' numbers: the one solution of the session's assignment.
    pub fn values(&self) -> &[S::Value]
        ensures values { result.now ≡ self.now.values }
        ensures fits { FitsValues (S.size self.now.system) (S.fits_value self.now.system) self.now.values }
        ensures fits_users { FitsUsers (S.size self.now.system) (S.fits_user self.now.system) self.now.users }
        ensures gives { UniquelySolves (S.size self.now.system) (S.rule self.now.system) self.now.users self.now.values }
    {
        self.values.as_slice()
    }

    /// The session's assignment: each unit's user value or none, by the units' numbers.
    pub fn users(&self) -> &[Option<S::User>]
        ensures users { result.now ≡ self.now.users }
        ensures fits { FitsUsers (S.size self.now.system) (S.fits_user self.now.system) self.now.users }
        ensures gives { UniquelySolves (S.size self.now.system) (S.rule self.now.system) self.now.users self.now.values }
    {
        self.users.as_slice()
    }
}
