//! The one solution of an assignment.
ghost use Rattle.std.specs.Prelude.{◌≡◌, ◌<◌, ◌+◌, ◌-◌, ◌^◌, List, [], ◌∷◌, min, IfOk, OnOk};
ghost use Rattle.std.specs.Io.KnownBytes.{Appends};
ghost use Rattle.kc_solver.specs.Dependencies.{IsOrder};
ghost use Rattle.kc_solver.specs.Solutions.{Solves, FitsUsers, FitsValues, user_of};

use crate::orders::Order;
use crate::system::{Graph, System};
use std::alloc::{AllocError, Global};

/// Evaluates a unit by its rule, which is one step of the meter. An `Err` means out of memory. No other function calls `eval`.
pub(crate) fn evaluate<S: System>(
    alloc: Global,
    system: &S,
    u: u32,
    users: &[Option<S::User>],
    values: &[S::Value],
    meter: &mut S::Meter,
) -> Result<S::Value, AllocError>
    requires unit { u < S.size system.now }
    requires users { FitsUsers (S.size system.now) (S.fits_user system.now) users.now }
    requires values { FitsValues (S.size system.now) (S.fits_value system.now) values.now }
    ensures value { IfOk result (λ value. value ≡ S.rule system.now u (user_of users.now u) values.now) }
    ensures fits { IfOk result (S.fits_value system.now u) }
    ensures step { S.count meter.new ≡ min (S.count meter.old + 1) (2 ^ 64 - 1) }
    ensures records { OnOk result (Appends (S.recorded meter.old) (S.recorded meter.new) (u ∷ [])) }
{
    let user = users[u as usize].as_ref();
    system.eval(alloc, u, user, values, meter)
}

/// A fitting value for each unit, in place of the one that isn't found yet.
fn blanks<S: System>(alloc: Global, system: &S) -> Result<Vec<S::Value>, AllocError>
    ensures { IfOk result (λ values. FitsValues (S.size system.now) (S.fits_value system.now) values.items) }
{
    let mut values = Vec::new(alloc);
    for u in 0..system.len() {
        let value = system.blank(alloc, u)?;
        values.push(value)?;
    }
    Ok(values)
}

/// The one solution of an assignment of user values, found unit by unit in an order of dependency, or out of memory. The count of
/// the meter rises by the number of units; after running out of memory, by an unstated number. The caller owes an order of the
/// system, and a fitting user value or none for each unit.
pub fn solve<S: System>(
    alloc: Global,
    system: &S,
    order: &Order,
    users: &[Option<S::User>],
    meter: &mut S::Meter,
) -> Result<Vec<S::Value>, AllocError>
    requires order { IsOrder (S.size system.now) (S.dependencies system.now) order.now }
    requires users { FitsUsers (S.size system.now) (S.fits_user system.now) users.now }
    ensures solves { IfOk result (λ values. Solves (S.size system.now) (S.rule system.now) users.now values.items) }
    ensures fits { IfOk result (λ values. FitsValues (S.size system.now) (S.fits_value system.now) values.items) }
    ensures steps { OnOk result (S.count meter.new ≡ min (S.count meter.old + S.size system.now) (2 ^ 64 - 1)) }
    ensures unique { (v w : List S.Value) → Solves (S.size system.now) (S.rule system.now) users.now v → Solves (S.size system.now) (S.rule system.now) users.now w → v ≡ w }
{
    let mut values = blanks(alloc, system)?;
    for u in order.units() {
        let value = evaluate(alloc, system, *u, users, values.as_slice(), meter)?;
        values[*u as usize] = value;
    }
    Ok(values)
}
