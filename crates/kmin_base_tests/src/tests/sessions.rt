//! Sessions of a system, and what their changes report.
ghost use Rattle.std.specs.Prelude.{◌≡◌, length, IfOk};
ghost use Rattle.kc_solver.specs.Dependencies.{IsOrder};
ghost use Rattle.kmin_base_tests.specs.Sums.{row_at};

use super::sums::{Sums, Tally, fit_changes};
use super::systems::{order_of, sums_of};
use kc_solver::{ChangedUnits, Order, Session};
use kmin_fakes::twice;
use std::alloc::{AllocError, Global};
use std::process::Abort;
use std::test::Fail;

/// A session without user values, made at the second try where the first is refused.
fn session_of<'a>(
    alloc: Global,
    system: &'a Sums,
    order: &'a Order,
) -> Result<Session<'a, Sums>, AllocError>
    requires order { IsOrder (length system.now.rows.items) (row_at system.now.rows.items) order.now }
    ensures system { IfOk result (λ s. s.system ≡ system.now) }
{
    match Session::new(alloc, system, order, &mut Tally::new(alloc)) {
        Ok(session) => Ok(session),
        Err(_) => Session::new(alloc, system, order, &mut Tally::new(alloc)),
    }
}

/// A copy of a session, made at the second try where the first is refused.
fn copied<'a>(session: &Session<'a, Sums>) -> Result<Session<'a, Sums>, AllocError>
    ensures { IfOk result (λ copy. copy ≡ session.now) }
{
    match session.copy() {
        Ok(copy) => Ok(copy),
        Err(_) => session.copy(),
    }
}

/// Makes changes, at the second try where the first is refused.
fn change(
    rt: &impl Abort,
    alloc: Global,
    system: &Sums,
    session: &mut Session<'_, Sums>,
    changes: &[(u32, Option<u32>)],
) -> Result<ChangedUnits, AllocError>
    requires system { session.old.system ≡ system.now }
    ensures system { session.new.system ≡ system.now }
{
    assert!(rt; fit_changes(system, changes));
    Ok(twice!(session.apply(changes, &mut Tally::new(alloc))))
}

/// Whether a new user value of unit 1 changes these units, and evaluates this number of units.
fn changes_these(
    rt: &impl Abort,
    alloc: Global,
    system: &Sums,
    session: &mut Session<'_, Sums>,
    value: u32,
    changed: &[u32],
    evaluated: u64,
) -> Result<bool, AllocError>
    requires system { session.old.system ≡ system.now }
    ensures system { session.new.system ≡ system.now }
{
    let report = change(rt, alloc, system, session, &[(1, Some(value))])?;
    Ok(report.changed.as_slice() == changed && report.evaluated == evaluated)
}

#[test]
fn a_copy_changes_apart_from_its_session(rt: HostRuntime) -> Result<(), Fail> {
    let system = sums_of(rt.alloc(), &[&[], &[0], &[0, 1]])?;
    let order = order_of(rt.alloc(), &system)?;
    let mut session = session_of(rt.alloc(), &system, &order)?;
    assert!(rt; changes_these(&rt, rt.alloc(), &system, &mut session, 2, &[], 1)?);
    assert!(rt; changes_these(&rt, rt.alloc(), &system, &mut session, 7, &[1, 2], 2)?);
    let mut copy = copied(&session)?;
    assert!(rt; changes_these(&rt, rt.alloc(), &system, &mut copy, 2, &[1, 2], 2)?);
    assert_eq!(rt; session.values(), [1, 7, 9].as_slice());
    assert_eq!(rt; session.users(), [None, Some(7), None].as_slice());
    Ok(())
}

/// The report of some changes of a new session, and the report when they are made again.
fn reports_of(
    rt: &impl Abort,
    alloc: Global,
    system: &Sums,
    changes: &[(u32, Option<u32>)],
) -> Result<(ChangedUnits, ChangedUnits), Fail> {
    let order = order_of(alloc, system)?;
    let mut session = session_of(alloc, system, &order)?;
    let first = change(rt, alloc, system, &mut session, changes)?;
    let again = change(rt, alloc, system, &mut session, changes)?;
    Ok((first, again))
}

#[test]
fn a_change_evaluates_what_it_touches(rt: HostRuntime) -> Result<(), Fail> {
    let system = sums_of(rt.alloc(), &[&[], &[0], &[0], &[1, 2]])?;
    for (changes, changed, evaluated) in [
        ([(0, None), (0, Some(5))], [0, 1, 2, 3].as_slice(), 4),
        ([(0, Some(5)), (0, Some(1))], [].as_slice(), 1),
        ([(0, Some(5)), (0, None)], [].as_slice(), 0),
        ([(3, Some(4)), (1, Some(9))], [1, 3].as_slice(), 2),
    ] {
        let (first, again) = reports_of(&rt, rt.alloc(), &system, &changes)?;
        assert_eq!(rt; first.changed.as_slice(), changed, "{changes:?}");
        assert_eq!(rt; first.evaluated, evaluated, "{changes:?}");
        assert_eq!(rt;
            (again.changed.len(), again.evaluated),
            (0, 0),
            "{changes:?}"
        );
    }
    Ok(())
}

/// The units that changes evaluate, in the order in which they do.
fn evaluated_units(
    rt: &impl Abort,
    alloc: Global,
    system: &Sums,
    session: &mut Session<'_, Sums>,
    changes: &[(u32, Option<u32>)],
) -> Result<Vec<u32>, AllocError>
    requires system { session.old.system ≡ system.now }
    ensures system { session.new.system ≡ system.now }
{
    assert!(rt; fit_changes(system, changes));
    let mut tally = Tally::new(alloc);
    let _ = session.apply(changes, &mut tally)?;
    let Tally { evaluated, .. } = tally;
    Ok(evaluated)
}

#[test]
fn a_meter_records_what_a_change_evaluates(rt: HostRuntime) -> Result<(), Fail> {
    let system = sums_of(rt.alloc(), &[&[], &[0], &[0], &[1, 2]])?;
    let order = order_of(rt.alloc(), &system)?;
    let mut session = session_of(rt.alloc(), &system, &order)?;
    let changes = [(3, Some(4)), (1, Some(9))];
    let units = twice!(evaluated_units(&rt, rt.alloc(), &system, &mut session, &changes));
    assert_eq!(rt; units.as_slice(), [1, 3].as_slice());
    Ok(())
}

/// A number of units, and of links between them, that takes more than 16 bits.
const MANY: u32 = 65_600;

/// The rows of many units that depend on none, and of one that depends on them all.
fn many_rows(alloc: Global) -> Result<Vec<Vec<u32>>, AllocError> {
    let mut rows = Vec::with_capacity(alloc, MANY as usize + 1)?;
    let mut last = Vec::with_capacity(alloc, MANY as usize)?;
    for u in 0..MANY {
        rows.push(Vec::new(alloc))?;
        last.push(u)?;
    }
    rows.push(last)?;
    Ok(rows)
}

/// A number for each unit but the last: 7 for the one before it, and 0 for the others.
fn many_changes(alloc: Global) -> Result<Vec<(u32, Option<u32>)>, AllocError> {
    let mut changes = Vec::with_capacity(alloc, MANY as usize)?;
    for u in 0..MANY {
        let number = if u + 1 == MANY { 7 } else { 0 };
        changes.push((u, Some(number)))?;
    }
    Ok(changes)
}

#[test]
fn more_than_65536_units_and_links_fit_in_memory(rt: HostRuntime) -> Result<(), Fail> {
    let system = Sums::of(twice!(many_rows(rt.alloc()))).ok_or("no graph")?;
    let order = order_of(rt.alloc(), &system)?;
    let mut session = session_of(rt.alloc(), &system, &order)?;
    assert_eq!(rt; session.values().last().copied(), Some(1_000));
    let changes = twice!(many_changes(rt.alloc()));
    let report = change(&rt, rt.alloc(), &system, &mut session, &changes)?;
    assert_eq!(rt; report.changed.last().copied(), Some(MANY));
    assert_eq!(rt; report.evaluated, MANY as u64 + 1);
    assert_eq!(rt; session.values().last().copied(), Some(8));
    let copy = copied(&session)?;
    assert_eq!(rt; copy.values().last().copied(), Some(8));
    Ok(())
}
