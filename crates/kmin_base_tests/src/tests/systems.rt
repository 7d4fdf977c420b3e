//! Orders and solutions of systems, and the texts of their faults.
ghost use Rattle.std.specs.Prelude.{length, IfOk};
ghost use Rattle.kc_solver.specs.Dependencies.{IsOrder};
ghost use Rattle.kc_solver.specs.Solutions.{FitsUsers};
ghost use Rattle.kmin_base_tests.specs.Sums.{IsSmall, row_at};

use super::sums::{Sums, Tally, fit_users};
use kc_solver::{Order, OrderFault, kept_units, order, solve};
use kmin_fakes::{is_printed, twice};
use std::alloc::{AllocError, Global};
use std::test::Fail;

/// The test system with these rows, each the units that a unit depends on.
pub(crate) fn sums_of(alloc: Global, rows: &[&[u32]]) -> Result<Sums, Fail> {
    Ok(Sums::of(twice!(copied_rows(alloc, rows))).ok_or(
        "dependencies don't ascend, or aren't units",
    )?)
}

/// Copies rows, each into a list of its own.
fn copied_rows(alloc: Global, rows: &[&[u32]]) -> Result<Vec<Vec<u32>>, AllocError> {
    let mut copied = Vec::with_capacity(alloc, rows.len())?;
    for row in rows {
        copied.push(Vec::from_slice(alloc, row)?)?;
    }
    Ok(copied)
}

/// An order of the units of a test system, computed at a second try if the first fails.
pub(crate) fn order_of(alloc: Global, system: &Sums) -> Result<Order, Fail>
    ensures { IfOk result (λ order. IsOrder (length system.now.rows.items) (row_at system.now.rows.items) order) }
{
    match order(alloc, system) {
        Ok(order) => Ok(order),
        Err(_) => Ok(order(alloc, system)?),
    }
}

/// The cycle that is reported of a system, or none.
fn cycle_of(alloc: Global, system: &Sums) -> Result<Option<Vec<u32>>, AllocError> {
    match order(alloc, system) {
        Ok(_) => Ok(None),
        Err(OrderFault::Cycle(units)) => Ok(Some(units)),
        Err(OrderFault::OutOfMemory) => Err(AllocError),
    }
}

#[test]
fn a_cycle_is_followed_from_the_least_unit_left(rt: HostRuntime) -> Result<(), Fail> {
    let system = sums_of(rt.alloc(), &[&[2], &[], &[3], &[2]])?;
    let cycle = twice!(cycle_of(rt.alloc(), &system)).ok_or("no cycle")?;
    assert_eq!(rt; cycle.as_slice(), [2, 3].as_slice());
    Ok(())
}

/// The solution of an assignment.
fn solved(
    alloc: Global,
    system: &Sums,
    order: &Order,
    users: &[Option<u32>],
) -> Result<Vec<u32>, AllocError>
    requires order { IsOrder (length system.now.rows.items) (row_at system.now.rows.items) order.now }
    requires users { FitsUsers (length system.now.rows.items) IsSmall users.now }
{
    solve(alloc, system, order, users, &mut Tally::new(alloc))
}

#[test]
fn each_unit_is_one_more_than_the_sum_of_its_dependencies(rt: HostRuntime) -> Result<(), Fail> {
    let system = sums_of(rt.alloc(), &[&[], &[0], &[0, 1]])?;
    let order = order_of(rt.alloc(), &system)?;
    assert_eq!(rt; order.units(), [0, 1, 2].as_slice());
    for (users, values) in [
        ([None, None, None], [1, 2, 4]),
        ([None, Some(7), None], [1, 7, 9]),
        ([None, Some(999), None], [1, 999, 1_000]),
    ] {
        assert!(rt; fit_users(&system, &users));
        let solved = twice!(solved(rt.alloc(), &system, &order, &users));
        assert_eq!(rt; solved.as_slice(), values.as_slice());
    }
    kept_units(&system, &order);
    Ok(())
}

#[test]
fn faults_are_printed_by_their_names(rt: HostRuntime) -> Result<(), Fail> {
    let cycle = OrderFault::Cycle(Vec::new(rt.alloc()));
    for (fault, name) in [(&cycle, "Cycle"), (&OrderFault::OutOfMemory, "OutOfMemory")] {
        assert!(rt; twice!(is_printed(rt.alloc(), fault, name)));
    }
    Ok(())
}
