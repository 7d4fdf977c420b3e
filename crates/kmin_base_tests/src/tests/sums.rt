//! A small system that keeps both laws, beside that of the rules of a tree.
ghost use Rattle.std.specs.Prelude.{◌≡◌, ◌^◌, ◌<◌, Option, Some, [], length, nat_eq, IsTrue};
ghost use Rattle.kc_solver.specs.Changes.{FitsChanges};
ghost use Rattle.kc_solver.specs.Dependencies.{IsGraph};
ghost use Rattle.kc_solver.specs.Solutions.{FitsUsers};
ghost use Rattle.kmin_base_tests.specs.Sums.{row_at, sum_rule, IsSmall, IsRow};
ghost use Rattle.kmin_base_tests.specs.checker.SumLaws.{sums_keep_the_frame, sums_restore};
ghost use Rattle.std.proofs.Common.{rules};

use kc_solver::{Graph, System};
use std::alloc::{AllocError, Global};

/// The largest value of a unit.
const LARGEST: u32 = 1_000;

/// A system for tests: the value of a unit is its user's number, or without one the smaller of 1,000 and 1 plus the sum of the
/// values of its dependencies.
#[derive(Drop)]
pub(crate) struct Sums {
    rows: Vec<Vec<u32>>,
    ghost graph: { IsGraph (length rows.items) (row_at rows.items) },
    ghost few: { length rows.items < 2 ^ 32 },
}

/// A meter that counts the evaluations of units, and records which are evaluated.
#[derive(Drop)]
pub(crate) struct Tally {
    pub(crate) count: u64,
    pub(crate) evaluated: Vec<u32>,
    ghost counts: { count < 2 ^ 64 },
}

impl Graph for Sums {
    ghost size = { λ s. length s.rows.items };

    ghost dependencies = { λ s u. row_at s.rows.items u };

    ghost graph = { λ s. s.graph };

    fn len(&self) -> u32 {
        self.rows.len() as u32
    }

    fn deps(&self, u: u32) -> &[u32] {
        self.rows[u as usize].as_slice()
    }
}

impl System for Sums {
    type Value = u32;

    type User = u32;

    type Meter = Tally;

    ghost rule = { λ s u x values. sum_rule s.rows.items u x values };

    ghost fits_value = { λ s u x. IsSmall u x };

    ghost fits_user = { λ s u x. IsSmall u x };

    ghost as_user = { λ s x. Some x };

    ghost same_value = { nat_eq };

    ghost same_user_value = { nat_eq };

    ghost count = { λ m. m.count };

    ghost recorded = { λ m. Some m.evaluated.items };

    ghost equal_values = { λ a b. Prim.search rules };

    ghost equal_users = { λ a b. Prim.search rules };

    ghost counts = { λ m. let within = m.counts in Prim.search rules };

    ghost frame = { λ s. sums_keep_the_frame s.rows.items };

    ghost restore = { λ s. sums_restore s.rows.items };

    fn eval(
        &self,
        _alloc: Global,
        u: u32,
        user: Option<&u32>,
        values: &[u32],
        meter: &mut Tally,
    ) -> Result<u32, AllocError> {
        meter.count = meter.count.saturating_add(1);
        meter.evaluated.push(u)?;
        if let Some(number) = user {
            return Ok(*number);
        }
        let mut sum = 1;
        for d in self.deps(u) {
            sum = LARGEST.min(sum + values[*d as usize]);
        }
        Ok(sum)
    }

    fn blank(&self, _alloc: Global, _u: u32) -> Result<u32, AllocError> {
        Ok(0)
    }

    fn copy_value(_alloc: Global, value: &u32) -> Result<u32, AllocError> {
        Ok(*value)
    }

    fn copy_user(_alloc: Global, user: &u32) -> Result<u32, AllocError> {
        Ok(*user)
    }

    fn same(a: &u32, b: &u32) -> bool {
        *a == *b
    }

    fn same_user(a: &u32, b: &u32) -> bool {
        *a == *b
    }
}

impl Tally {
    /// A meter with the count 0, which has recorded no unit.
    pub(crate) fn new(alloc: Global) -> Tally
        ensures count { result.count ≡ 0 }
        ensures none { result.evaluated.items ≡ [] }
    {
        Tally {
            count: 0,
            evaluated: Vec::new(alloc),
        }
    }
}

impl Sums {
    /// The test system with these rows, each the units that a unit depends on. `None` if a row doesn't ascend, or has a number
    /// that is no unit.
    pub(crate) fn of(rows: Vec<Vec<u32>>) -> Option<Sums> {
        if is_graph(rows.as_slice()) {
            Some(Sums { rows })
        } else {
            None
        }
    }
}

/// Whether a row ascends and has units below this size alone.
fn is_row(row: &[u32], size: usize) -> bool
    ensures { IsTrue result → IsRow size row.now }
{
    let mut least = 0;
    for d in row {
        if (*d as usize) < least || *d as usize >= size {
            return false;
        }
        least = *d as usize + 1;
    }
    true
}

/// Whether each row ascends and has units alone.
fn is_graph(rows: &[Vec<u32>]) -> bool
    ensures graph { IsTrue result → IsGraph (length rows.now) (row_at rows.now) }
    ensures few { IsTrue result → length rows.now < 2 ^ 32 }
{
    if rows.len() > u32::MAX as usize {
        return false;
    }
    for row in rows {
        if !is_row(row.as_slice(), rows.len()) {
            return false;
        }
    }
    true
}

/// Whether each change is of a unit of the system, to a number up to 1,000 or to none.
pub(crate) fn fit_changes(system: &Sums, changes: &[(u32, Option<u32>)]) -> bool
    ensures { IsTrue result → FitsChanges (length system.now.rows.items) IsSmall changes.now }
{
    for (u, user) in changes {
        if *u >= system.len() || user.unwrap_or(0) > LARGEST {
            return false;
        }
    }
    true
}

/// Whether `users` has an entry for each unit of the system: a user's number up to 1,000, or `None`.
pub(crate) fn fit_users(system: &Sums, users: &[Option<u32>]) -> bool
    ensures { IsTrue result → FitsUsers (length system.now.rows.items) IsSmall users.now }
{
    for user in users {
        if user.unwrap_or(0) > LARGEST {
            return false;
        }
    }
    users.len() == system.len() as usize
}
