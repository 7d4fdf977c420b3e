//! Reports of changes.
ghost use Rattle.std.specs.Prelude.{◌≡◌, ◌↔◌, ℕ, Some, slice_get, Contains, IfOk};
ghost use Rattle.std.specs.List.Sorted.{IsStrictlyIncreasing};
ghost use Rattle.kc_solver.specs.checker.Logs.{logged_units};
ghost use Rattle.kc_solver.specs.checker.Elimination.{IsEliminated};

use std::alloc::{AllocError, Global};

/// The effect of a change of user values.
#[derive(Debug, Drop)]
pub struct ChangedUnits {
    /// The units whose values after the change differ from those before, ascending.
    pub changed: Vec<u32>,

    /// How many evaluations of units the change took: one for each unit that it touches.
    pub evaluated: u64,
}

/// The units of a log of overwritten values, ascending; or out of memory.
pub(crate) fn ascending_units<V>(alloc: Global, log: &[(u32, V)]) -> Result<Vec<u32>, AllocError>
    requires once { (j k u : ℕ) → slice_get (logged_units log.now) j ≡ Some u → slice_get (logged_units log.now) k ≡ Some u → j ≡ k }
    ensures ascending { IfOk result (λ units. IsStrictlyIncreasing units.items) }
    ensures same { IfOk result (λ units. (u : ℕ) → Contains units.items u ↔ IsEliminated (logged_units log.now) u) }
{
    let mut units = Vec::with_capacity(alloc, log.len())?;
    for (u, _value) in log {
        units.push(*u)?;
    }
    units.sort_unstable();
    Ok(units)
}
