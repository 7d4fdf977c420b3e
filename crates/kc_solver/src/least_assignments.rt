//! The laws of kept units and least assignments.
ghost use Rattle.kc_solver.specs.Dependencies.{IsOrder};
ghost use Rattle.kc_solver.specs.LeastAssignments.{LeastIsLeast, CutSolvesIfKept};

use crate::orders::Order;
use crate::system::{Graph, System};

/// The laws of kept units and least assignments, for every system that has an order of dependency. The function does nothing: its
/// contract is the laws.
///
/// A unit is kept by a solution if its value isn't the one that its rule gives without a user value. The least assignment of a
/// solution, which has the values of the kept units as their user values and no others, gives the solution back, and none of its
/// user values can be left out. Any assignment with that solution, cut down to a set of units, still gives it exactly if the set
/// has all kept units.
pub fn kept_units<S: System>(system: &S, order: &Order)
    requires order { IsOrder (S.size system.now) (S.dependencies system.now) order.now }
    ensures least { LeastIsLeast (S.size system.now) (S.rule system.now) (S.as_user system.now) (S.fits_user system.now) }
    ensures cut { CutSolvesIfKept (S.size system.now) (S.rule system.now) (S.fits_user system.now) }
{}
