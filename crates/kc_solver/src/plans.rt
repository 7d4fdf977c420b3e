//! Plans of sessions.
ghost use Rattle.std.specs.Prelude.{◌≡◌, IfOk};
ghost use Rattle.kc_solver.specs.Dependencies.{IsOrder};
ghost use Rattle.kc_solver.specs.checker.Plans.{IsPlan};

use crate::places::list_places;
use crate::rows::{Rows, list_dependents};
use crate::system::Graph;
use std::alloc::{AllocError, Global};

/// The fixed part of a session: a system, an order of its units, the units that depend on each unit, and each unit's place in the
/// order.
#[derive(Drop)]
pub(crate) struct Plan<'a, S> {
    pub(crate) alloc: Global,
    pub(crate) system: &'a S,
    pub(crate) order: &'a [u32],
    pub(crate) dependents: Rows,
    pub(crate) places: Vec<u32>,
}

/// The fixed part of a session, for a graph and an order of its units; or out of memory.
pub(crate) fn make_plan<'a, G: Graph>(
    alloc: Global,
    system: &'a G,
    order: &'a [u32],
) -> Result<Plan<'a, G>, AllocError>
    requires order { IsOrder (G.size system.now) (G.dependencies system.now) order.now }
    ensures system { IfOk result (λ plan. plan.system.now ≡ system.now) }
    ensures plan { IfOk result (λ plan. IsPlan (G.size plan.system.now) (G.dependencies plan.system.now) plan.order.now plan.dependents.starts.items plan.dependents.units.items plan.places.items) }
{
    let dependents = list_dependents(alloc, system)?;
    let places = list_places(alloc, system, order)?;
    Ok(Plan {
        alloc,
        system,
        order,
        dependents,
        places,
    })
}
