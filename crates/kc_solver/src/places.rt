//! The place of each unit in an order.
ghost use Rattle.std.specs.Prelude.{◌≡◌, ◌<◌, length, All, IfOk};
ghost use Rattle.kc_solver.specs.Dependencies.{IsOrder};
ghost use Rattle.kc_solver.specs.checker.PendingPlaces.{ArePlaces, FitsPlaces, MarksPlaces, is_pending};

use crate::place_sets::PlaceSet;
use crate::system::Graph;
use std::alloc::{AllocError, Global};

/// For each unit its place in an order of units, counted from 0; or out of memory.
pub(crate) fn list_places<G: Graph>(
    alloc: Global,
    graph: &G,
    order: &[u32],
) -> Result<Vec<u32>, AllocError>
    requires order { IsOrder (G.size graph.now) (G.dependencies graph.now) order.now }
    ensures ok { IfOk result (λ places. ArePlaces (G.size graph.now) order.now places.items) }
{
    let mut places = vec![in alloc; 0; graph.len() as usize]?;
    let mut place = 0;
    for u in order {
        places[*u as usize] = place;
        place += 1;
    }
    Ok(places)
}

/// Adds the places of some units in the order to the set of pending places.
pub(crate) fn mark(pending: &mut PlaceSet, units: &[u32], places: &[u32])
    requires units { All (λ u. u < length places.now) units.now }
    requires places { FitsPlaces places.now pending.old }
    ensures size { pending.new.size ≡ pending.old.size }
    ensures marks { MarksPlaces (is_pending pending.old) (is_pending pending.new) units.now places.now }
{
    for u in units {
        pending.insert(places[*u as usize]);
    }
}
