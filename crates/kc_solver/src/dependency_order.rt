//! An order of dependency, or a cycle of dependencies.
ghost use Rattle.std.specs.Prelude.{◌≡◌, ℕ, ◌<◌, ◌^◌, true, false, length, slice_index_or, IfOk, IfErr, IfSome, IfNone};
ghost use Rattle.kc_solver.specs.Dependencies.{IsOrder, HasNoCycle};
ghost use Rattle.kc_solver.specs.Faults.{ReportsCycle};
ghost use Rattle.kc_solver.specs.checker.Elimination.{IsElimination, FlagsLeft};

use crate::cycle_search::named_cycle;
use crate::elimination::eliminate_all;
use crate::orders::{Order, OrderFault};
use crate::system::Graph;
use std::alloc::Global;

/// The first unit whose flag is unset.
fn first_unset(flags: &[bool]) -> Option<usize>
    ensures some { IfSome result (λ u. (u < length flags.now) × (slice_index_or flags.now u false ≡ false) × ((w : ℕ) → w < u → slice_index_or flags.now w false ≡ true)) }
    ensures none { IfNone result ((u : ℕ) → u < length flags.now → slice_index_or flags.now u false ≡ true) }
{
    for u in 0..flags.len() {
        if !flags[u] {
            return Some(u);
        }
    }
    None
}

/// An order if all units are eliminated, and otherwise a cycle among those that are left.
fn order_or_cycle<G: Graph>(
    alloc: Global,
    graph: &G,
    eliminated: Vec<u32>,
    flags: &[bool],
) -> Result<Order, OrderFault>
    requires eliminating { IsElimination (G.size graph.now) (G.dependencies graph.now) eliminated.items flags.now }
    requires left { FlagsLeft (G.size graph.now) (G.dependencies graph.now) flags.now }
    requires few { G.size graph.now < 2 ^ 32 }
    ensures order { IfOk result (λ order. IsOrder (G.size graph.now) (G.dependencies graph.now) order) }
    ensures acyclic { IfOk result (λ order. HasNoCycle (G.size graph.now) (G.dependencies graph.now)) }
    ensures cycle { IfErr result (ReportsCycle (G.size graph.now) (G.dependencies graph.now)) }
{
    match first_unset(flags) {
        None => Ok(Order { units: eliminated }),
        Some(first) => {
            let cycle = named_cycle(alloc, graph, flags, first as u32)?;
            Err(OrderFault::Cycle(cycle))
        }
    }
}

/// An order that has each unit once, after its dependencies. Takes time linear in units and dependencies.
///
/// The result is a fault exactly if units depend on each other in a cycle, or memory runs out. The cycle that is reported is a
/// part of a walk among the units that are left, those of the largest set in which each has a dependency in the set. The walk
/// begins at the least of them and goes on to the least dependency that is left; the cycle is the part from the first unit that
/// comes up twice.
pub fn order<G: Graph>(alloc: Global, graph: &G) -> Result<Order, OrderFault>
    ensures order { IfOk result (λ order. IsOrder (G.size graph.now) (G.dependencies graph.now) order) }
    ensures acyclic { IfOk result (λ order. HasNoCycle (G.size graph.now) (G.dependencies graph.now)) }
    ensures cycle { IfErr result (ReportsCycle (G.size graph.now) (G.dependencies graph.now)) }
{
    let mut eliminated = Vec::new(alloc);
    let mut flags = vec![in alloc; false; graph.len() as usize]?;
    eliminate_all(alloc, graph, &mut eliminated, &mut flags)?;
    order_or_cycle(alloc, graph, eliminated, &flags)
}
