//! The search for the named cycle among the units that are left.
ghost use Rattle.std.specs.Prelude.{◌≡◌, ◌<◌, ◌≤◌, length, drop, IfOk};
ghost use Rattle.kc_solver.specs.Dependencies.{IsLeft, IsLeast, FollowsLeft, IsNamedCycle};
ghost use Rattle.kc_solver.specs.checker.Elimination.{FlagsLeft};

use crate::elimination::first_remaining;
use crate::system::Graph;
use std::alloc::{AllocError, Global};

/// The least dependency that is left of a unit that is left. The flags of the units that are left are unset.
fn least_remaining_dependency<G: Graph>(graph: &G, flags: &[bool], u: u32) -> u32
    requires left { FlagsLeft (G.size graph.now) (G.dependencies graph.now) flags.now }
    requires flags { length flags.now ≡ G.size graph.now }
    requires unit { IsLeft (G.size graph.now) (G.dependencies graph.now) u }
    ensures follows { FollowsLeft (G.size graph.now) (G.dependencies graph.now) u result }
{
    let dependencies = graph.deps(u);
    dependencies[first_remaining(dependencies, 0, flags)]
}

/// A copy of the part of a list from a place on, or out of memory.
fn part_from(alloc: Global, walk: &[u32], start: usize) -> Result<Vec<u32>, AllocError>
    requires within { start ≤ length walk.now }
    ensures ok { IfOk result (λ part. part.items ≡ drop start walk.now) }
{
    Vec::from_slice(alloc, &walk[start..])
}

/// The cycle of dependencies to report, among the units whose flags are unset, or out of memory. It is found by a walk from
/// `first`, the least of these units, along the least dependency that is one of them, up to the first repetition.
pub(crate) fn named_cycle<G: Graph>(
    alloc: Global,
    graph: &G,
    flags: &[bool],
    first: u32,
) -> Result<Vec<u32>, AllocError>
    requires left { FlagsLeft (G.size graph.now) (G.dependencies graph.now) flags.now }
    requires flags { length flags.now ≡ G.size graph.now }
    requires first { IsLeast (IsLeft (G.size graph.now) (G.dependencies graph.now)) first }
    ensures ok { IfOk result (λ cycle. IsNamedCycle (G.size graph.now) (G.dependencies graph.now) cycle.items) }
{
    let count = flags.len();
    let mut places = vec![in alloc; count; count]?;
    let mut walk = Vec::new(alloc);
    let mut u = first;
    while places[u as usize] == count {
        places[u as usize] = walk.len();
        walk.push(u)?;
        u = least_remaining_dependency(graph, flags, u);
    }
    part_from(alloc, walk.as_slice(), places[u as usize])
}
