//! Elimination of units whose dependencies are all eliminated.
ghost use Rattle.std.specs.Prelude.{◌≡◌, ℕ, ◌<◌, ◌≤◌, true, false, [], length, replicate, All, OnOk, Contains, slice_get, slice_index_or, Some};
ghost use Rattle.kc_solver.specs.checker.Rows.{ListsDependents};
ghost use Rattle.kc_solver.specs.checker.Elimination.{IsEliminatedOrWaits, IsElimination, ArePassed, Grows, WaitsBeyond, FlagsLeft};

use crate::rows::{Rows, list_dependents};
use crate::system::Graph;
use std::alloc::{AllocError, Global};

/// The first place in a unit's list of dependencies, from a given one on, of a dependency whose flag is unset; the length of the
/// list if there is none.
pub(crate) fn first_remaining(dependencies: &[u32], from: usize, flags: &[bool]) -> usize
    requires from { from ≤ length dependencies.now }
    requires units { All (λ d. d < length flags.now) dependencies.now }
    ensures within { result ≤ length dependencies.now }
    ensures not_before { from ≤ result }
    ensures passed { (k d : ℕ) → from ≤ k → k < result → slice_get dependencies.now k ≡ Some d → slice_index_or flags.now d false ≡ true }
    ensures found { (d : ℕ) → slice_get dependencies.now result ≡ Some d → slice_index_or flags.now d false ≡ false }
{
    for k in from..dependencies.len() {
        if !flags[dependencies[k] as usize] {
            return k;
        }
    }
    dependencies.len()
}

/// Eliminates a unit if its dependencies are all eliminated.
fn eliminate_if_ready<G: Graph>(
    graph: &G,
    u: u32,
    eliminated: &mut Vec<u32>,
    flags: &mut [bool],
    next: &mut [usize],
) -> Result<(), AllocError>
    requires unit { u < G.size graph.now }
    requires eliminating { IsElimination (G.size graph.now) (G.dependencies graph.now) eliminated.old.items flags.old }
    requires passed { ArePassed (G.size graph.now) (G.dependencies graph.now) flags.old next.old }
    ensures eliminating { OnOk result (IsElimination (G.size graph.now) (G.dependencies graph.now) eliminated.new.items flags.new) }
    ensures passed { OnOk result (ArePassed (G.size graph.now) (G.dependencies graph.now) flags.new next.new) }
    ensures grows { OnOk result (Grows eliminated.old.items eliminated.new.items) }
    ensures waits { OnOk result (IsEliminatedOrWaits (G.dependencies graph.now) flags.new eliminated.new.items u) }
{
    if flags[u as usize] {
        return Ok(());
    }
    let dependencies = graph.deps(u);
    let k = first_remaining(dependencies, next[u as usize], flags);
    next[u as usize] = k;
    if k == dependencies.len() {
        eliminated.push(u)?;
        flags[u as usize] = true;
    }
    Ok(())
}

/// Eliminates those of some units whose dependencies are all eliminated.
fn eliminate_ready<G: Graph>(
    graph: &G,
    units: &[u32],
    eliminated: &mut Vec<u32>,
    flags: &mut [bool],
    next: &mut [usize],
) -> Result<(), AllocError>
    requires units { All (λ u. u < G.size graph.now) units.now }
    requires eliminating { IsElimination (G.size graph.now) (G.dependencies graph.now) eliminated.old.items flags.old }
    requires passed { ArePassed (G.size graph.now) (G.dependencies graph.now) flags.old next.old }
    ensures eliminating { OnOk result (IsElimination (G.size graph.now) (G.dependencies graph.now) eliminated.new.items flags.new) }
    ensures passed { OnOk result (ArePassed (G.size graph.now) (G.dependencies graph.now) flags.new next.new) }
    ensures grows { OnOk result (Grows eliminated.old.items eliminated.new.items) }
    ensures beyond { OnOk result ((u : ℕ) → Contains units.now u → WaitsBeyond (G.dependencies graph.now) eliminated.new.items (length eliminated.old.items) u) }
{
    for u in units {
        eliminate_if_ready(graph, *u, eliminated, flags, next)?;
    }
    Ok(())
}

/// Eliminates units as long as there are any whose dependencies are all eliminated.
fn eliminate_reachable<G: Graph>(
    graph: &G,
    dependents: &Rows,
    eliminated: &mut Vec<u32>,
    flags: &mut [bool],
    next: &mut [usize],
) -> Result<(), AllocError>
    requires dependents { ListsDependents (G.size graph.now) (G.dependencies graph.now) dependents.now.starts.items dependents.now.units.items }
    requires eliminating { IsElimination (G.size graph.now) (G.dependencies graph.now) eliminated.old.items flags.old }
    requires passed { ArePassed (G.size graph.now) (G.dependencies graph.now) flags.old next.old }
    requires beyond { (u : ℕ) → u < G.size graph.now → WaitsBeyond (G.dependencies graph.now) eliminated.old.items 0 u }
    ensures eliminating { OnOk result (IsElimination (G.size graph.now) (G.dependencies graph.now) eliminated.new.items flags.new) }
    ensures beyond { OnOk result ((u : ℕ) → u < G.size graph.now → WaitsBeyond (G.dependencies graph.now) eliminated.new.items (length eliminated.new.items) u) }
{
    let mut i = 0;
    while i < eliminated.len() {
        let ready = dependents.of(eliminated[i]);
        eliminate_ready(graph, ready, eliminated, flags, next)?;
        i += 1;
    }
    Ok(())
}

/// Eliminates each unit whose dependencies are all eliminated when its turn comes, in the order of their numbers.
fn eliminate_each_once<G: Graph>(
    graph: &G,
    eliminated: &mut Vec<u32>,
    flags: &mut [bool],
    next: &mut [usize],
) -> Result<(), AllocError>
    requires eliminating { IsElimination (G.size graph.now) (G.dependencies graph.now) eliminated.old.items flags.old }
    requires passed { ArePassed (G.size graph.now) (G.dependencies graph.now) flags.old next.old }
    ensures eliminating { OnOk result (IsElimination (G.size graph.now) (G.dependencies graph.now) eliminated.new.items flags.new) }
    ensures passed { OnOk result (ArePassed (G.size graph.now) (G.dependencies graph.now) flags.new next.new) }
    ensures beyond { OnOk result ((u : ℕ) → u < G.size graph.now → WaitsBeyond (G.dependencies graph.now) eliminated.new.items 0 u) }
{
    for u in 0..graph.len() {
        eliminate_if_ready(graph, u, eliminated, flags, next)?;
    }
    Ok(())
}

/// Eliminates units as long as there are any whose dependencies are all eliminated: lists them and sets their flags. The flags of
/// the other units stay unset.
pub(crate) fn eliminate_all<G: Graph>(
    alloc: Global,
    graph: &G,
    eliminated: &mut Vec<u32>,
    flags: &mut [bool],
) -> Result<(), AllocError>
    requires none { eliminated.old.items ≡ [] }
    requires flags { flags.old ≡ replicate (G.size graph.now) false }
    ensures eliminating { OnOk result (IsElimination (G.size graph.now) (G.dependencies graph.now) eliminated.new.items flags.new) }
    ensures left { OnOk result (FlagsLeft (G.size graph.now) (G.dependencies graph.now) flags.new) }
{
    let mut next = vec![in alloc; 0; graph.len() as usize]?;
    let dependents = list_dependents(alloc, graph)?;
    eliminate_each_once(graph, eliminated, flags, &mut next)?;
    eliminate_reachable(graph, &dependents, eliminated, flags, &mut next)?;
    Ok(())
}
