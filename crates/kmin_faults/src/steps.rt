//! The symbols and choices of a cycle, and its steps.
ghost use Rattle.std.specs.Prelude.{◌≡◌, ◌<◌, ℕ, List, length, map, option_map, slice_get, IfOk, string_bytes};
ghost use Rattle.std.specs.Borrow.{Bor};
ghost use Rattle.std.specs.Global.{Vec};
ghost use Rattle.kmin_faults.specs.Cycles.{choice_name, cycle_steps, first_name, next_place, step_at, step_with, symbol_name, unit_name, unit_names};
ghost use Rattle.kmin_faults.specs.between.Steps.{step_of};

use crate::causes::{Cause, cause_of};
use kc_tree::{Sym, Tree, Unit};
use std::alloc::{AllocError, Global};

/// A step of a cycle: the name of a symbol or a choice, what makes it depend on another, and the name of that.
#[derive(Clone, Copy)]
pub struct Step<'a> {
    pub name: &'a str,
    pub cause: Cause,
    pub other: &'a str,
}

/// The names of units of a tree, by their numbers; a choice is `choice:MEMBER`, by its first member. An `Err` means out of memory.
pub fn unit_names(alloc: Global, tree: &Tree, units: &[u32]) -> Result<Vec<String>, AllocError>
    ensures { IfOk result (λ names. map string_bytes names.items ≡ unit_names tree.now.tree units.now) }
{
    let mut names = Vec::new(alloc);
    for unit in units {
        let name = unit_name(alloc, tree, *unit)?;
        names.push(name)?;
    }
    Ok(names)
}

/// The name of a symbol, or that of a choice.
fn unit_name(alloc: Global, tree: &Tree, unit: u32) -> Result<String, AllocError>
    ensures { IfOk result (λ name. string_bytes name ≡ unit_name tree.now.tree (slice_get tree.now.tree.units unit)) }
{
    if unit >= tree.len() {
        return Ok(String::new(alloc));
    }
    match tree.unit(unit) {
        Unit::Symbol(symbol) => String::from_str(alloc, symbol_name(tree, symbol)),
        Unit::Choice(choice) => ["choice:", first_name(tree, tree.choice(choice).members)].concat(
            alloc,
        ),
    }
}

/// The name of a symbol; empty if there is none.
fn symbol_name(tree: &Tree, symbol: Sym) -> &str
    ensures { result.now ≡ symbol_name tree.now.tree symbol }
{
    if symbol.number() < tree.symbol_count() {
        tree.name(symbol)
    } else {
        ""
    }
}

/// The name of the first of some symbols; empty if there is none.
fn first_name<'t>(tree: &'t Tree, members: &[Sym]) -> &'t str
    ensures { result.now ≡ first_name tree.now.tree members.now }
{
    match members {
        [symbol, ..] => symbol_name(tree, *symbol),
        [] => "",
    }
}

/// The steps of a cycle of units with these names, the last of which leads back to the first; `None` where nothing makes one of them
/// depend on the next. An `Err` means out of memory.
pub fn cycle_steps<'a>(
    alloc: Global,
    tree: &Tree,
    units: &[u32],
    names: &'a [String],
) -> Result<Option<Vec<Step<'a>>>, AllocError>
    ensures { IfOk result (λ steps. option_map (λ (found : Vec Step). map step_of found.items) steps
        ≡ cycle_steps tree.now.tree units.now (map string_bytes names.now)) }
{
    let mut steps = Vec::new(alloc);
    for at in 0..units.len() {
        match step_at(alloc, tree, units, names, at)? {
            Some(step) => steps.push(step)?,
            None => return Ok(None),
        }
    }
    Ok(Some(steps))
}

/// The step at a place of a cycle of units with these names.
fn step_at<'a>(
    alloc: Global,
    tree: &Tree,
    units: &[u32],
    names: &'a [String],
    at: usize,
) -> Result<Option<Step<'a>>, AllocError>
    requires there { at < length units.now }
    ensures value { IfOk result (λ step. option_map step_of step ≡ step_at tree.now.tree units.now (map string_bytes names.now) at) }
{
    let next = next_place(units.len(), at);
    let cause = cause_of(alloc, tree, units[at], units[next])?;
    Ok(step_with(name_at(names, at), cause, name_at(names, next)))
}

/// The place after a place of a circle of `count` places.
fn next_place(count: usize, at: usize) -> usize
    requires there { at < count }
    ensures value { result ≡ next_place count at }
    ensures within { result < count }
{
    if at + 1 < count { at + 1 } else { 0 }
}

/// The name at a place, if there is one.
fn name_at<'a>(names: &'a [String], at: usize) -> Option<&'a str>
    ensures { option_map (λ (name : Bor (List ℕ)). name.now) result ≡ slice_get (map string_bytes names.now) at }
{
    if at < names.len() {
        return Some(names[at].as_str());
    }
    None
}

/// The step with these parts, if all of them are there.
fn step_with<'a>(
    name: Option<&'a str>,
    cause: Option<Cause>,
    other: Option<&'a str>,
) -> Option<Step<'a>>
    ensures { option_map step_of result ≡ step_with (option_map (λ (text : Bor (List ℕ)). text.now) name.entry) cause (option_map (λ (text : Bor (List ℕ)). text.now) other.entry) }
{
    match (name, cause, other) {
        (Some(name), Some(cause), Some(other)) => Some(Step { name, cause, other }),
        _ => None,
    }
}
