//! Names of expressions, and the names of faults.
ghost use Rattle.std.specs.Prelude.{◌<◌, ◌≤◌, ◌^◌, length, IfOk, OnOk, []};
ghost use Rattle.kc_expr.specs.between.Visits.{HasFound};

use kc_expr::{Arena, ExprId, NameId, Operand, VisitedSet};
use kc_tokens::{ExprFault, ExprKind, Language, Token, tokens};
use kc_value::Tri;
use kmin_fakes::{and_drop, twice, twice_on};
use std::alloc::{AllocError, Global};

/// How many names and expressions an arena has.
fn sizes(arena: &Arena) -> (usize, usize)
    ensures { result.1 ≤ 2 ^ 32 }
{
    (arena.name_count(), arena.node_count())
}

/// The expression that begins a line, and the place after it.
fn parsed(arena: &mut Arena, line: &[Token<'_>]) -> Result<(ExprId, usize), ExprFault>
    ensures { IfOk result (λ r. r.0 < length arena.new.nodes) }
{
    Ok(twice_on!(sizes(arena), arena.parse_expr(line, 0, true)))
}

/// An expression joined to itself.
fn doubled(arena: &mut Arena, id: ExprId) -> Result<ExprId, ExprFault>
    requires there { id < length arena.old.nodes }
    ensures there { IfOk result (λ i. i < length arena.new.nodes) }
{
    Ok(twice_on!(sizes(arena), arena.join(id, id)))
}

/// Whether an expression is other than `n`.
fn shown(arena: &mut Arena, id: ExprId) -> Result<ExprId, ExprFault>
    requires there { id < length arena.old.nodes }
    ensures there { IfOk result (λ i. i < length arena.new.nodes) }
{
    Ok(twice_on!(sizes(arena), arena.shown(id)))
}

/// The number of a name.
fn interned(arena: &mut Arena, name: &str) -> Result<usize, ExprFault> {
    Ok(twice_on!(sizes(arena), arena.intern(name)).index())
}

/// The expression that begins a text, the place after it, and how many tokens the text has.
fn read(alloc: Global, arena: &mut Arena, text: &str) -> Result<(ExprId, usize, usize), ExprFault>
    ensures { IfOk result (λ r. r.0 < length arena.new.nodes) }
{
    let list = twice!(tokens(alloc, Language::Strict, text));
    let (id, end) = parsed(arena, &list)?;
    Ok((id, end, list.len()))
}

/// Whether the calls of an arena return the parts of an expression.
fn returns_parts(alloc: Global) -> Result<bool, ExprFault> {
    and_drop!(mut arena = Arena::new(alloc); returns_parts_in(alloc, &mut arena))
}

/// Whether those of this arena, which is empty, do.
fn returns_parts_in(alloc: Global, arena: &mut Arena) -> Result<bool, ExprFault> {
    let (id, end, tokens) = read(alloc, arena, "Z = \"x\" && (!A || Z) && m if NEW")?;
    let (names, nodes) = sizes(arena);
    let count = count_of_names(arena, id)?;
    let is_read = tokens == 14 && end == 12 && names == 3 && count == 3;
    Ok(is_read && sizes(arena) == (3, nodes + 2) && are_appended(arena)?)
}

/// How many names an expression has, joined to itself and shown.
fn count_of_names(arena: &mut Arena, id: ExprId) -> Result<usize, ExprFault>
    requires { id < length arena.old.nodes }
{
    let both = doubled(arena, id)?;
    let shown = shown(arena, both)?;
    Ok(twice!(arena.names(shown)).len())
}

/// Whether a new name is appended to the three of an arena once, and then a constant to the expressions.
fn are_appended(arena: &mut Arena) -> Result<bool, ExprFault> {
    let nodes = arena.node_count();
    let new = interned(arena, "NEW")?;
    let again = interned(arena, "NEW")?;
    let is_named = new == 3 && again == 3 && sizes(arena) == (4, nodes);
    let id = twice_on!(sizes(arena), arena.constant(Tri::M));
    let is_constant = matches!(arena.operand(id), Some(Operand::Tri(Tri::M)));
    Ok(is_named && is_constant && sizes(arena) == (4, nodes + 1))
}

#[test]
fn returns_names(rt: HostRuntime) -> Result<(), std::test::Fail> {
    assert!(rt; returns_parts(rt.alloc())?);
    Ok(())
}

/// A walk through expressions, and the names that it has found.
#[derive(Drop)]
struct Walk {
    visited: VisitedSet,
    found: Vec<NameId>,
}

/// Appends the names in an expression that this walk hasn't visited. Where memory runs out, the list has to stay as it was, and
/// the walk, which has visited nothing then, tries once more.
fn push_unvisited(arena: &Arena, id: ExprId, walk: &mut Walk) -> Result<(), AllocError>
    requires there { id < length arena.now.nodes }
    requires found { HasFound arena.now walk.old.visited walk.old.found.items }
    ensures found { OnOk result (HasFound arena.now walk.new.visited walk.new.found.items) }
{
    let others = walk.found.len();
    match arena.push_new_names(id, &mut walk.visited, &mut walk.found) {
        Ok(()) => Ok(()),
        Err(fault) => {
            if walk.found.len() != others {
                return Err(fault);
            }
            walk.visited = arena.walk()?;
            arena.push_new_names(id, &mut walk.visited, &mut walk.found)
        }
    }
}

/// Whether a walk passes over the names that it has visited, and visits them again once it is begun anew.
fn is_visited_once(alloc: Global) -> Result<bool, ExprFault> {
    and_drop!(mut arena = Arena::new(alloc); is_visited_once_in(alloc, &mut arena))
}

/// Whether a walk through an expression of this arena, which is empty at first, visits each name once.
fn is_visited_once_in(alloc: Global, arena: &mut Arena) -> Result<bool, ExprFault> {
    let (id, _, _) = read(alloc, arena, "A && B || !C")?;
    let both = doubled(arena, id)?;
    let mut walk = Walk {
        visited: twice!(arena.walk()),
        found: Vec::new(alloc),
    };
    Ok(is_visited_once_by(arena, both, &mut walk)?)
}

/// Whether this walk, which has visited nothing yet, visits each of three names once, and again once it is begun anew.
fn is_visited_once_by(arena: &Arena, id: ExprId, walk: &mut Walk) -> Result<bool, AllocError>
    requires there { id < length arena.now.nodes }
    requires found { HasFound arena.now walk.old.visited walk.old.found.items }
{
    push_unvisited(arena, id, walk)?;
    let first = walk.found.len();
    push_unvisited(arena, id, walk)?;
    let again = walk.found.len();
    walk.visited.begin();
    push_unvisited(arena, id, walk)?;
    Ok(first == 3 && again == 3 && walk.found.len() == 6)
}

#[test]
fn a_walk_visits_each_name_once(rt: HostRuntime) -> Result<(), std::test::Fail> {
    assert!(rt; is_visited_once(rt.alloc())?);
    Ok(())
}

/// Appends the names in an expression.
fn push_all(arena: &Arena, id: ExprId, found: &mut Vec<NameId>) -> Result<(), AllocError>
    requires { id < length arena.now.nodes }
{
    twice_on!(found.len(), arena.push_names(id, found));
    Ok(())
}

/// Whether the names of an expression are appended to those of a list, each as often as it occurs.
fn are_pushed(alloc: Global) -> Result<bool, ExprFault> {
    and_drop!(mut arena = Arena::new(alloc); are_pushed_in(alloc, &mut arena))
}

/// Whether the names of an expression of this arena, which is empty at first, are appended as often as they occur.
fn are_pushed_in(alloc: Global, arena: &mut Arena) -> Result<bool, ExprFault> {
    let (id, _, _) = read(alloc, arena, "A && B || !A")?;
    let mut found = Vec::new(alloc);
    push_all(arena, id, &mut found)?;
    push_all(arena, id, &mut found)?;
    Ok(found.len() == 6 && found[..3] == found[3..])
}

#[test]
fn pushes_names(rt: HostRuntime) -> Result<(), std::test::Fail> {
    assert!(rt; are_pushed(rt.alloc())?);
    Ok(())
}

#[test]
fn a_kind_is_its_name(rt: HostRuntime) -> Result<(), std::test::Fail> {
    for (kind, wanted) in [
        (ExprKind::BadToken, "BadToken, BadToken at byte 12"),
        (
            ExprKind::UnclosedQuote,
            "UnclosedQuote, UnclosedQuote at byte 12",
        ),
        (ExprKind::Malformed, "Malformed, Malformed at byte 12"),
        (ExprKind::TooDeep, "TooDeep, TooDeep at byte 12"),
        (ExprKind::LeftOut, "LeftOut, LeftOut at byte 12"),
        (ExprKind::OutOfMemory, "OutOfMemory, OutOfMemory at byte 12"),
    ] {
        let fault = ExprFault { offset: 12, kind };
        let text = twice!(format!(in rt.alloc(); "{kind}, {fault}"));
        assert_eq!(rt; text.as_str(), wanted);
    }
    Ok(())
}
