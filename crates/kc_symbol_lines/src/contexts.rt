//! The conditions that enclose what is inside blocks.
ghost use Rattle.std.specs.Prelude.{◌≡◌, ◌<◌, [], ℕ, List, All, length, map, slice_get, IfOk, OnOk};
ghost use Rattle.kc_tokens.specs.Languages.{is_linux_6_12};
ghost use Rattle.kc_checks.specs.between.Summaries.{group_at};
ghost use Rattle.kc_symbol_lines.specs.checker.Lists.{each_items};
ghost use Rattle.kc_symbol_lines.specs.checker.Reads.{IsRead};
ghost use Rattle.kc_symbol_lines.specs.checker.Contexts.{lists_of, as_choice_part, shown_parts, inside_menu, inside_choice, inside_head, inside_blocks, lines_at as lines_read};

use super::located::{LocatedExpr, Position};
use super::own_lines::{FileLines, push_located, push_parts, push_prompts};
use kc_builder::TreeLines;
use kc_checks::{end_of, part};
use kc_expr::ExprId;
use kc_parser::{Group, GroupHead, Line};
use kc_tokens::Language;
use kc_tree_model::Conjuncts;
use std::alloc::{AllocError, Global};

/// The dependencies and `visible if`s that enclose what is inside some blocks, outermost first.
#[derive(Drop)]
pub(crate) struct Enclosing {
    pub dependencies: Vec<LocatedExpr>,
    pub visibles: Vec<LocatedExpr>,
}

/// The attribute lines of group `i`.
pub(crate) fn lines_at(lines: &TreeLines, i: usize) -> &[Line]
    requires read { IsRead lines.now }
    requires there { i < length lines.now.groups.items }
    ensures value { result.now ≡ lines_read lines.now.groups.items lines.now.lines.items i }
{
    let begin = lines.groups[i].attributes;
    let end = end_of(&lines.groups, &lines.lines, i);
    part(&lines.lines, begin, end)
}

/// Enters a menu with these lines.
fn enter_menu(enclosing: &mut Enclosing, own: FileLines<'_>) -> Result<(), AllocError>
    ensures { OnOk result (lists_of enclosing.new ≡ inside_menu (lists_of enclosing.old) own.entry.file own.entry.lines.now) }
{
    push_parts(&mut enclosing.dependencies, Conjuncts::Dependencies, own)?;
    push_parts(&mut enclosing.visibles, Conjuncts::Visibles, own)
}

/// Parts of the condition of a choice's prompt, as parts of the condition that it is shown.
fn as_choice_parts(alloc: Global, parts: &[LocatedExpr]) -> Result<Vec<LocatedExpr>, AllocError>
    ensures { IfOk result (λ marked. marked.items ≡ map as_choice_part parts.now) }
{
    let mut marked = Vec::new(alloc);
    for part in parts {
        marked.push(LocatedExpr {
            expr: part.expr,
            at: part.at,
            of_choice: true,
        })?;
    }
    Ok(marked)
}

/// The parts of the condition that a choice at a place is shown, from those of its prompts; without a prompt it is `no`.
fn shown_parts(
    alloc: Global,
    no: ExprId,
    at: Position,
    prompts: &[Vec<LocatedExpr>],
) -> Result<Vec<LocatedExpr>, AllocError>
    ensures { IfOk result (λ parts. parts.items ≡ shown_parts no at (slice_get (each_items prompts.now) 0)) }
{
    if prompts.len() == 0 {
        let mut parts = Vec::new(alloc);
        push_located(&mut parts, at, Some(no))?;
        Ok(parts)
    } else {
        as_choice_parts(alloc, &prompts[0])
    }
}

/// Enters a choice at a place, with these lines, that outer conditions don't go through.
fn enter_choice(
    alloc: Global,
    enclosing: &mut Enclosing,
    no: ExprId,
    at: Position,
    lines: &[Line],
) -> Result<(), AllocError>
    ensures { OnOk result (lists_of enclosing.new ≡ inside_choice no (lists_of enclosing.old) at.file at.line lines.now) }
{
    let mut prompts = Vec::new(alloc);
    let own = FileLines {
        file: at.file,
        lines,
    };
    push_prompts(alloc, &mut prompts, enclosing, own)?;
    let dependencies = shown_parts(alloc, no, at, &prompts)?;
    enclosing.dependencies = dependencies;
    enclosing.visibles = Vec::new(alloc);
    Ok(())
}

/// Enters the block that a statement at a place opens, with these lines, in a tree in `language`.
fn enter(
    alloc: Global,
    enclosing: &mut Enclosing,
    language: Language,
    no: ExprId,
    head: &GroupHead,
    at: Position,
    lines: &[Line],
) -> Result<(), AllocError>
    ensures { OnOk result (lists_of enclosing.new ≡ inside_head (is_linux_6_12 language) no head.now (lists_of enclosing.old) at.file at.line lines.now) }
{
    let own = FileLines {
        file: at.file,
        lines,
    };
    match *head {
        GroupHead::Choice => {
            if language.is_linux_6_12() {
                enter_menu(enclosing, own)
            } else {
                enter_choice(alloc, enclosing, no, at, lines)
            }
        }
        GroupHead::Menu(_) => enter_menu(enclosing, own),
        GroupHead::Condition(e) => push_located(&mut enclosing.dependencies, at, Some(e)),
        GroupHead::Config(_) => Ok(()),
        GroupHead::Comment(_) => Ok(()),
        GroupHead::Source(_) => Ok(()),
        GroupHead::Mainmenu => Ok(()),
        GroupHead::Ends(_) => Ok(()),
        GroupHead::FileEnd => Ok(()),
    }
}

/// The place of group `i`.
fn place_of(groups: &[Group], i: usize) -> Position
    requires there { i < length groups.now }
    ensures file { result.file ≡ (group_at groups.now i).file }
    ensures line { result.line ≡ (group_at groups.now i).line }
{
    Position {
        file: groups[i].file,
        line: groups[i].line,
    }
}

/// The conditions that enclose what is inside blocks, given by the numbers of the groups that open them, innermost first.
pub(crate) fn enclosing_in(
    alloc: Global,
    language: Language,
    lines: &TreeLines,
    blocks: &[u32],
) -> Result<Enclosing, AllocError>
    requires read { IsRead lines.now }
    requires there { All (λ b. b < length lines.now.groups.items) blocks.now }
    ensures ok { IfOk result (λ a. lists_of a ≡ inside_blocks (is_linux_6_12 language) lines.now.no lines.now.groups.items lines.now.lines.items blocks.now) }
{
    let mut enclosing = Enclosing {
        dependencies: Vec::new(alloc),
        visibles: Vec::new(alloc),
    };
    let mut left = blocks.len();
    while left > 0 {
        left -= 1;
        let i = blocks[left] as usize;
        let own = lines_at(lines, i);
        let at = place_of(&lines.groups, i);
        enter(
            alloc,
            &mut enclosing,
            language,
            lines.no,
            &lines.groups[i].head,
            at,
            own,
        )?;
    }
    Ok(enclosing)
}
