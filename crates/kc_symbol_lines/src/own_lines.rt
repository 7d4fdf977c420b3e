//! What is on the attribute lines of a group.
ghost use Rattle.std.specs.Prelude.{◌≡◌, ◌++◌, IfOk, OnOk};
ghost use Rattle.std.specs.Global.{Vec as AnyVec};
ghost use Rattle.kc_symbol_lines.specs.declared.located.LocatedExpr.{LocatedExpr as AnyLocatedExpr};
ghost use Rattle.kc_symbol_lines.specs.checker.Contexts.{lists_of};
ghost use Rattle.kc_symbol_lines.specs.checker.OwnLines.{is_given, located_if, parts_in, places_in, dependency_parts, prompt_parts, prompt_at, prompts_in, position_at};
ghost use Rattle.kc_symbol_lines.specs.checker.Lists.{each_items};

use super::contexts::Enclosing;
use super::located::{LocatedExpr, Position};
use kc_expr::ExprId;
use kc_parser::Line;
use kc_statements::ReadAttribute;
use kc_tree_model::Conjuncts;
use std::alloc::{AllocError, Global};

/// What gives a value, or limits it.
#[derive(Clone, Copy)]
pub(crate) enum Given {
    Default,
    Range,
}

/// Whether an attribute is a default, or a range.
fn is_given(given: Given, attribute: &ReadAttribute) -> bool
    ensures { result ≡ is_given given attribute.now }
{
    match given {
        Given::Default => attribute.default_given().is_some(),
        Given::Range => attribute.is_range(),
    }
}

/// Appends an expression of a line, if there is one.
pub(crate) fn push_located(
    found: &mut Vec<LocatedExpr>,
    at: Position,
    expr: Option<ExprId>,
) -> Result<(), AllocError>
    ensures { OnOk result (found.new.items ≡ found.old.items ++ located_if at expr) }
{
    match expr {
        None => Ok(()),
        Some(expr) => {
            found.push(LocatedExpr {
                expr,
                at,
                of_choice: false,
            })?;
            Ok(())
        }
    }
}

/// Some attribute lines, and the file that they are in.
#[derive(Clone, Copy)]
pub(crate) struct FileLines<'a> {
    pub file: u32,
    pub lines: &'a [Line],
}

impl FileLines<'_> {
    /// The place of a line of the file.
    fn place_of(&self, line: u32) -> Position
        ensures { result ≡ position_at self.now.file line }
    {
        Position {
            file: self.file,
            line,
        }
    }
}

/// Appends the conditions of the `depends on`, or of the `visible if`, among some lines.
pub(crate) fn push_parts(
    found: &mut Vec<LocatedExpr>,
    which: Conjuncts,
    own: FileLines<'_>,
) -> Result<(), AllocError>
    ensures { OnOk result (found.new.items ≡ found.old.items ++ parts_in which own.entry.file own.entry.lines.now) }
{
    for line in own.lines {
        let expr = line.attribute.conjunct_given(which);
        push_located(found, own.place_of(line.number), expr)?;
    }
    Ok(())
}

/// Appends the places of the defaults, or of the ranges, among some lines.
pub(crate) fn push_places(
    found: &mut Vec<Position>,
    given: Given,
    own: FileLines<'_>,
) -> Result<(), AllocError>
    ensures { OnOk result (found.new.items ≡ found.old.items ++ places_in given own.entry.file own.entry.lines.now) }
{
    for line in own.lines {
        if is_given(given, &line.attribute) {
            found.push(own.place_of(line.number))?;
        }
    }
    Ok(())
}

/// The dependencies of an entry with these lines, the enclosing ones first.
pub(crate) fn dependency_parts(
    alloc: Global,
    enclosing: &Enclosing,
    own: FileLines<'_>,
) -> Result<Vec<LocatedExpr>, AllocError>
    ensures ok { IfOk result (λ parts. parts.items ≡ dependency_parts (lists_of enclosing.now) own.entry.file own.entry.lines.now) }
{
    let mut parts = Vec::from_slice(alloc, &enclosing.dependencies)?;
    push_parts(&mut parts, Conjuncts::Dependencies, own)?;
    Ok(parts)
}

/// What is needed for a prompt on a line with this `if`, of an entry with these lines.
fn prompt_parts(
    alloc: Global,
    enclosing: &Enclosing,
    own: FileLines<'_>,
    line: u32,
    condition: Option<ExprId>,
) -> Result<Vec<LocatedExpr>, AllocError>
    ensures ok { IfOk result (λ parts. parts.items ≡ prompt_parts (lists_of enclosing.now) own.entry.file own.entry.lines.now line condition) }
{
    let mut parts = dependency_parts(alloc, enclosing, own)?;
    parts.extend_from_slice(&enclosing.visibles)?;
    push_located(&mut parts, own.place_of(line), condition)?;
    Ok(parts)
}

/// Appends what is needed for a line, if it is a prompt, of an entry with these lines.
fn push_prompt(
    alloc: Global,
    found: &mut Vec<Vec<LocatedExpr>>,
    enclosing: &Enclosing,
    own: FileLines<'_>,
    line: u32,
    prompt: Option<Option<ExprId>>,
) -> Result<(), AllocError>
    ensures { OnOk result (each_items found.new.items ≡ each_items found.old.items ++ prompt_at (lists_of enclosing.now) own.entry.file own.entry.lines.now line prompt) }
{
    match prompt {
        None => Ok(()),
        Some(condition) => {
            let parts = prompt_parts(alloc, enclosing, own, line, condition)?;
            found.push(parts)?;
            Ok(())
        }
    }
}

/// Appends what is needed for each prompt of an entry with these lines.
pub(crate) fn push_prompts(
    alloc: Global,
    found: &mut Vec<Vec<LocatedExpr>>,
    enclosing: &Enclosing,
    own: FileLines<'_>,
) -> Result<(), AllocError>
    ensures { OnOk result (each_items found.new.items ≡ each_items found.old.items ++ prompts_in (lists_of enclosing.now) own.entry.file own.entry.lines.now own.entry.lines.now) }
{
    for line in own.lines {
        let prompt = line.attribute.prompt_given();
        push_prompt(alloc, found, enclosing, own, line.number, prompt)?;
    }
    Ok(())
}
