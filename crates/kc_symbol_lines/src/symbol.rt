//! The lines of a symbol's definitions.
ghost use Rattle.std.specs.Prelude.{◌≡◌, ◌<◌, [], ℕ, List, All, length, take, IfOk, OnOk, if◌then◌else◌};
ghost use Rattle.kc_expr.specs.between.Arena.{Exprs};
ghost use Rattle.kc_tokens.specs.Languages.{is_linux_6_12};
ghost use Rattle.kc_tree_model.specs.Blocks.{Group as ModelGroup};
ghost use Rattle.kc_builder.specs.between.TreeLines.{HasLines};
ghost use Rattle.kc_checks.specs.between.Summaries.{group_at};
ghost use Rattle.kc_symbol_lines.specs.checker.Blocks.{HasBlocks, open_numbers};
ghost use Rattle.kc_symbol_lines.specs.checker.Contexts.{lists_of, inside_blocks, lines_at as lines_read};
ghost use Rattle.kc_symbol_lines.specs.checker.Definitions.{IsBlocked, HasEntry, AreDefinitionLines};

use super::blocks::blocks_from;
use super::contexts::{Enclosing, enclosing_in, lines_at};
use super::located::{LocatedExpr, Position};
use super::own_lines::{FileLines, Given, dependency_parts, push_places, push_prompts};
use kc_builder::TreeLines;
use kc_tokens::Language;
use std::alloc::{AllocError, Global};

/// The lines of some definitions of a symbol.
#[derive(Drop)]
pub(crate) struct DefinitionLines {
    pub prompts: Vec<Vec<LocatedExpr>>,
    pub direct: Vec<Vec<LocatedExpr>>,
    pub defaults: Vec<Position>,
    pub ranges: Vec<Position>,
}

/// Appends the lines of a definition with these lines.
fn push_entry(
    alloc: Global,
    found: &mut DefinitionLines,
    enclosing: &Enclosing,
    own: FileLines<'_>,
) -> Result<(), AllocError>
    ensures { OnOk result (HasEntry (lists_of enclosing.now) own.entry.file own.entry.lines.now found.old found.new) }
{
    push_prompts(alloc, &mut found.prompts, enclosing, own)?;
    let parts = dependency_parts(alloc, enclosing, own)?;
    found.direct.push(parts)?;
    push_places(&mut found.defaults, Given::Default, own)?;
    push_places(&mut found.ranges, Given::Range, own)
}

/// Appends the lines of the definition that group `i` is.
fn push_group(
    alloc: Global,
    found: &mut DefinitionLines,
    language: Language,
    lines: &TreeLines,
    blocks: &[Option<u32>],
    i: usize,
) -> Result<(), AllocError>
    requires blocked { IsBlocked lines.now blocks.now }
    requires there { i < length lines.now.groups.items }
    ensures { (exprs : Exprs) (read : List ModelGroup) → HasLines exprs lines.now read → HasBlocks blocks.now read
        → OnOk result (HasEntry (inside_blocks (is_linux_6_12 language) lines.now.no lines.now.groups.items lines.now.lines.items (open_numbers read i)) (group_at lines.now.groups.items i).file (lines_read lines.now.groups.items lines.now.lines.items i) found.old found.new) }
{
    let around = blocks_from(alloc, blocks, blocks[i])?;
    let enclosing = enclosing_in(alloc, language, lines, &around)?;
    let own = lines_at(lines, i);
    let entry = FileLines {
        file: lines.groups[i].file,
        lines: own,
    };
    push_entry(alloc, found, &enclosing, entry)
}

/// The lines of the definitions that the groups with these numbers are. An `Err` means out of memory.
pub(crate) fn definition_lines(
    alloc: Global,
    language: Language,
    lines: &TreeLines,
    blocks: &[Option<u32>],
    numbers: &[u32],
) -> Result<DefinitionLines, AllocError>
    requires blocked { IsBlocked lines.now blocks.now }
    requires there { All (λ i. i < length lines.now.groups.items) numbers.now }
    ensures ok { (exprs : Exprs) (read : List ModelGroup) → HasLines exprs lines.now read → HasBlocks blocks.now read
        → IfOk result (AreDefinitionLines (is_linux_6_12 language) lines.now read numbers.now) }
{
    let mut found = DefinitionLines {
        prompts: Vec::new(alloc),
        direct: Vec::new(alloc),
        defaults: Vec::new(alloc),
        ranges: Vec::new(alloc),
    };
    for number in numbers {
        push_group(alloc, &mut found, language, lines, blocks, *number as usize)?;
    }
    Ok(found)
}

/// Keeps only the first of some lists, if the symbol is a member of a choice.
pub(crate) fn keep_own(parts: &mut Vec<Vec<LocatedExpr>>, is_member: bool)
    ensures { parts.new.items ≡ (if is_member then take 1 parts.old.items else parts.old.items) }
{
    if is_member {
        parts.truncate(1);
    }
}
