//! The blocks that are open at each group.
ghost use Rattle.std.specs.Prelude.{◌≡◌, ◌<◌, ◌^◌, ℕ, List, length, IfOk};
ghost use Rattle.kc_expr.specs.between.Arena.{Exprs};
ghost use Rattle.kc_tree_model.specs.Blocks.{Group as ModelGroup};
ghost use Rattle.kc_builder.specs.between.TreeLines.{HasLines};
ghost use Rattle.kc_symbol_lines.specs.checker.Reads.{IsRead};
ghost use Rattle.kc_symbol_lines.specs.checker.Blocks.{outer_block, block_after, IsChain, HasBlocks};

use kc_builder::TreeLines;
use kc_parser::GroupHead;
use std::alloc::{AllocError, Global};

/// The innermost block around a block; `blocks` has it for each group, by its number.
fn outer_block(blocks: &[Option<u32>], block: Option<u32>) -> Option<u32>
    ensures { result ≡ outer_block blocks.now block }
{
    match block {
        None => None,
        Some(number) => match blocks.get(number as usize) {
            None => None,
            Some(outer) => *outer,
        },
    }
}

/// The innermost block that is open after a group with this number.
fn block_after(
    blocks: &[Option<u32>],
    block: Option<u32>,
    head: &GroupHead,
    number: u32,
) -> Option<u32>
    ensures { result ≡ block_after blocks.now block head.now number }
{
    match *head {
        GroupHead::Choice => Some(number),
        GroupHead::Menu(_) => Some(number),
        GroupHead::Condition(_) => Some(number),
        GroupHead::Source(_) => Some(number),
        GroupHead::Ends(_) => outer_block(blocks, block),
        GroupHead::FileEnd => outer_block(blocks, block),
        GroupHead::Config(_) => block,
        GroupHead::Comment(_) => block,
        GroupHead::Mainmenu => block,
    }
}

/// For each group the innermost block that is open at it, by the number of the group that opens it. An `Err` means out of memory.
pub(crate) fn innermost_blocks(
    alloc: Global,
    lines: &TreeLines,
) -> Result<Vec<Option<u32>>, AllocError>
    requires read { IsRead lines.now }
    ensures ok { (exprs : Exprs) (read : List ModelGroup) → HasLines exprs lines.now read → IfOk result (λ blocks. HasBlocks blocks.items read) }
{
    let mut blocks = Vec::with_capacity(alloc, lines.groups.len())?;
    let mut block = None;
    for i in 0..lines.groups.len() {
        blocks.push(block)?;
        block = block_after(&blocks, block, &lines.groups[i].head, i as u32);
    }
    Ok(blocks)
}

/// The numbers of the groups that open this block and those around it, innermost first. An `Err` means out of memory.
pub(crate) fn blocks_from(
    alloc: Global,
    blocks: &[Option<u32>],
    block: Option<u32>,
) -> Result<Vec<u32>, AllocError>
    requires chain { (numbers : List ℕ) × IsChain blocks.now block numbers }
    ensures ok { (numbers : List ℕ) → IsChain blocks.now block numbers → IfOk result (λ found. found.items ≡ numbers) }
{
    let mut found = Vec::new(alloc);
    let mut at = block;
    while let Some(number) = at {
        found.push(number)?;
        at = outer_block(blocks, at);
    }
    Ok(found)
}
