//! Open blocks and open files.
ghost use Rattle.std.specs.Prelude.{◌≡◌, count_by};
ghost use Rattle.std.specs.List.{list_any};
ghost use Rattle.kc_parser.specs.checker.OpenBlockViews.{is_block, is_file, is_choice, is_file_of, block_kept, choice_kept};

use super::state::OpenBlock;
use kc_tree_model::Block;
use kc_value::Text;

/// How many blocks are open, over all open files.
pub(crate) fn open_block_count(stack: &[OpenBlock]) -> usize
    ensures { result ≡ count_by is_block stack.now }
{
    let mut count = 0;
    for o in stack {
        if let OpenBlock::Block(_, _, _) = o {
            count += 1;
        }
    }
    count
}

/// How many sourced files are open.
pub(crate) fn open_file_count(stack: &[OpenBlock]) -> usize
    ensures { result ≡ count_by is_file stack.now }
{
    let mut count = 0;
    for o in stack {
        if let OpenBlock::Source(_, _) = o {
            count += 1;
        }
    }
    count
}

fn opens_choice(kept: &OpenBlock) -> bool
    ensures { result ≡ is_choice kept.now }
{
    matches!(kept, OpenBlock::Block(Block::Choice, _, _))
}

/// Whether a choice is open.
pub(crate) fn in_choice(stack: &[OpenBlock]) -> bool
    ensures { result ≡ list_any is_choice stack.now }
{
    stack.iter().any(|o| opens_choice(o))
}

fn is_of(kept: &OpenBlock, texts: &[Text], path: &str) -> bool
    ensures { result ≡ is_file_of texts.now path.now kept.now }
{
    match kept {
        OpenBlock::Source(place, _) => match texts.get(*place) {
            Some(text) => text.as_str() == path,
            None => false,
        },
        OpenBlock::Block(_, _, _) => false,
    }
}

/// Whether the sourced file of a path is open.
pub(crate) fn is_path_open(stack: &[OpenBlock], texts: &[Text], path: &str) -> bool
    ensures { result ≡ list_any (is_file_of texts.now path.now) stack.now }
{
    stack.iter().any(|o| is_of(o, texts, path))
}

/// The innermost open block of the file that is being read, and its line; `None` if no block is open in that file.
pub(crate) fn innermost(stack: &[OpenBlock]) -> Option<(Block, u32)>
    ensures { result ≡ block_kept stack.now }
{
    match stack.last() {
        Some(OpenBlock::Block(block, line, _)) => Some((*block, *line)),
        _ => None,
    }
}

/// The number of the innermost choice that is open, over all open files; `None` outside choices.
pub(crate) fn enclosing_choice(stack: &[OpenBlock]) -> Option<u32>
    ensures { result ≡ choice_kept stack.now }
{
    match stack.last() {
        Some(OpenBlock::Block(_, _, choice)) => *choice,
        Some(OpenBlock::Source(_, choice)) => *choice,
        None => None,
    }
}
