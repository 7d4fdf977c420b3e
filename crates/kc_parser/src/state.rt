//! The state of the reader.
ghost use Rattle.std.specs.Prelude.{◌≡◌, ◌≤◌, length, take};
ghost use Rattle.kc_value.specs.declared.limits.TheConstants.{MAX_CHOICES, MAX_FILES, MAX_TREE_BYTES};

use super::listing::Listing;
use kc_tree_model::{Block, Texts};
use kc_value::Text;
use std::alloc::Global;

/// A line of a file, which is given by its number.
#[derive(Clone, Copy)]
pub(crate) struct Position {
    pub file: u32,
    pub line: u32,
}

/// An open block with its first line, or an open sourced file, by the index of its path among the texts; each with the
/// number of the choice that the statements in it are in, which may be the block itself.
#[derive(Clone, Copy)]
pub(crate) enum OpenBlock {
    Block(Block, u32, Option<u32>),
    Source(usize, Option<u32>),
}

/// The state of the reader: the listing so far, the open blocks and files with the innermost last, and the counts of
/// choices, files and bytes.
#[derive(Drop)]
pub(crate) struct ReaderState {
    pub alloc: Global,
    pub listing: Listing,
    pub stack: Vec<OpenBlock>,
    pub choices: usize,
    pub files: usize,
    pub bytes: usize,
    ghost few_choices: { choices ≤ MAX_CHOICES },
    ghost few_files: { files ≤ MAX_FILES },
    ghost few_bytes: { bytes ≤ MAX_TREE_BYTES },
}

/// The files that a reader may read, the path of the first one, and whether an absent file is read as an empty one.
#[derive(Clone, Copy)]
pub(crate) struct SourceFiles<'a> {
    pub texts: &'a Texts,
    pub root: &'a str,
    pub absent_is_empty: bool,
}

/// A file of a Kconfig tree: its number, its bytes, and these as a text, which is empty if they aren't UTF-8.
#[derive(Clone, Copy)]
pub(crate) struct SourceFile<'a> {
    pub number: u32,
    pub bytes: &'a [u8],
    pub text: &'a str,
    ghost front: { text.now ≡ take (length text.now) bytes.now },
}

/// The next thing to read after a line: the next line, a help text, or a sourced file.
#[derive(Drop)]
pub(crate) enum Step {
    Next,
    Help,
    Source(Text),
}
