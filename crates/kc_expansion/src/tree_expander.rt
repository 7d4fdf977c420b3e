//! The state of a reading of a tree.
use super::line_steps::LineState;
use super::read_counts::ReadCounts;
use kc_files::{ExpandedFiles, FileCache};
use std::alloc::Global;

/// A reading of a tree: the state that its lines change, the files and folders that were read, the expanded files, and how
/// many files and bytes were read and names listed.
#[derive(Drop)]
pub(crate) struct TreeExpander<'a> {
    pub alloc: Global,
    pub lines: LineState<'a>,
    pub store: FileCache,
    pub expanded: ExpandedFiles,
    pub counts: ReadCounts,
    pub listed: usize,
}
