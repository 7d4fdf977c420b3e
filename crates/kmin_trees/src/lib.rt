//! The tree of a job, read with or without the expansion of macros.
#![tactic(auto)]

mod file_names;
mod job_trees;
mod laws;
mod lined_trees;
mod prefetch;
mod read_trees;
mod tree_files;
mod trees;

pub use file_names::FileNames;
pub use job_trees::job_tree;
pub use laws::known_files_determine_the_tree;
pub use lined_trees::{LinedTree, job_tree_with_lines};
pub use trees::{read_texts, settled_tree};
