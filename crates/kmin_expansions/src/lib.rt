//! The expansion of a job's tree: its expanded files as texts, the questions of its macros, and the answers that these don't use.
#![tactic(auto)]

mod expanded_trees;
mod laws;
mod questions;
mod tree_folder;

pub use expanded_trees::{ExpandedTexts, Wanted, expanded_tree};
pub use laws::known_files_determine_the_expanded_tree;
pub use questions::wanted_of;
pub use tree_folder::path_below;
