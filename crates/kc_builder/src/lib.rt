//! Reads Kconfig files and builds their tree: all conditions joined, and the lists that the tree stores.
#![tactic(auto)]

mod builder;
mod choice_defaults;
mod choice_rows;
mod definition_attributes;
mod definitions;
mod entries;
mod group_attributes;
mod group_parts;
mod rows;
mod tree_lines;
mod tree_reader;

pub use kc_checks::wanted;
pub use tree_lines::{TreeLines, TreeWithLines};
pub use tree_reader::{read_tree, read_tree_with_lines};
