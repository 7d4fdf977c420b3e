//! The expansion of a tree: each file is read where a line sources it, and written with the values of its macros.
#![tactic(auto)]

mod choice_names;
mod copied_lines;
mod expansion;
mod faults;
mod file_lines;
mod help_words;
mod laws;
mod line_places;
mod line_steps;
mod open_files;
mod read_counts;
mod source_faults;
mod source_lines;
mod source_paths;
mod source_reads;
mod tree_expander;
mod tree_reading;
mod written_file;

pub use expansion::{ExpansionOutcome, expand, unused, wants};
pub use kc_files::{ExpandedText, ExpandedTree};
pub use kc_value::{MAX_FILES, MAX_LINE_BYTES, MAX_LISTED_NAMES, MAX_OPEN_FILES, MAX_TREE_BYTES};
pub use laws::{accepted_lines_stay, accepted_trees_stay, expanded_trees_stay};
