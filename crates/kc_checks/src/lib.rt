//! The checks of a listing before its tree is built: missing files, a summary of its symbols and choices, and the first fault of
//! the checks on the whole tree.
#![tactic(auto)]

mod attribute_checks;
mod fault_kinds;
mod group_lines;
mod marks;
mod missing_files;
mod name_checks;
mod paths;
mod search;
mod summary;

pub use group_lines::{end_of, lines_of, part};
pub use missing_files::{is_out_of_memory, wanted};
pub use search::{Checks, begins_choice};
pub use summary::{Summary, SymbolSummary};
