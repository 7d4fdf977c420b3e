//! The lines of texts: the first of a text, those that another text lacks and how many these are, whether two texts have the same, the
//! paths that a list names, and the words in files.
#![tactic(auto)]

mod counts;
mod lacking;
mod laws;
mod line_bag;
mod list;
mod pieces;
mod same_lines;
mod word_files;
mod word_lines;

pub use counts::{LineCounts, count_lines};
pub use lacking::lacking_lines;
pub use laws::{lacking_lines_are_counted, last_lines_are_lacking};
pub use list::{ListFault, listed_paths};
pub use pieces::first_piece;
pub use same_lines::have_same_lines;
pub use word_files::{files_of, with_files};
pub use word_lines::WordFault;
