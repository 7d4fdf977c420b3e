//! Files of answers to the questions of macros, read exactly.
#![tactic(auto)]

mod answer_files;
mod answer_lines;
mod answers;
mod file_records;
mod line_records;

pub use answer_lines::{byte_at, without_white_end};
pub use answers::Answers;
