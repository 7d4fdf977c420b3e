//! The reasons of a symbol over a configuration, and the lines of its files that ask for a value of it.
#![tactic(auto)]

mod config_reasons;
mod file_lines;
mod file_reader;
mod places;

pub use config_reasons::{reasons_in, valuation};
pub use file_lines::{AskingLine, FileLines};
pub use file_reader::lines_of_file;
pub use places::{AskingPlace, Overridden, deciding_line, overridden_lines};
