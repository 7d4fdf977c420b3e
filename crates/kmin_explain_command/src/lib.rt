//! The commands that give reasons, `explain` and others: their files, their output and their exit status.
#![tactic(auto)]

mod command;
mod lined_file;
mod lined_files;
mod questions;
mod texts;
mod unknown_names;

pub use command::explain;
