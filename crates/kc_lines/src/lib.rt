//! From the bytes of a file to its lines: physical and logical lines, and help texts.
#![tactic(auto)]

mod help;
mod lines;
mod newlines;

pub use help::{HelpText, first_columns, help_at, is_of_help};
pub use lines::{LogicalLine, PhysicalLine, logical_at, physical_at};
