//! The forms of what a command lists on standard output.

/// A form of what a command lists on standard output.
#[derive(Clone, Copy, Debug, PartialEq, Eq)]
pub enum OutputForm {
    /// Lines for people.
    Plain,
    /// Lines for programs, each a record: one JSON object.
    Json,
}
