//! The operators of assignments to macro variables.

/// The operators of assignments: `:=` stores the value of its text, `+=` appends its text, `=` stores a text that each use
/// expands.
#[derive(Clone, Copy, Debug, PartialEq, Eq)]
pub enum Operator {
    SetsNow,
    Appends,
    Sets,
}
