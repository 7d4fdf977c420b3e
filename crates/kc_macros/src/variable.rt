//! Variables.
use super::bytes::Bytes;

/// A variable: a simple one has a value, which is unknown where it depends on a question without an answer; a recursive
/// one has a text that is expanded at each use.
#[derive(Drop)]
pub enum Variable {
    Simple(Option<Bytes>),
    Recursive(Bytes),
}
