//! The lines of a symbol's conditions, defaults, ranges, selects and implies.
#![tactic(auto)]

mod blocks;
mod contexts;
mod index;
mod located;
mod own_lines;
mod symbol;
mod targets;

pub use index::LineIndex;
pub use located::{LocatedExpr, Position, SymbolLines};
