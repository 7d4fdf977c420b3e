//! Tokens of lines, and expressions.
#![tactic(auto)]

mod arena;
mod evaluate;
mod expr_parts;
mod ids;
mod laws;
mod leaf;
mod lookup;
mod names;
mod node;
mod node_store;
mod operand;
mod parse;
mod visited_set;

pub use arena::Arena;
pub use expr_parts::ExprParts;
pub use ids::{ExprId, NameId};
pub use laws::{
    each_line_has_one_reading, linux_reads_strict_lines, reading_is_the_grammar,
    token_faults_are_first_faults, tokens_are_the_language,
};
pub use lookup::{Looked, Lookup};
pub use operand::Operand;
pub use visited_set::VisitedSet;
