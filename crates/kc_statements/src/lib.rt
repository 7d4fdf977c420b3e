//! The statements of a tree's lines, by their tokens: first words, forms, and the statements themselves.
#![tactic(auto)]

mod attributes;
mod condition;
mod fault;
mod forms;
mod heads;
mod keyword;
mod options;
mod placement;
mod range;
mod statement;
mod token;

pub use fault::tree_kind_of;
pub use forms::statement_of;
pub use keyword::keyword_of;
pub use placement::{allows_attribute, is_left_out};
pub use statement::{ReadAttribute, ReadDefault, ReadHead, ReadRange, ReadStatement, ReadTarget};
