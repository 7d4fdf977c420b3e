//! The text that explains a symbol's value.
#![tactic(auto)]

mod asked_texts;
mod context;
mod explanation;
mod located_explanation;
mod part_texts;
mod place_texts;
mod spelling;
mod token_texts;
mod words;

pub use asked_texts::{
    push_asked_value, push_asks, push_line_place, push_name, push_outcome, push_value_of, push_why,
};
pub use context::Context;
pub use explanation::{is_without_prompt, name_of};
pub use located_explanation::{
    ReasonPlaces, place_at, push_located_details, push_located_first_line, push_located_unmet,
};
pub use place_texts::{path_of, push_tree_place};
pub use spelling::{SpelledToken, spelled_tokens};
pub use token_texts::push_expression;
