//! Macros of Kconfig trees: variables, references to them, and the tree in which they are expanded.
#![tactic(auto)]

mod built_in;
mod environment_names;
mod fault;
mod laws;
mod operator;
mod source_kinds;
mod token_sort;

pub use built_in::BuiltIn;
pub use environment_names::is_environment_name;
pub use fault::{AnswersFault, AnswersKind, MacroKind, MacroNoticeKind};
pub use laws::{
    answers_not_asked_change_nothing, expansion_follows_rules, expansion_never_stops,
    keys_are_bounded, lines_are_kept, nothing_is_left_to_expand, nothing_wanted_is_expanded,
    plain_texts_stay, plain_trees_stay, readings_are_bounded, values_are_bounded, wanted_is_needed,
};
pub use operator::Operator;
pub use source_kinds::MACRO_KINDS;
pub use token_sort::TokenSort;
