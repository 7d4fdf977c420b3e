//! Macros of Kconfig trees: variables, and the values of texts.
#![tactic(auto)]

mod assignments;
mod bindings;
mod built_in_functions;
mod bytes;
mod events;
mod expansion_state;
mod frame;
mod names;
mod parameter;
mod partial_value;
mod references;
mod steps;
mod stop;
mod text_values;
mod variable;

pub use assignments::{Assignment, assign};
pub use bindings::Bindings;
pub use built_in_functions::is_text;
pub use bytes::Bytes;
pub use events::fault;
pub use expansion_state::ExpansionState;
pub use frame::with_innermost;
pub use kc_macros_model::{
    AnswersFault, AnswersKind, MacroKind, MacroNoticeKind, Operator, TokenSort,
};
pub use kc_value::{
    MAX_ANSWER_BYTES, MAX_ANSWER_LINE_BYTES, MAX_ANSWER_LINES, MAX_OPEN_EXPANSIONS, MAX_PIECES,
    MAX_TEXT_BYTES, MAX_WORK,
};
pub use references::{begins_reference_at, inside_length, reference_at_front};
pub use stop::{MacroFault, MacroNotice, Place, Stop};
pub use text_values::text_value;
pub use variable::Variable;
