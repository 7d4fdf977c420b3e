//! The commands of `kmin` with their options, and what the options give that several commands share.
#![tactic(auto)]

mod expansion_words;
mod job;
mod prefix_words;
mod refusal;
mod values;

pub use expansion_words::{check_inputs, expansion_if_given, expansion_of};
pub use job::{
    Definition, ExpansionOptions, ExplainFlags, ExplainJob, Job, MissedForm, OutputJob, PathList,
    Question, Questions, Settings, Task, TidyFlags, TidyJob, Verb,
};
pub use prefix_words::name_prefix_of;
pub use refusal::Refusal;
pub use values::{is_given, value_of, values_of};
