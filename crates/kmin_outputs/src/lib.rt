//! The configurations of a job's files over its tree, and the texts of commands over them.
#![tactic(auto)]

mod command_end;
mod configurations;
mod symbol_lines;
mod verb_texts;

pub use command_end::finish;
pub use configurations::{
    ReadFiles, add_fragment, allowed, configured, configured_by, load, notice_choices,
    report_load_fault, unassigned,
};
pub use verb_texts::{JobOutput, compared, list_status, output_of_verb};
