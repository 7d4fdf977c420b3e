//! The commands of `kmin` and its bundles: what each reads, what it writes, and its exit status.
#![tactic(auto)]

mod asked_forms;
mod bundle;
mod bundle_output;
mod job_output;
mod output_file;
mod program;
mod tidy_command;
mod wants_command;

pub use job_output::serve;
pub use kmin_inputs::{FileStop, Files};
pub use output_file::save;
pub use program::{HasState, Program};
pub use wants_command::list_questions;
