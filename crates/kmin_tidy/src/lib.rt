//! Compares configuration files with their minimal files, and replaces them if that is an option of the run.
#![tactic(auto)]

mod accepted_file;
mod differences;
mod file_lines;
mod file_step;
mod laws;
mod options;
mod outcome;
mod report;
mod run;
mod stop;
mod whole_run;

pub use accepted_file::{AcceptedFile, read_source};
pub use laws::files_with_the_same_values_get_the_same_bytes;
pub use options::{Tidier, TidyOptions};
pub use outcome::FileOutcome;
pub use run::tidy_files;
