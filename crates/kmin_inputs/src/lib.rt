//! The files that a command reads beside its tree and its configurations: files of words, lists of paths and files of answers.
#![tactic(auto)]

mod answers;
mod files;
mod list_files;
mod word_files;

pub use answers::{answers_and_questions, job_answers};
pub use files::Files;
pub use kc_files::FileStop;
pub use list_files::read_list;
pub use word_files::{WordFiles, read_word_files};
