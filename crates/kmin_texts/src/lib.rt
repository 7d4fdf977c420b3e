//! The lines of reports in the forms that have a text, with what the files that they are about say; standard error whose form can be
//! set.
#![tactic(auto)]

mod fault_details;
mod form_messages;
mod formed_messages;
mod joined_names;
mod kept_details;
mod line_files;
mod notice_details;
mod numbered_lines;
mod text_details;
mod worded_lines;

pub use form_messages::{FormMessages, Wording};
pub use formed_messages::FormedMessages;
pub use line_files::{LineFiles, Reread};
pub use numbered_lines::{after_lines, file_fault_text, line_at};
