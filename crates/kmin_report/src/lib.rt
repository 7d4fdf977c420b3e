//! Messages, the lines of standard error, and the statuses of runs that end early.
#![tactic(auto)]

mod file_names;
mod message;
mod messages;
mod notices;
mod output;
mod plain_messages;
mod run_error;
mod symbol_names;

pub use file_names::file_name;
pub use message::{Message, write_plain_line};
pub use messages::Messages;
pub use notices::report_notices;
pub use output::{exit_status, write_output};
pub use plain_messages::PlainMessages;
pub use run_error::RunError;
pub use symbol_names::name_of;
