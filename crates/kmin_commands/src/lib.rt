//! The commands and options of `kmin`, by clap, with their help, and the help on each kind of message.
#![tactic(auto)]

mod commands;
mod help_texts;
mod kinds;
mod messages;
mod option_words;

pub use commands::{command_names, explained_names, program};
pub use kinds::kind_asked;
pub use messages::{Row, Table, message_tables};
pub use option_words::{gives_option, names_command, takes_next};
