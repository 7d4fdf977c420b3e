//! The texts of messages: of a line at fault, of a file that can't be read, of a limit, of a cycle, of another place, and of names.
//! The line of a report with one of these in each form that has a text.
#![tactic(auto)]

mod cycle_steps;
mod details;
mod kinds;
mod limits;
mod line_words;
mod message_lines;
mod names;
mod near_names;
mod near_symbols;
mod places;
mod report_lines;
mod tree_lines;

pub use cycle_steps::cycle_text;
pub use details::{Detail, detail_names, shown_detail, without_words};
pub use kinds::{file_line_text, notice_detail, tree_line_text};
pub use kmin_faults::{Cause, Limit, Step};
pub use limits::limit_text;
pub use line_words::{first_run, first_word, named_on};
pub use message_lines::{MessageParts, message_line, messages_are_one_line};
pub use names::{unknown_text, value_text};
pub use near_names::nearest;
pub use near_symbols::nearest_symbol;
pub use places::{Unreadable, first_place_text, missing_text};
pub use report_lines::line_in;
pub use tree_lines::{bad_token_text, first_token, left_out_text};
