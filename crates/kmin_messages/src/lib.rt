//! Messages, and their spellings for people and for programs.
#![tactic(auto)]

mod message;
mod object_line;
mod shown_text;
mod text_line;

pub use message::{Form, Message, Severity};
pub use object_line::{json_line, json_lines_read_back};
pub use shown_text::{MAX_SHOWN_BYTES, plain_texts_are_shown_whole, shown};
pub use text_line::long_line;
