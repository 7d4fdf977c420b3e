//! Lines of trees with macros: an assignment or written tokens, and which lines nothing acts on.
#![tactic(auto)]

mod assignment_syntax;
mod copied_lines;
mod environment_lines;
mod line_content;
mod line_tokens;
mod marked_bytes;
mod quoted_tokens;
mod scope;
mod token_values;

pub use copied_lines::is_copied;
pub use environment_lines::read_line;
pub use line_content::LineContent;
