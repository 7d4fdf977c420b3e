//! The tokens of a line, and the languages of a tree.
#![tactic(auto)]

mod byte_kinds;
mod fault;
mod language;
mod plain_quotes;
mod quoted_texts;
mod token;

pub use byte_kinds::{are_name_bytes, is_white, is_word, white_end, word_len};
pub use fault::{ExprFault, ExprKind};
pub use language::{Language, LinuxVersion};
pub use quoted_texts::quoted_text;
pub use token::{NextToken, Relop, Token, TokenKind, push_tokens, tokens};
