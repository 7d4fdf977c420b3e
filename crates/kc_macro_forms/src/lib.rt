//! The form of a line by its written tokens, and the bytes that a line becomes.
#![tactic(auto)]

mod form_words;
mod forms;
mod keywords;
mod line_texts;
mod significant_tokens;
mod token_sorts;
mod written_tokens;

pub use form_words::{is_help_word, is_prompt_word, is_source_word};
pub use forms::{LineForm, SourceSort, is_help_line, is_undecided, line_form};
pub use keywords::is_keyword;
pub use line_texts::{
    line_bytes, source_line, with_bare_prompt, with_replacement, without_choice_name,
};
pub use token_sorts::{is_trivia, is_unknown};
pub use written_tokens::{
    WrittenToken, new_token, push_escaped, quoted_text_token, token_of_text, token_of_value,
};
