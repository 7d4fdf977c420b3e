//! Sorts of written tokens.
ghost use Rattle.std.specs.Prelude.{◌≡◌};
ghost use Rattle.kc_macros_model.specs.Assignments.{is_trivia, is_unknown};
ghost use Rattle.kc_macros_model.specs.LineForms.{is_word, is_path, is_bare_prompt};
ghost use Rattle.kc_macro_forms.specs.between.WrittenTokens.{token_of};

use super::form_words::is_condition_word;
use super::written_tokens::WrittenToken;
use kc_macros_model::TokenSort;

/// Whether a written token is trivia: white, a comment, or a token with an empty value.
pub fn is_trivia(token: &WrittenToken) -> bool
    ensures { result ≡ is_trivia (token_of token.now) }
{
    matches!(token.sort, TokenSort::Trivia)
}

/// Whether a written token depends on a question without an answer.
pub fn is_unknown(token: &WrittenToken) -> bool
    ensures { result ≡ is_unknown (token_of token.now) }
{
    matches!(token.sort, TokenSort::Unknown)
}

/// Whether a written token is a word, which has no quotes.
pub(crate) fn is_word(token: &WrittenToken) -> bool
    ensures { result ≡ is_word (token_of token.now) }
{
    matches!(token.sort, TokenSort::Word)
}

/// Whether a written token may be a path: a word, a quoted token, or one that depends on a question without an answer.
pub(crate) fn is_path(token: &WrittenToken) -> bool
    ensures { result ≡ is_path (token_of token.now) }
{
    matches!(
        token.sort,
        TokenSort::Word | TokenSort::Quoted | TokenSort::Unknown
    )
}

/// Whether a written token may be a prompt without quotes: a word other than `if` and `on`.
pub(crate) fn is_bare_prompt(token: &WrittenToken) -> bool
    ensures { result ≡ is_bare_prompt (token_of token.now) }
{
    is_word(token) && !is_condition_word(token.bytes.as_slice())
}
