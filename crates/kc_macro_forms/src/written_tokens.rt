//! How tokens are written once their references have values.
ghost use Rattle.std.specs.Prelude.{◌≡◌, ◌++◌, ◌||◌, ◌&&◌, ◌==◌, not, OnOk, IfOk};
ghost use Rattle.std.specs.List.{list_all};
ghost use Rattle.kc_macros_model.specs.WrittenTokens.{is_bare_byte, is_keyword, escaped_text, in_quotes_of, written_as, token_of_text, token_of_value};
ghost use Rattle.kc_macros_model.specs.LineForms.{quoted_text_token};
ghost use Rattle.kc_macro_forms.specs.between.WrittenTokens.{token_of};

use super::keywords::is_keyword;
use kc_macros::Bytes;
use kc_macros_model::TokenSort;
use std::alloc::{AllocError, Global};

/// A token as the expansion writes it: its sort, its bytes, and the text that they mean, if it is known.
#[derive(Drop)]
pub struct WrittenToken {
    pub sort: TokenSort,
    pub bytes: Bytes,
    pub meaning: Option<Bytes>,
}

/// A written token with copies of these bytes and of this meaning.
pub fn new_token(
    alloc: Global,
    sort: TokenSort,
    bytes: &[u8],
    meaning: &[u8],
) -> Result<WrittenToken, AllocError>
    ensures { IfOk result (λ t. token_of t ≡ written_as sort bytes.now meaning.now) }
{
    Ok(WrittenToken {
        sort,
        bytes: Bytes::copied(alloc, bytes)?,
        meaning: Some(Bytes::copied(alloc, meaning)?),
    })
}

/// A letter, a digit, `_` or `-`.
fn is_bare_byte(byte: u8) -> bool
    ensures { result ≡ is_bare_byte byte }
{
    byte.is_ascii_alphanumeric() || byte == b'_' || byte == b'-'
}

/// Whether each byte is a letter, a digit, `_` or `-`.
fn is_bare(text: &[u8]) -> bool
    ensures { result ≡ list_all is_bare_byte text.now }
{
    text.iter().all(|&byte| is_bare_byte(byte))
}

/// Whether a byte is written with a backslash between quotes.
fn is_escaped(byte: u8, quote: u8) -> bool
    ensures { result ≡ (byte == 92 || (byte == 36) || (byte == quote)) }
{
    byte == b'\\' || byte == b'$' || byte == quote
}

/// Appends a text, with a backslash before each backslash, each `$` and each byte that is `quote`.
pub fn push_escaped(out: &mut Vec<u8>, quote: u8, text: &[u8]) -> Result<(), AllocError>
    ensures { OnOk result (out.new.items ≡ out.old.items ++ escaped_text quote text.now) }
{
    'bytes: for i in 0..text.len() {
        let byte = text[i];
        if is_escaped(byte, quote) {
            out.push(b'\\')?;
        }
        out.push(byte)?;
    }
    Ok(())
}

/// A text in quotes.
fn in_quotes(alloc: Global, quote: u8, text: &[u8]) -> Result<Bytes, AllocError>
    ensures { IfOk result (λ b. b ≡ in_quotes_of quote text.now) }
{
    let mut bytes = Vec::new(alloc);
    bytes.push(quote)?;
    push_escaped(&mut bytes, quote, text)?;
    bytes.push(quote)?;
    Ok(Bytes::from_vec(bytes))
}

/// A text as a written token in double quotes.
pub fn quoted_text_token(alloc: Global, text: &[u8]) -> Result<WrittenToken, AllocError>
    ensures { IfOk result (λ t. token_of t ≡ quoted_text_token text.now) }
{
    Ok(WrittenToken {
        sort: TokenSort::Quoted,
        bytes: in_quotes(alloc, b'"', text)?,
        meaning: Some(Bytes::copied(alloc, text)?),
    })
}

/// A text as one written token: a space if it is empty; a word if it has only letters, digits, `_` and `-` and is no keyword;
/// otherwise a quoted token.
pub fn token_of_text(alloc: Global, text: &[u8]) -> Result<WrittenToken, AllocError>
    ensures { IfOk result (λ t. token_of t ≡ token_of_text text.now) }
{
    if text.is_empty() {
        return new_token(alloc, TokenSort::Trivia, b" ", b"");
    }
    if is_bare_word(text) {
        return new_token(alloc, TokenSort::Word, text, text);
    }
    quoted_text_token(alloc, text)
}

/// Whether a text is bare and no keyword.
fn is_bare_word(text: &[u8]) -> bool
    ensures { result ≡ (list_all is_bare_byte text.now && not (is_keyword text.now)) }
{
    is_bare(text) && !is_keyword(text)
}

/// The value of a run (a token of word bytes and references) as one written token; an unknown value has the sort `Unknown`.
pub fn token_of_value(alloc: Global, value: &Option<Bytes>) -> Result<WrittenToken, AllocError>
    ensures { IfOk result (λ t. token_of t ≡ token_of_value value.now) }
{
    match value {
        Some(text) => token_of_text(alloc, text.as_slice()),
        None => Ok(WrittenToken {
            sort: TokenSort::Unknown,
            bytes: Bytes::from_vec(Vec::new(alloc)),
            meaning: None,
        }),
    }
}
