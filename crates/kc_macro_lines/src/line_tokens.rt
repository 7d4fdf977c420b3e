//! The tokens of a logical line, as the expansion sees them.
ghost use Rattle.std.specs.Prelude.{◌≡◌, ◌==◌, ◌&&◌, ◌<◌, ◌≤◌, nat_lt, Bool, true, false, length, take, slice_index, slice_get, drop, not, Some, is_some};
ghost use Rattle.std.specs.List.{list_any};
ghost use Rattle.kc_macros_model.specs.References.{item_bytes, items, is_unterminated};
ghost use Rattle.kc_macros_model.specs.ExpansionRules.{begins_reference};
ghost use Rattle.kc_macros_model.specs.LineTokens.{extent, is_run_byte, run_token, quoted_token};
ghost use Rattle.kc_macro_lines.specs.checker.LineTexts.{first_item_of, first_token_of, token_view, ends_extent};

use super::token_values::has_dollar;
use kc_macros::{begins_reference_at, inside_length};
use kc_tokens::{is_white, is_word};

/// A token of a logical line: white or a comment; a run of word bytes, references and `$`; the bytes between two quotes;
/// other bytes; the rest of a line that has a `$(` without its `)`.
#[derive(Clone, Copy)]
pub(crate) enum LineToken<'a> {
    Trivia(&'a [u8]),
    Word(&'a [u8]),
    Quoted(u8, &'a [u8]),
    Other(&'a [u8]),
    Broken(&'a [u8]),
}

/// Whether a byte may be part of a run: a letter, a digit, `_`, `-`, `.`, `/` or `$`.
pub(crate) fn is_run_byte(byte: u8) -> bool
    ensures { result ≡ is_run_byte byte }
{
    is_word(byte) || byte == b'$'
}

/// Whether a text begins with a `$(` without its `)`.
fn is_unterminated_front(text: &[u8], in_quotes: bool) -> bool
    requires not_empty { 0 < length text.now }
    ensures value { result ≡ is_unterminated (first_item_of in_quotes text.now) }
{
    begins_reference_at(text, 0) && inside_length(&text[2..]).is_none()
}

/// How many bytes the reference at the front of a text has; all where it doesn't end.
fn reference_length(text: &[u8]) -> usize
    requires begins { begins_reference text.now ≡ true }
    ensures value { (q : Bool) → result ≡ length (item_bytes (first_item_of q text.now)) }
    ensures positive { 0 < result }
    ensures within { result ≤ length text.now }
{
    match inside_length(&text[2..]) {
        Some(n) => n + 3,
        None => text.len(),
    }
}

/// Whether a text begins with an escaped byte: a backslash and another byte, which counts only in quotes.
pub(crate) fn is_pair(text: &[u8], in_quotes: bool) -> bool
    requires not_empty { 0 < length text.now }
    ensures value { result ≡ (in_quotes && (slice_index text.now 0 == 92) && nat_lt 1 (length text.now)) }
{
    in_quotes && text[0] == b'\\' && text.len() > 1
}

/// How many bytes the first item of a text has: a reference, in quotes a backslash with its byte, or one byte.
pub(crate) fn item_length(text: &[u8], in_quotes: bool) -> usize
    requires not_empty { 0 < length text.now }
    ensures value { result ≡ length (item_bytes (first_item_of in_quotes text.now)) }
    ensures positive { 0 < result }
    ensures within { result ≤ length text.now }
{
    if begins_reference_at(text, 0) {
        return reference_length(text);
    }
    if is_pair(text, in_quotes) {
        return 2;
    }
    1
}

/// Whether a text has a `$(` without its `)`.
fn has_unterminated(text: &[u8], in_quotes: bool) -> bool
    ensures { result ≡ list_any is_unterminated (items in_quotes 0 text.now) }
{
    if !has_dollar(text) {
        return false;
    }
    let mut rest = text;
    'items: while !rest.is_empty() {
        if is_unterminated_front(rest, in_quotes) {
            return true;
        }
        rest = &rest[item_length(rest, in_quotes)..];
    }
    false
}

/// Whether a byte ends a run, or a quoted token with this quote.
fn ends_extent(byte: u8, quote: Option<u8>) -> bool
    ensures { result ≡ ends_extent quote byte }
{
    match quote {
        Some(quote) => byte == quote,
        None => !is_run_byte(byte),
    }
}

/// How many bytes come before the byte that ends a run, or a quoted token with this quote; references are passed over.
fn extent(text: &[u8], quote: Option<u8>) -> usize
    ensures value { result ≡ extent (is_some quote) (ends_extent quote) 0 text.now }
    ensures within { result ≤ length text.now }
{
    let mut rest = text;
    'items: while !rest.is_empty() {
        if ends_extent(rest[0], quote) {
            return text.len() - rest.len();
        }
        rest = &rest[item_length(rest, quote.is_some())..];
    }
    text.len()
}

/// The run at the front of a text.
fn run_token(text: &[u8]) -> LineToken<'_>
    ensures { token_view result ≡ run_token (take (extent false (λ d. not (is_run_byte d)) 0 text.now) text.now) }
{
    let run = &text[..extent(text, None)];
    if has_unterminated(run, false) {
        LineToken::Broken(run)
    } else {
        LineToken::Word(run)
    }
}

/// The token at the front of a text that begins with this quote.
fn quoted_token(text: &[u8], quote: u8) -> LineToken<'_>
    requires begins { slice_get text.now 0 ≡ Some quote }
    ensures value { token_view result ≡ quoted_token (extent true (λ d. d == quote) 0 (drop 1 text.now)) quote (drop 1 text.now) }
{
    let inside = &text[1..];
    let n = extent(inside, Some(quote));
    if has_unterminated(&inside[..n], true) {
        LineToken::Broken(text)
    } else if n < inside.len() {
        LineToken::Quoted(quote, &inside[..n])
    } else {
        LineToken::Other(text)
    }
}

/// The token at the front of the text of a logical line, which isn't empty.
pub(crate) fn first_token(text: &[u8]) -> LineToken<'_>
    requires not_empty { 0 < length text.now }
    ensures value { token_view result ≡ first_token_of text.now }
{
    let byte = text[0];
    if is_white(byte) {
        LineToken::Trivia(&text[..1])
    } else if byte == b'#' {
        LineToken::Trivia(text)
    } else if is_run_byte(byte) {
        run_token(text)
    } else if byte == b'"' || byte == b'\'' {
        quoted_token(text, byte)
    } else {
        LineToken::Other(&text[..1])
    }
}
