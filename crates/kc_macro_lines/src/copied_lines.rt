//! Lines that the expansion copies.
ghost use Rattle.std.specs.Prelude.{◌≡◌, ◌==◌, ◌∷◌, true, false, get_or, pred, length, take_while};
ghost use Rattle.std.specs.List.{list_any};
ghost use Rattle.kc_macros_model.specs.LineTokens.{is_run_byte, line_tokens};
ghost use Rattle.kc_macro_lines.specs.between.CopiedLines.{IsCopied};
ghost use Rattle.kc_macro_lines.specs.checker.LineFronts.{name_token};
ghost use Rattle.kc_macro_lines.specs.checker.LinesWithoutMacros.{ends_acting, is_acting_word, bounds_prompt, may_begin_prompt, HasNoWordNext, HasNothingToExpand};

use super::assignment_syntax::{assignment_to, without_white_front};
use super::line_tokens::is_run_byte;
use super::marked_bytes::has_dollar_or_wide;
use kc_answers::byte_at;
use kc_macro_forms::{is_help_word, is_prompt_word, is_source_word};
use kc_macros::is_text;
use kc_value::MAX_TEXT_BYTES;

/// The last byte of a word; 0 of none.
fn last_byte(word: &[u8]) -> u8
    ensures { result ≡ get_or word.now (pred (length word.now)) 0 }
{
    byte_at(word, word.len().saturating_sub(1))
}

/// Whether a word ends as `source`, `help`, `---help---`, `choice` and `option` do; most words don't.
fn ends_acting(word: &[u8]) -> bool
    ensures { result ≡ ends_acting word.now }
{
    matches!(last_byte(word), b'e' | b'p' | b'-' | b'n')
}

/// Whether a line that begins with this word may be changed: a path, a help text, the name of a choice or an option may
/// follow it.
fn is_acting_word(word: &[u8]) -> bool
    ensures { result ≡ is_acting_word word.now }
{
    if !ends_acting(word) {
        return false;
    }
    is_source_word(word)
        || is_help_word(word)
        || is_text(word, b"choice")
        || is_text(word, b"option")
}

/// Whether a prompt or a title follows some word with this first and this last byte.
fn bounds_prompt(first: u8, last: u8) -> bool
    ensures { result ≡ bounds_prompt first last }
{
    (first == b'b' && last == b'l')
        || (first == b't' && last == b'e')
        || (first == b's' && last == b'g')
        || (first == b'h' && last == b'x')
        || (first == b'i' && last == b't')
        || (first == b'p' && last == b't')
        || (first == b'm' && last == b'u')
        || (first == b'c' && last == b't')
}

/// Whether a word has the first and the last byte of one that a prompt or a title follows; most other words don't.
fn may_begin_prompt(word: &[u8]) -> bool
    ensures { result ≡ may_begin_prompt word.now }
{
    bounds_prompt(byte_at(word, 0), last_byte(word))
}

/// Whether the first token of a text that is no trivia may be a word.
fn begins_word(text: &[u8]) -> bool
    ensures { result ≡ false → HasNoWordNext (line_tokens 0 text.now) }
{
    let rest = without_white_front(text);
    if rest.is_empty() {
        return false;
    }
    is_run_byte(rest[0])
}

/// Whether a line whose first word is this one, with these bytes after it, stays as it is.
fn begins_nothing_to_expand(word: &[u8], after: &[u8]) -> bool
    ensures { result ≡ true → HasNothingToExpand (name_token word.now ∷ line_tokens 0 after.now) }
{
    if is_acting_word(word) {
        return false;
    }
    if assignment_to(word, after).is_some() {
        return false;
    }
    if !may_begin_prompt(word) {
        return true;
    }
    if begins_word(after) {
        return !is_prompt_word(word);
    }
    true
}

/// How many bytes of a word are at the front of a text without `$`.
fn word_length(text: &[u8]) -> usize
    ensures { result ≡ length (take_while is_run_byte text.now) }
{
    text.iter().take_while(|byte| is_run_byte(**byte)).count()
}

/// Whether a line without `$` stays as it is, by its first token.
fn has_nothing_to_expand(text: &[u8]) -> bool
    requires no_dollar { list_any (λ c. c == 36) text.now ≡ false }
    ensures nothing { result ≡ true → HasNothingToExpand (line_tokens 0 text.now) }
{
    let rest = without_white_front(text);
    if rest.is_empty() {
        return true;
    }
    if rest[0] == b'#' {
        return true;
    }
    let length = word_length(rest);
    if length == 0 {
        return false;
    }
    let (word, after) = rest.split_at(length);
    begins_nothing_to_expand(word, after)
}

/// Whether the expansion surely copies a line: it has no `$` and at most 65,536 bytes, is UTF-8, assigns nothing, and is no
/// `source`, no beginning of a help text and of no other form that is written anew. `false` leaves it open, as for each line
/// that begins with `choice`, `option` or a quote, or has a byte that isn't ASCII.
pub fn is_copied(text: &[u8]) -> bool
    ensures { result ≡ true → IsCopied text.now }
{
    if text.len() > MAX_TEXT_BYTES {
        return false;
    }
    if has_dollar_or_wide(text) {
        return false;
    }
    has_nothing_to_expand(text)
}
