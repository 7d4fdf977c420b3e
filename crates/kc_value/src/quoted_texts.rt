//! Texts in quotes.
ghost use Rattle.std.specs.Prelude.{◌≡◌, ◌+◌, ◌-◌, ◌<◌, ◌≤◌, ℕ, List, take, false, length, slice_index, ◌++◌, OnOk, OnErr, IfOk, IfSome, IfNone, string_bytes};
ghost use Rattle.kc_value.specs.QuotedTexts.{quoted, closing, unescaped, IsQuoted};
ghost use Rattle.kc_value.specs.checker.TextsInQuotes.{HasQuotes};

use std::alloc::{AllocError, Global};

/// Appends to `out` the quoted spelling of a text: between two `"`, with a `\` before each `"` and each `\`. An `Err` means out
/// of memory, and leaves `out` as it was.
pub fn push_escaped(out: &mut Vec<u8>, text: &str) -> Result<(), AllocError>
    ensures ok { OnOk result (out.new.items ≡ out.old.items ++ quoted text.now) }
    ensures err { OnErr result (out.new.items ≡ out.old.items) }
{
    let len = out.len();
    let pushed = push_quoted(out, text);
    if pushed.is_err() {
        out.truncate(len);
    }
    pushed
}

/// Appends to `out` the quoted spelling of a text. An `Err` means out of memory, and may leave a part of the spelling there.
fn push_quoted(out: &mut Vec<u8>, text: &str) -> Result<(), AllocError>
    ensures ok { OnOk result (out.new.items ≡ out.old.items ++ quoted text.now) }
    ensures kept { take (length out.old.items) out.new.items ≡ out.old.items }
{
    out.push(b'"')?;
    for byte in text.as_bytes() {
        if *byte == b'"' || *byte == b'\\' {
            out.push(b'\\')?;
        }
        out.push(*byte)?;
    }
    out.push(b'"')?;
    Ok(())
}

/// The count of bytes after an opening quote up to and including the closing one. A byte after a backslash closes nothing. `None`
/// if there is no closing quote.
pub fn closing_quote(quote: u8, bytes: &[u8]) -> Option<usize>
    ensures place { result ≡ closing quote false bytes.now }
    ensures within { IfSome result (λ n. (0 < n) × (n ≤ length bytes.now)) }
    ensures quote { IfSome result (λ n. slice_index bytes.now (n - 1) ≡ quote) }
{
    let mut escaped = false;
    for (i, byte) in bytes.iter().enumerate() {
        if escaped {
            escaped = false;
        } else if *byte == quote {
            return Some(i + 1);
        } else {
            escaped = *byte == b'\\';
        }
    }
    None
}

/// The text that the characters between two quotes represent: a pair of a backslash and a character represents that character,
/// any other character itself. An `Err` means out of memory.
pub fn unescape(alloc: Global, text: &str) -> Result<String, AllocError>
    ensures { IfOk result (λ t. string_bytes t ≡ unescaped false text.now) }
{
    let mut read = String::new(alloc);
    let mut escaped = false;
    for c in text.chars() {
        if c == '\\' && !escaped {
            escaped = true;
        } else {
            read.push(c)?;
            escaped = false;
        }
    }
    Ok(read)
}

/// The part of a quoted text between its two `"`; `None` if the text isn't quoted.
fn between_quotes(text: &str) -> Option<&str>
    ensures body { IfSome result (λ b. HasQuotes text.now b.now) }
    ensures none { IfNone result ((means : List ℕ) → IsQuoted text.now means → ⊥) }
{
    let bytes = text.as_bytes();
    if bytes.is_empty() || bytes[0] != b'"' {
        return None;
    }
    let n = closing_quote(b'"', &bytes[1..])?;
    if n + 1 < bytes.len() {
        return None;
    }
    Some(&text[1..n])
}

/// The text that a quoted text represents. A quoted text is a `"`, then characters other than `"` and `\` or pairs of a `\` and
/// any character, then a `"`. `None` for every other text. An `Err` means out of memory.
pub fn read_quoted(alloc: Global, text: &str) -> Result<Option<String>, AllocError>
    ensures read { IfOk result (λ o. IfSome o (λ t. IsQuoted text.now (string_bytes t))) }
    ensures none { IfOk result (λ o. IfNone o ((means : List ℕ) → IsQuoted text.now means → ⊥)) }
{
    match between_quotes(text) {
        None => Ok(None),
        Some(body) => Ok(Some(unescape(alloc, body)?)),
    }
}

/// The quoted spelling of a text represents that text, and no quoted text represents two texts.
pub fn quoted_texts_read_back()
    ensures spelled { (text : List ℕ) → IsQuoted (quoted text) text }
    ensures one { (whole a b : List ℕ) → IsQuoted whole a → IsQuoted whole b → a ≡ b }
{}
