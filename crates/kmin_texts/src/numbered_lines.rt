//! Lines of a file, by their numbers, and the texts of messages for them.
ghost use Rattle.std.specs.Prelude.{◌≡◌, ℕ, List, Some, None, drop, option_map, IfOk, string_bytes, if◌then◌else◌};
ghost use Rattle.std.specs.Str.{is_utf8};
ghost use Rattle.std.specs.Borrow.{Bor};
ghost use Rattle.kc_value.specs.Lines.{pieces};
ghost use Rattle.kmin_texts.specs.NumberedLines.{file_fault_text, line_at, utf8_line};

use kc_dotconfig_model::LoadKind;
use kmin_details::file_line_text;
use kmin_lines::first_piece;
use std::alloc::{AllocError, Global};

/// The bytes of a file after this many lines.
pub fn after_lines(bytes: &[u8], count: u32) -> &[u8]
    ensures { pieces 10 result.now ≡ drop count (pieces 10 bytes.now) }
{
    let mut rest = bytes;
    let mut left = count;
    while left > 0 {
        let Some((_, after)) = first_piece(rest, b'\n') else {
            return rest;
        };
        rest = after;
        left -= 1;
    }
    rest
}

/// The line of a file with this number, counted from 1, without its newline; `None` if there is none.
pub fn line_at(bytes: &[u8], number: u32) -> Option<&[u8]>
    ensures { option_map (λ (line : Bor (List ℕ)). line.now) result ≡ line_at bytes.now number }
{
    if number == 0 {
        return None;
    }
    match first_piece(after_lines(bytes, number - 1), b'\n') {
        Some((line, _)) => Some(line),
        None => None,
    }
}

/// The text for a fault at a line of a configuration file. Empty if there is no such line.
pub fn file_fault_text(
    alloc: Global,
    kind: LoadKind,
    bytes: &[u8],
    number: u32,
) -> Result<String, AllocError>
    ensures { IfOk result (λ text. string_bytes text ≡ file_fault_text kind bytes.now number) }
{
    match line_at(bytes, number) {
        Some(line) => file_line_text(alloc, kind, line),
        None => Ok(String::new(alloc)),
    }
}

/// A line, if there is one and it is UTF-8.
pub(crate) fn utf8_line(line: Option<&[u8]>) -> Option<&str>
    ensures { option_map (λ (text : Bor (List ℕ)). text.now) result ≡ utf8_line (option_map (λ (bytes : Bor (List ℕ)). bytes.now) line.entry) }
{
    match line {
        Some(line) => utf8_or_none(line),
        None => None,
    }
}

/// Bytes as a text, if they are UTF-8.
pub(crate) fn utf8_or_none(bytes: &[u8]) -> Option<&str>
    ensures { option_map (λ (text : Bor (List ℕ)). text.now) result ≡ (if is_utf8 bytes.now then Some bytes.now else None) }
{
    match str::from_utf8(bytes) {
        Ok(text) => Some(text),
        Err(_) => None,
    }
}
