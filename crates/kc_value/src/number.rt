//! Number texts: int and hex texts as they are read and printed.
ghost use Rattle.std.specs.Prelude.{◌≡◌, ◌^◌, ◌<◌, ◌≤◌, ◌↔◌, ℕ, ℤ, List, Some, IfOk, string_bytes};
ghost use Rattle.kc_value.specs.checker.DigitStep.{with_digit};
ghost use Rattle.kc_value.specs.Number.{magnitude, int_text, hex_text, loose_number, without_prefix, number_of_text, number_spelling, IsPrintable};
ghost use Rattle.kc_value.specs.NumberGrammar.{IsInt, IsHex, IsLoose};

use super::limits::MAX_NUMBER_BYTES;
use super::value::Kind;
use itoa::Buffer;
use std::alloc::{AllocError, Global};

/// The number with one more digit at its end; `None` if the byte is no digit of the base, or the number has over 64 bits.
fn push_digit(value: u64, byte: u8, base: u32) -> Option<u64>
    requires low { 2 ≤ base }
    requires high { base ≤ 36 }
    ensures value { result ≡ with_digit base (2 ^ 64) value byte }
{
    let digit = char::from(byte).to_digit(base)?;
    value.checked_mul(base as u64)?.checked_add(digit as u64)
}

/// The number that one or more digits of a base write; `None` for every other text, and for a number of over 64 bits.
fn digits(text: &[u8], base: u32) -> Option<u64>
    requires low { 2 ≤ base }
    requires high { base ≤ 36 }
    ensures value { result ≡ magnitude base (2 ^ 64) text.now }
{
    if text.is_empty() {
        return None;
    }
    let mut value: u64 = 0;
    for byte in text {
        value = push_digit(value, *byte, base)?;
    }
    Some(value)
}

/// The text without `0x` or `0X` in front.
fn strip_prefix(text: &[u8]) -> &[u8]
    ensures { result.now ≡ without_prefix text.now }
{
    match text {
        [b'0', b'x', rest @ ..] => rest,
        [b'0', b'X', rest @ ..] => rest,
        _ => text,
    }
}

/// The number of an int text: an optional `-`, then decimal digits, of a magnitude of at most 2^63 - 1. `None` for
/// every other text, and for one of more than 64 bytes.
#[tactic(auto, unfolding(crate::specs::Number::int_text))]
pub fn int_of(text: &[u8]) -> Option<i128>
    ensures { result ≡ int_text text.now }
{
    if text.len() > MAX_NUMBER_BYTES {
        return None;
    }
    let (negative, rest) = match text {
        [b'-', rest @ ..] => (true, rest),
        _ => (false, text),
    };
    let value = digits(rest, 10)?;
    if value >= 1 << 63 {
        return None;
    }
    if negative {
        Some(-(value as i128))
    } else {
        Some(value as i128)
    }
}

/// The number of a hex text: an optional `0x` or `0X`, then hex digits, at most 2^64 - 1. `None` for every other text,
/// and for one of more than 64 bytes.
#[tactic(auto, unfolding(crate::specs::Number::hex_text))]
pub fn hex_of(text: &[u8]) -> Option<i128>
    ensures { result ≡ hex_text text.now }
{
    if text.len() > MAX_NUMBER_BYTES {
        return None;
    }
    let value = digits(strip_prefix(text), 16)?;
    Some(value as i128)
}

/// The number of a text that isn't of an int or a hex symbol: a text that begins with `0x` or `0X` is read as a hex text, any
/// other as an int text. `None` if it has no number as such a text.
#[tactic(auto, unfolding(crate::specs::Number::loose_number))]
pub fn loose_number_of(text: &[u8]) -> Option<i128>
    ensures { result ≡ loose_number text.now }
{
    if strip_prefix(text).len() < text.len() {
        hex_of(text)
    } else {
        int_of(text)
    }
}

/// `int_text`, `hex_text` and `loose_number` read a text as a number exactly where the text has that number by the grammars
/// `IsInt`, `IsHex` and `IsLoose`.
pub fn number_texts_are_the_grammars()
    ensures int { (text : List ℕ) (z : ℤ) → (int_text text ≡ Some z) ↔ IsInt text z }
    ensures hex { (text : List ℕ) (z : ℤ) → (hex_text text ≡ Some z) ↔ IsHex text z }
    ensures loose { (text : List ℕ) (z : ℤ) → (loose_number text ≡ Some z) ↔ IsLoose text z }
{}

/// The canonical text of a number of an int or a hex symbol, without leading zeros: decimal digits, after a minus where it is
/// negative, for an int; `0x` and lower-case hex digits for a hex. An `Err` means out of memory.
pub fn number_text(alloc: Global, kind: Kind, value: i128) -> Result<String, AllocError>
    requires fits { IsPrintable kind value }
    ensures text { IfOk result (λ t. string_bytes t ≡ number_spelling kind value) }
    ensures reads_back { IfOk result (λ t. number_of_text kind (string_bytes t) ≡ Some value) }
{
    match kind {
        Kind::Int => {
            let mut buffer = Buffer::new();
            String::from_str(alloc, buffer.format(value))
        }
        Kind::Hex => {
            let value = value as u64;
            format!(in alloc; "0x{value:x}")
        }
        Kind::Bool | Kind::Tristate | Kind::Text => unreachable!(),
    }
}
