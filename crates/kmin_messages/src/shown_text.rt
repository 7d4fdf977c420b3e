//! Texts that a message shows.
ghost use Rattle.std.specs.Prelude.{◌≡◌, ◌≤◌, ◌<◌, ℕ, List, true, length, IfOk, IsUtf8, string_bytes, string_len};
ghost use Rattle.std.specs.Char.{is_control, digit_char};
ghost use Rattle.kmin_messages.specs.ShownTexts.{shown, shown_char, code_text, has_no_control_byte, is_plain};
ghost use Rattle.kmin_messages.specs.between.Pieces.{PushesFitting};
ghost use Rattle.kmin_messages.specs.declared.shown_text.TheConstants.{MAX_SHOWN_BYTES};

use std::alloc::{AllocError, Global};

/// The most bytes of a text that a message shows.
pub const MAX_SHOWN_BYTES: usize = 200;

/// A text as a message shows it: in one line, up to the last whole character within `MAX_SHOWN_BYTES`. A newline is `\n`, a tab
/// `\t`, a backslash `\\`, and another control character `\x` with the two hexadecimal digits of its code, also
/// U+0080 to U+009F, which some terminals obey. Of two short texts that differ what is shown differs, too.
pub fn shown(alloc: Global, text: &str) -> Result<String, AllocError>
    ensures value { IfOk result (λ t. string_bytes t ≡ shown text.now) }
    ensures short { IfOk result (λ t. string_len t ≤ MAX_SHOWN_BYTES) }
    ensures plain { IfOk result (λ t. has_no_control_byte (string_bytes t) ≡ true) }
{
    let mut out = String::new(alloc);
    for c in text.chars() {
        if !push_char(&mut out, c)? {
            break;
        }
    }
    Ok(out)
}

/// Appends a character as a message shows it, if it fits. Whether it fits.
fn push_char(out: &mut String, c: char) -> Result<bool, AllocError>
    ensures { IfOk result (λ fits. PushesFitting (string_bytes out.old) (string_bytes out.new) (shown_char c) fits) }
{
    match c {
        '\n' => push_piece(out, "\\n"),
        '\t' => push_piece(out, "\\t"),
        '\\' => push_piece(out, "\\\\"),
        _ if c.is_control() => push_code(out, c),
        _ => {
            let mut bytes = [0u8; 4];
            push_piece(out, c.encode_utf8(&mut bytes))
        }
    }
}

/// Appends a piece of text, if it fits. Whether it fits.
fn push_piece(out: &mut String, piece: &str) -> Result<bool, AllocError>
    ensures { IfOk result (λ fits. PushesFitting (string_bytes out.old) (string_bytes out.new) piece.now fits) }
{
    if out.len() > MAX_SHOWN_BYTES || piece.len() > MAX_SHOWN_BYTES - out.len() {
        return Ok(false);
    }
    out.push_str(piece)?;
    Ok(true)
}

/// Appends the code of a control character as `\x` and two hexadecimal digits, if that fits. Whether it fits.
fn push_code(out: &mut String, c: char) -> Result<bool, AllocError>
    requires control { is_control c ≡ true }
    ensures { IfOk result (λ fits. PushesFitting (string_bytes out.old) (string_bytes out.new) (code_text c) fits) }
{
    if out.len() > MAX_SHOWN_BYTES - 4 {
        return Ok(false);
    }
    let code = c as u32;
    out.push_str("\\x")?;
    out.push(hex_digit(code / 16))?;
    out.push(hex_digit(code % 16))?;
    Ok(true)
}

/// The hexadecimal digit of a number.
fn hex_digit(number: u32) -> char
    requires small { number < 16 }
    ensures { result ≡ digit_char number }
{
    match char::from_digit(number, 16) {
        Some(digit) => digit,
        None => '0',
    }
}

/// A text without control characters and backslashes is shown as it is, if it has at most `MAX_SHOWN_BYTES` bytes.
pub fn plain_texts_are_shown_whole()
    ensures { (text : List ℕ) → IsUtf8 text → length text ≤ MAX_SHOWN_BYTES → is_plain text ≡ true → shown text ≡ text }
{}
