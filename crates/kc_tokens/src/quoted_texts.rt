//! The texts that quoted tokens mean.
ghost use Rattle.std.specs.Prelude.{◌≡◌, IfOk, string_bytes};
ghost use Rattle.kc_tokens.specs.QuotedTexts.{between_quotes, quoted_text};
ghost use Rattle.kc_tokens.specs.Token.{is_quote};

use kc_value::unescape;
use std::alloc::{AllocError, Global};

/// The text between quotes, or all of a text that isn't quoted.
fn inside_quotes(text: &str) -> &str
    ensures { result.now ≡ between_quotes text.now }
{
    let bytes = text.as_bytes();
    let len = bytes.len();
    if len >= 2 && is_quote(bytes[0]) && is_quote(bytes[len - 1]) {
        &text[1..len - 1]
    } else {
        text
    }
}

fn is_quote(byte: u8) -> bool
    ensures { result ≡ is_quote byte }
{
    byte == b'"' || byte == b'\''
}

/// The text that a quoted token represents: the characters between its quotes, a pair of a `\` and a character being that
/// character. A text without quotes, which no token is, represents itself. An `Err` means out of memory.
pub fn quoted_text(alloc: Global, text: &str) -> Result<String, AllocError>
    ensures { IfOk result (λ t. string_bytes t ≡ quoted_text text.now) }
{
    unescape(alloc, inside_quotes(text))
}
