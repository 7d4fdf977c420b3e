//! Texts cut into pieces, each ended by a byte.
ghost use Rattle.std.specs.Prelude.{◌≡◌, ◌∷◌, [], ◌<◌, length, true, IfSome, IfNone};
ghost use Rattle.kc_value.specs.Lines.{pieces, has_no_byte};
ghost use Rattle.kmin_lines.specs.Lines.{BeginsWithPiece, without_carriage_return};

use bstr::ByteSlice;

/// The bytes of a text before its first byte `ender`, and the bytes after that; without such a byte, the whole text and no bytes.
/// `None` for an empty text.
pub fn first_piece(text: &[u8], ender: u8) -> Option<(&[u8], &[u8])>
    ensures bytes { IfSome result (λ found. BeginsWithPiece ender text.now found.0.now found.1.now) }
    ensures alone { IfSome result (λ found. has_no_byte ender found.0.now ≡ true) }
    ensures piece { IfSome result (λ found. pieces ender text.now ≡ found.0.now ∷ pieces ender found.1.now) }
    ensures shorter { IfSome result (λ found. length found.1.now < length text.now) }
    ensures none { IfNone result (text.now ≡ []) }
{
    if text.is_empty() {
        return None;
    }
    match text.find_byte(ender) {
        Some(at) => Some((&text[..at], &text[at + 1..])),
        None => Some((text, &text[text.len()..])),
    }
}

/// A line without the carriage return at its end, if it has one.
pub(crate) fn trim_carriage_return(line: &[u8]) -> &[u8]
    ensures { result.now ≡ without_carriage_return line.now }
{
    let len = line.len();
    if len > 0 && line[len - 1] == b'\r' {
        &line[..len - 1]
    } else {
        line
    }
}
