//! Whether two texts differ in nothing but the ends of their lines.
ghost use Rattle.std.specs.Prelude.{◌≡◌};
ghost use Rattle.kmin_lines.specs.Lines.{have_same_lines};

use crate::pieces::{first_piece, trim_carriage_return};

/// Whether two texts have the same lines in the same order: they differ at most in carriage returns at the ends of lines, and in
/// whether the last line has a newline.
pub fn have_same_lines(text: &[u8], other: &[u8]) -> bool
    ensures { result ≡ have_same_lines text.now other.now }
{
    let mut left = text;
    let mut right = other;
    while let Some((line, after)) = first_piece(left, b'\n') {
        let Some((other_line, other_after)) = first_piece(right, b'\n') else {
            return false;
        };
        if trim_carriage_return(line) != trim_carriage_return(other_line) {
            return false;
        }
        left = after;
        right = other_after;
    }
    right.is_empty()
}
