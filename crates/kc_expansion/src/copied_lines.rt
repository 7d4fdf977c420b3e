//! Lines that are copied as they are.
ghost use Rattle.std.specs.Prelude.{◌≡◌, ◌||◌, not, nat_lt, length};
ghost use Rattle.std.specs.Str.{is_utf8};
ghost use Rattle.kc_expansion.specs.checker.CopiedLines.{MayBeCopied};

use super::help_words::begins_help;
use kc_files::is_utf8;
use kc_macro_lines::is_copied;
use kc_value::MAX_TEXT_BYTES;

/// The line after which most help texts begin.
const USUAL_HELP: &[u8] = b"\thelp";

/// Whether a line is too long, or isn't UTF-8.
fn is_refused(text: &[u8]) -> bool
    ensures { result ≡ (nat_lt MAX_TEXT_BYTES (length text.now) || not (is_utf8 text.now)) }
{
    text.len() > MAX_TEXT_BYTES || !is_utf8(text)
}

/// Whether a help text follows a line that is copied as it is: one without macros, one that is too long, or one that isn't
/// UTF-8. `None` where the line may change.
pub(crate) fn copied_line(text: &[u8]) -> Option<bool>
    ensures { MayBeCopied text.now result }
{
    if text == USUAL_HELP {
        return Some(true);
    }
    if is_copied(text) {
        return Some(false);
    }
    if is_refused(text) {
        return Some(begins_help(text));
    }
    None
}
