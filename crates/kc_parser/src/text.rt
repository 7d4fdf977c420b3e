//! The texts of files and of their lines.
ghost use Rattle.std.specs.Prelude.{◌≡◌, ◌≤◌, length, slice_range, take};
ghost use Rattle.kc_parser.specs.checker.Steps.{IsText};

use super::state::SourceFile;
use kc_tree_model::TreeKind;
use kc_value::MAX_LINE_BYTES;
use simdutf8::basic::from_utf8;

/// The text of a logical line; `LineTooLong` or `NotUtf8` if its bytes aren't a valid line.
pub(crate) fn checked_line(bytes: &[u8]) -> Result<&str, TreeKind>
    ensures { IsText bytes.now result }
{
    if bytes.len() > MAX_LINE_BYTES {
        return Err(TreeKind::LineTooLong);
    }
    match str::from_utf8(bytes) {
        Ok(text) => Ok(text),
        Err(_) => Err(TreeKind::NotUtf8),
    }
}

/// The bytes of a file as a text; the empty one if they aren't UTF-8.
pub(crate) fn whole_text(bytes: &[u8]) -> &str
    ensures { result.now ≡ take (length result.now) bytes.now }
{
    match from_utf8(bytes) {
        Ok(text) => text,
        Err(_) => "",
    }
}

/// The text of a part of a file: a part of the file's text, where that has the place, so that its bytes aren't looked at again.
pub(crate) fn text_between<'a>(
    file: SourceFile<'a>,
    from: usize,
    to: usize,
) -> Result<&'a str, TreeKind>
    requires order { from ≤ to }
    requires within { to ≤ length file.bytes.now }
    ensures { IsText (slice_range file.entry.bytes.now from to) result }
{
    let Some(text) = file.text.get(from..to) else {
        return checked_line(&file.bytes[from..to]);
    };
    if text.as_bytes().len() > MAX_LINE_BYTES {
        return Err(TreeKind::LineTooLong);
    }
    Ok(text)
}
