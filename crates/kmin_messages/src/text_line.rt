//! The line of a message for people.
ghost use Rattle.std.specs.Prelude.{◌≡◌, ◌++◌, OnOk, IfOk};
ghost use Rattle.kmin_messages.specs.Messages.{place, after_colon, long_line};
ghost use Rattle.kmin_messages.specs.between.MessageViews.{message_of, bytes_of};

use crate::message::Message;
use itoa::Buffer;
use std::alloc::{AllocError, Global};

/// The line `FILE:LINE: error: KIND: TEXT` of a message. It begins with `kmin` in place of `FILE:LINE` where there is no file, and
/// ends with KIND where there is no text.
pub fn long_line(alloc: Global, message: &Message<'_>) -> Result<Vec<u8>, AllocError>
    ensures { IfOk result (λ line. line.items ≡ long_line (message_of message.now)) }
{
    let mut line = Vec::new(alloc);
    push_place(&mut line, message.file, message.line)?;
    line.extend_from_slice(b": ")?;
    line.extend_from_slice(message.severity.name().as_bytes())?;
    line.extend_from_slice(b": ")?;
    line.extend_from_slice(message.kind.as_bytes())?;
    push_text(&mut line, message.text)?;
    line.push(b'\n')?;
    Ok(line)
}

/// Appends `FILE:LINE`, or `kmin` where there is no file.
fn push_place(out: &mut Vec<u8>, file: Option<&[u8]>, line: u32) -> Result<(), AllocError>
    ensures { OnOk result (out.new.items ≡ out.old.items ++ place (bytes_of file.entry) line) }
{
    let Some(path) = file else {
        return out.extend_from_slice(b"kmin");
    };
    let mut digits = Buffer::new();
    out.extend_from_slice(path)?;
    out.extend_from_slice(b":")?;
    out.extend_from_slice(digits.format(line).as_bytes())
}

/// Appends a colon, a space and a text; nothing where the text is empty.
fn push_text(out: &mut Vec<u8>, text: &str) -> Result<(), AllocError>
    ensures { OnOk result (out.new.items ≡ out.old.items ++ after_colon text.now) }
{
    if text.is_empty() {
        return Ok(());
    }
    out.extend_from_slice(b": ")?;
    out.extend_from_slice(text.as_bytes())
}
