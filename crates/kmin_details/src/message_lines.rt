//! The line of a message in each form.
ghost use Rattle.std.specs.Prelude.{◌≡◌, ◌<◌, ◌^◌, true, IfOk};
ghost use Rattle.kmin_messages.specs.ShownTexts.{has_no_byte};
ghost use Rattle.kmin_messages.specs.between.MessageViews.{bytes_of};
ghost use Rattle.kmin_details.specs.OneLines.{IsOneLine, HasNoNewline};
ghost use Rattle.kmin_messages.specs.Messages.{form_line};
ghost use Rattle.kmin_details.specs.between.MessageLines.{message_of_parts};

use crate::details::{Detail, detail_names, shown_detail};
use kmin_messages::{Form, Message, Severity, json_line, long_line};
use std::alloc::{AllocError, Global};

/// The parts of a message: the name of its kind, its severity, its file, if it is of one, the line there (0 where there is none),
/// and its detail.
#[derive(Clone, Copy)]
pub struct MessageParts<'a, 'd> {
    pub kind: &'a str,
    pub severity: Severity,
    pub file: Option<&'a [u8]>,
    pub line: u32,
    pub detail: Detail<'d>,
}

/// The line of a message in a form.
pub fn message_line(
    alloc: Global,
    form: Form,
    parts: &MessageParts<'_, '_>,
) -> Result<Vec<u8>, AllocError>
    ensures { IfOk result (λ line. line.items ≡ form_line form (message_of_parts parts.now)) }
{
    let text = shown_detail(alloc, &parts.detail)?;
    let names = detail_names(alloc, &parts.detail)?;
    let message = Message {
        kind: parts.kind,
        severity: parts.severity,
        file: parts.file,
        line: parts.line,
        text: text.as_str(),
        names: names.as_slice(),
    };
    match form {
        Form::Long => long_line(alloc, &message),
        Form::Json => json_line(alloc, &message),
    }
}

/// A message is one line in each form, whatever its detail, where neither the name of its kind nor its path has a newline.
pub fn messages_are_one_line()
    ensures { (form : Form) (parts : MessageParts) → parts.line < 2 ^ 32 → has_no_byte 10 parts.kind.now ≡ true → HasNoNewline (bytes_of parts.file)
        → IsOneLine (form_line form (message_of_parts parts)) }
{}
