//! The line of a message for programs: one JSON object.
ghost use Rattle.std.specs.Prelude.{◌≡◌, ◌++◌, ◌∷◌, [], ℕ, List, ◌<◌, ◌^◌, codes, decimal, map, OnOk, IfOk};
ghost use Rattle.std.specs.Borrow.{Bor};
ghost use Rattle.json.specs.Token.{begin_object, end_object, begin_array, end_array, key, string, number};
ghost use Rattle.kmin_messages.specs.Messages.{Message as DefinedMessage, severity_name, json_line, IsOneObject};
ghost use Rattle.kmin_messages.specs.between.MessageViews.{message_of, bytes_of, AppendsTokens, file_token, name_tokens};

use crate::message::Message;
use json::Writer;
use std::alloc::{AllocError, Global};

/// The line of a message as JSON: an object with the members `kind`, `severity`, `file`, `line`, `text` and `names`. The file is
/// `null` where there is none; what isn't UTF-8 in its path is U+FFFD.
pub fn json_line(alloc: Global, message: &Message<'_>) -> Result<Vec<u8>, AllocError>
    ensures { IfOk result (λ line. line.items ≡ json_line (message_of message.now)) }
{
    let mut writer = Writer::new(Vec::new(alloc));
    writer.begin_object()?;
    write_head(alloc, &mut writer, message)?;
    write_rest(&mut writer, message)?;
    writer.end_object()?;
    let mut line = writer.into_inner();
    line.push(b'\n')?;
    Ok(line)
}

/// Writes the members `kind`, `severity` and `file`.
fn write_head(alloc: Global, writer: &mut Writer, message: &Message<'_>) -> Result<(), AllocError>
    ensures { OnOk result (AppendsTokens writer.old writer.new
        (key (codes "kind") ∷ string message.now.kind.now ∷ key (codes "severity") ∷ string (severity_name message.now.severity)
        ∷ key (codes "file") ∷ file_token (bytes_of message.now.file) ∷ [])) }
{
    write_string(writer, "kind", message.kind)?;
    write_string(writer, "severity", message.severity.name())?;
    writer.key("file")?;
    write_file(alloc, writer, message.file)
}

/// Writes the members `line`, `text` and `names`.
fn write_rest(writer: &mut Writer, message: &Message<'_>) -> Result<(), AllocError>
    ensures { OnOk result (AppendsTokens writer.old writer.new
        (key (codes "line") ∷ number (decimal message.now.line) ∷ key (codes "text") ∷ string message.now.text.now
        ∷ key (codes "names") ∷ begin_array ∷ (name_tokens message.now.names.now ++ end_array ∷ []))) }
{
    writer.key("line")?;
    writer.u64(u64::from(message.line))?;
    write_string(writer, "text", message.text)?;
    writer.key("names")?;
    write_names(writer, message.names)
}

/// Writes a member whose value is a text.
fn write_string(writer: &mut Writer, name: &str, text: &str) -> Result<(), AllocError>
    ensures { OnOk result (AppendsTokens writer.old writer.new (key name.now ∷ string text.now ∷ [])) }
{
    writer.key(name)?;
    writer.string(text)
}

/// Writes a path, or `null` where there is none.
fn write_file(alloc: Global, writer: &mut Writer, file: Option<&[u8]>) -> Result<(), AllocError>
    ensures { OnOk result (AppendsTokens writer.old writer.new (file_token (bytes_of file.entry) ∷ [])) }
{
    match file {
        None => writer.null(),
        Some(path) => {
            let path = String::from_utf8_lossy(alloc, path)?;
            writer.string(path.as_str())
        }
    }
}

/// Writes an array of names.
fn write_names(writer: &mut Writer, names: &[&str]) -> Result<(), AllocError>
    ensures { OnOk result (AppendsTokens writer.old writer.new (begin_array ∷ (name_tokens names.now ++ end_array ∷ []))) }
{
    writer.begin_array()?;
    for name in names {
        writer.string(name)?;
    }
    writer.end_array()
}

/// The line of a message as JSON is one object, which reads back as the members of the message.
pub fn json_lines_read_back()
    ensures { (message : DefinedMessage) → message.line < 2 ^ 32 → IsOneObject message (json_line message) }
{}
