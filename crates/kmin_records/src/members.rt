//! Members of a record.
ghost use Rattle.std.specs.Prelude.{◌≡◌, ◌++◌, ◌∷◌, [], ℕ, List, OnOk, codes, decimal, option_map};
ghost use Rattle.std.specs.Borrow.{Bor};
ghost use Rattle.std.specs.Str.Lossy.{utf8_lossy};
ghost use Rattle.json.specs.Json.{string as text_of_json};
ghost use Rattle.json.specs.Token.{begin_array, end_array, key, string};
ghost use Rattle.json.specs.Tree.{json_tokens};
ghost use Rattle.kmin_messages.specs.between.MessageViews.{AppendsTokens};
ghost use Rattle.kmin_records.specs.JsonValues.{or_null, place_members};
ghost use Rattle.kmin_lines.specs.between.Texts.{texts_of};
ghost use Rattle.kmin_records.specs.between.RecordTokens.{text_tokens, member_tokens, list_tokens};

use json::Writer;
use std::alloc::{AllocError, Global};

/// Writes a member whose value is a text. An `Err` means out of memory.
pub fn write_text(writer: &mut Writer, name: &str, text: &str) -> Result<(), AllocError>
    ensures { OnOk result (AppendsTokens writer.old writer.new (key name.now ∷ string text.now ∷ [])) }
{
    writer.key(name)?;
    writer.string(text)
}

/// Writes a member whose value is a text of these bytes, with U+FFFD in place of what isn't UTF-8. An `Err` means out of
/// memory.
pub fn write_bytes(
    alloc: Global,
    writer: &mut Writer,
    name: &str,
    bytes: &[u8],
) -> Result<(), AllocError>
    ensures { OnOk result (AppendsTokens writer.old writer.new (key name.now ∷ string (utf8_lossy bytes.now) ∷ [])) }
{
    writer.key(name)?;
    write_lossy(alloc, writer, bytes)
}

/// Writes a member whose value is an array of lines, each a text, with U+FFFD in place of what isn't UTF-8.
pub(crate) fn write_lines(
    alloc: Global,
    writer: &mut Writer,
    name: &str,
    lines: &[&[u8]],
) -> Result<(), AllocError>
    ensures { OnOk result (AppendsTokens writer.old writer.new (key name.now ∷ begin_array ∷ (text_tokens (texts_of lines.now) ++ end_array ∷ []))) }
{
    writer.key(name)?;
    writer.begin_array()?;
    for line in lines {
        write_lossy(alloc, writer, line)?;
    }
    writer.end_array()
}

/// Writes a text of these bytes, with U+FFFD in place of what isn't UTF-8.
fn write_lossy(alloc: Global, writer: &mut Writer, bytes: &[u8]) -> Result<(), AllocError>
    ensures { OnOk result (AppendsTokens writer.old writer.new (string (utf8_lossy bytes.now) ∷ [])) }
{
    let text = String::from_utf8_lossy(alloc, bytes)?;
    writer.string(text.as_str())
}

/// Writes a text, or null if there is none.
fn write_text_or_null(writer: &mut Writer, text: Option<&str>) -> Result<(), AllocError>
    ensures { OnOk result (AppendsTokens writer.old writer.new (json_tokens (or_null text_of_json (option_map (λ (t : Bor (List ℕ)). t.now) text.entry)))) }
{
    match text {
        None => writer.null(),
        Some(text) => writer.string(text),
    }
}

/// Writes a member whose value is a text, or null if there is none. An `Err` means out of memory.
pub fn write_optional(writer: &mut Writer, name: &str, text: Option<&str>) -> Result<(), AllocError>
    ensures { OnOk result (AppendsTokens writer.old writer.new (member_tokens (name.now, or_null text_of_json (option_map (λ (t : Bor (List ℕ)). t.now) text.entry)))) }
{
    writer.key(name)?;
    write_text_or_null(writer, text)
}

/// Writes the members `path` and `line` of a place: the path of its file, and the line there, counted from 1. An `Err` means out of
/// memory.
pub fn write_place(writer: &mut Writer, path: &str, line: u64) -> Result<(), AllocError>
    ensures { OnOk result (AppendsTokens writer.old writer.new (list_tokens (place_members path.now line))) }
{
    write_text(writer, "path", path)?;
    writer.key("line")?;
    writer.u64(line)
}
