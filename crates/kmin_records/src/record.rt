//! The begin and the end of a record.
ghost use Rattle.std.specs.Prelude.{◌≡◌, ◌++◌, ◌∷◌, [], codes, IfOk, IsUtf8};
ghost use Rattle.json.specs.Token.{begin_object, end_object, key, string};
ghost use Rattle.json.specs.Print.{print};

use crate::members::write_text;
use json::Writer;
use std::alloc::{AllocError, Global};

/// Begins a record without members: an object. Its members are written after it, and `end_record` ends it.
///
/// # Errors
///
/// `AllocError` if memory runs out.
pub fn new_record(alloc: Global) -> Result<Writer, AllocError>
    ensures before { IfOk result (λ writer. writer.before ≡ []) }
    ensures tokens { IfOk result (λ writer. writer.tokens ≡ begin_object ∷ []) }
{
    let mut writer = Writer::new(Vec::new(alloc));
    writer.begin_object()?;
    Ok(writer)
}

/// Begins a record: an object whose first member has this name and this text. Other members are written after it, and
/// `end_record` ends it.
///
/// # Errors
///
/// `AllocError` if memory runs out.
pub fn begin_record(alloc: Global, name: &str, text: &str) -> Result<Writer, AllocError>
    ensures before { IfOk result (λ writer. writer.before ≡ []) }
    ensures tokens { IfOk result (λ writer. writer.tokens ≡ begin_object ∷ key name.now ∷ string text.now ∷ []) }
{
    let mut writer = new_record(alloc)?;
    write_text(&mut writer, name, text)?;
    Ok(writer)
}

/// Ends a record, and returns its line.
///
/// # Errors
///
/// `AllocError` if memory runs out.
pub fn end_record(mut writer: Writer) -> Result<Vec<u8>, AllocError>
    ensures line { IfOk result (λ line. line.items ≡ writer.before ++ (print (writer.tokens ++ end_object ∷ []) ++ codes "\n")) }
    ensures utf8 { IfOk result (λ line. writer.before ≡ [] → IsUtf8 line.items) }
{
    writer.end_object()?;
    let mut line = writer.into_inner();
    line.push(b'\n')?;
    Ok(line)
}
