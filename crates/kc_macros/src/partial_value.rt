//! The value of a text so far, item by item.
ghost use Rattle.std.specs.Prelude.{◌≡◌, ◌≤◌, ◌<◌, ◌+◌, ◌&&◌, [], ◌++◌, true, length, is_some, OnOk, IfErr};
ghost use Rattle.kc_answers.specs.RunStates.{RunState};
ghost use Rattle.kc_macros_model.specs.Programs.{returns};
ghost use Rattle.kc_macros_model.specs.Variables.{value_length};
ghost use Rattle.kc_macros.specs.Runs.{place_of, Runs, end_of};
ghost use Rattle.kc_macros.specs.checker.Events.{FailsIf};
ghost use Rattle.kc_macros.specs.checker.PartialValues.{known_bytes, value_if_known, too_long};

use super::bytes::Bytes;
use super::events::fault;
use super::stop::{Place, Stop, ValueResult};
use kc_macros_model::MacroKind;
use kc_value::MAX_TEXT_BYTES;
use std::alloc::Global;

/// The joined values of the first items of a text, which are unknown if that of one item is.
#[derive(Drop)]
pub(crate) struct PartialValue {
    bytes: Vec<u8>,
    known: bool,
}

/// The value of a text before its first item is expanded: known and empty.
pub(crate) fn empty_value(alloc: Global) -> PartialValue
    ensures bytes { result.bytes.items ≡ [] }
    ensures known { result.known ≡ true }
{
    PartialValue {
        bytes: Vec::new(alloc),
        known: true,
    }
}

/// Appends plain bytes of a text to the joined values of the items before them.
///
/// # Errors
///
/// `LineTooLong` where there would be more than 65,536 bytes, or memory ran out.
pub(crate) fn push_text(
    out: &mut PartialValue,
    alloc: Global,
    at: Place<'_>,
    text: &[u8],
) -> Result<(), Stop>
    requires small { length out.old.bytes.items ≤ MAX_TEXT_BYTES }
    ensures bytes { OnOk result (out.new.bytes.items ≡ out.old.bytes.items ++ text.now) }
    ensures known { OnOk result (out.new.known ≡ out.old.known) }
    ensures small { OnOk result (length out.old.bytes.items + length text.now ≤ MAX_TEXT_BYTES) }
    ensures err { IfErr result (FailsIf (MAX_TEXT_BYTES < length out.old.bytes.items + length text.now) (too_long (place_of at.entry))) }
{
    if text.len() > MAX_TEXT_BYTES - out.bytes.len() {
        return Err(fault(alloc, at, MacroKind::LineTooLong, b""));
    }
    out.bytes.extend_from_slice(text)?;
    Ok(())
}

/// Appends the value of an item of a text to the joined values of the items before it.
///
/// # Errors
///
/// `LineTooLong` where there would be more than 65,536 bytes, or memory ran out.
pub(crate) fn push_value(
    out: &mut PartialValue,
    alloc: Global,
    at: Place<'_>,
    value: Option<Bytes>,
) -> Result<(), Stop>
    requires small { length out.old.bytes.items ≤ MAX_TEXT_BYTES }
    ensures bytes { OnOk result (out.new.bytes.items ≡ out.old.bytes.items ++ known_bytes value) }
    ensures known { OnOk result (out.new.known ≡ (out.old.known && is_some value)) }
    ensures small { OnOk result (length out.old.bytes.items + value_length value ≤ MAX_TEXT_BYTES) }
    ensures err { IfErr result (FailsIf (MAX_TEXT_BYTES < length out.old.bytes.items + value_length value) (too_long (place_of at.entry))) }
{
    match value {
        Some(text) => push_text(out, alloc, at, text.as_slice()),
        None => {
            out.known = false;
            Ok(())
        }
    }
}

/// The joined values of all items of a text; `None` if that of one item is unknown.
pub(crate) fn value_if_known(out: PartialValue) -> Option<Bytes>
    ensures { result ≡ value_if_known out.known out.bytes.items }
{
    if out.known {
        Some(Bytes::from_vec(out.bytes))
    } else {
        None
    }
}

/// A copy of a value, which is `None` if it is unknown.
pub(crate) fn copied_value(alloc: Global, value: &Option<Bytes>) -> ValueResult
    ensures { (s : RunState) → Runs s s (returns value.now) (end_of (λ v. v) result) }
{
    match value {
        Some(text) => Ok(Some(Bytes::copied(alloc, text.as_slice())?)),
        None => Ok(None),
    }
}

/// The number of bytes of a value; 0 if the value is unknown.
pub(crate) fn value_length(value: &Option<Bytes>) -> usize
    ensures { result ≡ value_length value.now }
{
    match value {
        Some(text) => text.as_slice().len(),
        None => 0,
    }
}
