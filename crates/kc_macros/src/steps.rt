//! The steps of an expansion that expand no text.
ghost use Rattle.std.specs.Prelude.{◌≡◌, ◌<◌, ◌≤◌, List, ℕ, false, length, Some, None, IfOk, IfSome};
ghost use Rattle.kc_answers.specs.RunStates.{RunState};
ghost use Rattle.kc_macros_model.specs.References.{reference, items};
ghost use Rattle.kc_macros_model.specs.Variables.{recursive, argument_of};
ghost use Rattle.kc_macros_model.specs.Expansion.{Expander, named_value};
ghost use Rattle.kc_value.specs.declared.limits.TheConstants.{MAX_TEXT_BYTES};
ghost use Rattle.kc_macros.specs.Runs.{place_of, Runs, end_of};
ghost use Rattle.kc_macros.specs.between.SliceTexts.{texts_of_slices};
ghost use Rattle.kc_macros.specs.checker.PartialValues.{items_from, values_left};
ghost use Rattle.kc_macros.specs.checker.ProgramSteps.{Steps};
ghost use Rattle.kc_macros.specs.checker.Frames.{frame_place, frame_item, frame_value, frame_call, paid, paid_items};

use super::bytes::Bytes;
use super::events::{fault, spend};
use super::expansion_state::ExpansionState;
use super::frame::{Frame, is_recursion, with_innermost};
use super::partial_value::{PartialValue, push_text, value_length};
use super::references::{pieces, plain_length, reference_at_front};
use super::stop::{Place, Stop, ValueResult};
use kc_macros_model::MacroKind;
use kc_value::MAX_PIECES;
use std::alloc::Global;

/// The frame in which the items of a text in a frame are expanded, after the work for the text; a fault where too many expansions
/// are open within each other.
pub(crate) fn inner_frame<'a>(
    run: &mut ExpansionState<'_>,
    frame: &Frame<'a>,
    text: &[u8],
) -> Result<Frame<'a>, Stop>
    ensures steps { Steps run.old run.new (frame_value frame.now text.now) (λ f. paid_items f text.now) result }
    ensures less { IfOk result (λ f. f.more < frame.now.more) }
{
    if frame.more == 0 {
        return Err(fault(run.alloc(), frame.at, MacroKind::TooDeep, b""));
    }
    spend(run, frame.at, text.len() + 1)?;
    Ok(Frame {
        at: frame.at,
        bindings: frame.bindings,
        names: frame.names,
        args: frame.args,
        more: frame.more - 1,
    })
}

/// The value of a text, after the work for the value.
pub(crate) fn paid_value(
    run: &mut ExpansionState<'_>,
    at: Place<'_>,
    value: Option<Bytes>,
) -> ValueResult
    ensures { Runs run.old run.new (paid (place_of at.entry) value) (end_of (λ v. v) result) }
{
    spend(run, at, value_length(&value))?;
    Ok(value)
}

/// The names whose values are being expanded within the call of a recursive variable; a fault where its value is among them.
pub(crate) fn names_within<'a>(
    alloc: Global,
    at: Place<'_>,
    names: &[&'a [u8]],
    name: &'a [u8],
    args: &[Option<Bytes>],
) -> Result<Vec<&'a [u8]>, Stop>
    ensures { (sub : Expander) (s : RunState) (t : List ℕ) → Steps s s (named_value sub (place_of at.entry) (texts_of_slices names.now) name.now args.now (Some (recursive t))) (λ ns. sub (texts_of_slices ns.items) args.now t) result }
{
    if is_recursion(names, name, args) {
        return Err(fault(alloc, at, MacroKind::Recursion, name));
    }
    Ok(with_innermost(alloc, name, names)?)
}

/// The pieces of a reference that is no argument of the call, by the bytes between its parentheses; a fault for more than 16.
pub(crate) fn reference_pieces<'t>(
    alloc: Global,
    frame: &Frame<'_>,
    inside: &'t [u8],
) -> Result<Vec<&'t [u8]>, Stop>
    requires no_argument { argument_of frame.now.args.now inside.now ≡ None }
    ensures { (s : RunState) → Steps s s (frame_item frame.now (reference inside.now)) (λ ps. frame_call frame.now (texts_of_slices ps.items)) result }
{
    let pieces = pieces(alloc, inside)?;
    if pieces.len() > MAX_PIECES {
        return Err(fault(alloc, frame.at, MacroKind::Arguments, b""));
    }
    Ok(pieces)
}

/// Appends the bytes before the first reference of a text to `out`; returns the bytes between the parentheses of that reference
/// and those after it, or nothing if the text has no reference.
pub(crate) fn next_reference<'t>(
    alloc: Global,
    frame: &Frame<'_>,
    text: &'t [u8],
    out: &mut PartialValue,
) -> Result<Option<(&'t [u8], &'t [u8])>, Stop>
    requires small { length out.old.bytes.items ≤ MAX_TEXT_BYTES }
    ensures steps { (s : RunState) → Steps s s (values_left (frame_place frame.now) (frame_item frame.now) out.old.known out.old.bytes.items (items false 0 text.now)) (λ r. values_left (frame_place frame.now) (frame_item frame.now) out.new.known out.new.bytes.items (items_from r)) result }
    ensures shorter { IfOk result (λ r. IfSome r (λ p. length p.1.now < length text.now)) }
    ensures small { IfOk result (λ r. length out.new.bytes.items ≤ MAX_TEXT_BYTES) }
{
    let plain = plain_length(text);
    push_text(out, alloc, frame.at, &text[..plain])?;
    let rest = &text[plain..];
    if rest.is_empty() {
        return Ok(None);
    }
    match reference_at_front(rest) {
        Some(parts) => Ok(Some(parts)),
        None => Err(fault(alloc, frame.at, MacroKind::Unterminated, b"")),
    }
}
