//! The value of a text: each reference in it replaced by its value, from left to right.
ghost use Rattle.std.specs.Prelude.{◌≤◌, ◌∷◌, List, length, OnOk};
ghost use Rattle.kc_macros_model.specs.References.{Item, reference};
ghost use Rattle.kc_macros_model.specs.Expansion.{piece_values, call_value, named_value, text_value};
ghost use Rattle.kc_value.specs.declared.limits.TheConstants.{MAX_TEXT_BYTES};
ghost use Rattle.kc_macros.specs.between.Variables.{bindings_of};
ghost use Rattle.kc_macros.specs.Runs.{place_of, Runs, end_of};
ghost use Rattle.kc_macros.specs.between.SliceTexts.{texts_of_slices};
ghost use Rattle.kc_macros.specs.checker.PartialValues.{values_left};
ghost use Rattle.kc_macros.specs.checker.ProgramSteps.{Steps};
ghost use Rattle.kc_macros.specs.checker.Frames.{frame_place, frame_bindings, frame_names, frame_expander, frame_item, frame_value, frame_items};

use super::bindings::Bindings;
use super::bytes::Bytes;
use super::events::fault;
use super::expansion_state::ExpansionState;
use super::frame::Frame;
use super::names::unbound_value;
use super::parameter::argument_of;
use super::partial_value::{PartialValue, copied_value, empty_value, push_value, value_if_known};
use super::steps::{inner_frame, names_within, next_reference, paid_value, reference_pieces};
use super::stop::{Place, Stop, ValueResult};
use super::variable::Variable;
use kc_macros_model::MacroKind;
use kc_value::MAX_OPEN_EXPANSIONS;

/// The value of a text in a frame; a fault where too many expansions are open within each other.
#[cycle(expansion)]
fn expanded(run: &mut ExpansionState<'_>, frame: &Frame<'_>, text: &[u8]) -> ValueResult
    ensures { Runs run.old run.new (frame_value frame.now text.now) (end_of (λ v. v) result) }
{
    let inner = inner_frame(run, frame, text)?;
    let value = text_items(run, &inner, text)?;
    paid_value(run, inner.at, value)
}

/// The values of the items of a text, one after the other.
#[cycle(expansion)]
fn text_items(run: &mut ExpansionState<'_>, frame: &Frame<'_>, text: &[u8]) -> ValueResult
    ensures { Runs run.old run.new (frame_items frame.now text.now) (end_of (λ v. v) result) }
{
    let mut out = empty_value(run.alloc());
    let mut rest = text;
    'items: while let Some((inside, after)) = next_reference(run.alloc(), frame, rest, &mut out)? {
        push_reference(run, frame, inside, &mut out)?;
        rest = after;
    }
    Ok(value_if_known(out))
}

/// Appends the value of a reference, by the bytes between its parentheses, to `out`.
#[cycle(expansion)]
fn push_reference(
    run: &mut ExpansionState<'_>,
    frame: &Frame<'_>,
    inside: &[u8],
    out: &mut PartialValue,
) -> Result<(), Stop>
    requires small { length out.old.bytes.items ≤ MAX_TEXT_BYTES }
    ensures steps { (is : List Item) → Steps run.old run.new (values_left (frame_place frame.now) (frame_item frame.now) out.old.known out.old.bytes.items (reference inside.now ∷ is)) (λ u. values_left (frame_place frame.now) (frame_item frame.now) out.new.known out.new.bytes.items is) result }
    ensures small { OnOk result (length out.new.bytes.items ≤ MAX_TEXT_BYTES) }
{
    let value = reference_value(run, frame, inside)?;
    push_value(out, run.alloc(), frame.at, value)
}

/// The value of a reference, by the bytes between its parentheses.
#[cycle(expansion)]
fn reference_value(run: &mut ExpansionState<'_>, frame: &Frame<'_>, inside: &[u8]) -> ValueResult
    ensures { Runs run.old run.new (frame_item frame.now (reference inside.now)) (end_of (λ v. v) result) }
{
    if let Some(value) = argument_of(frame.args, inside) {
        return copied_value(run.alloc(), value);
    }
    let pieces = reference_pieces(run.alloc(), frame, inside)?;
    let values = piece_values(run, frame, pieces.as_slice())?;
    call_value(run, frame, values.as_slice())
}

/// The values of the pieces of a reference, in order.
#[cycle(expansion)]
fn piece_values(
    run: &mut ExpansionState<'_>,
    frame: &Frame<'_>,
    pieces: &[&[u8]],
) -> Result<Vec<Option<Bytes>>, Stop>
    ensures { Runs run.old run.new (piece_values (frame_value frame.now) (texts_of_slices pieces.now)) (end_of (λ vs. vs.items) result) }
{
    let mut values = Vec::new(run.alloc());
    'pieces: for piece in pieces {
        let value = expanded(run, frame, piece)?;
        values.push(value)?;
    }
    Ok(values)
}

/// The value of a reference, by the values of its pieces: a name and its arguments.
#[cycle(expansion)]
fn call_value(
    run: &mut ExpansionState<'_>,
    frame: &Frame<'_>,
    values: &[Option<Bytes>],
) -> ValueResult
    ensures { Runs run.old run.new (call_value (frame_expander frame.now) (frame_place frame.now) (frame_bindings frame.now) (frame_names frame.now) values.now) (end_of (λ v. v) result) }
{
    if values.is_empty() {
        return Err(fault(run.alloc(), frame.at, MacroKind::Undefined, b""));
    }
    match &values[0] {
        Some(name) => named_value(run, frame, name.as_slice(), &values[1..]),
        None => Ok(None),
    }
}

/// The value of a name with these arguments: of a variable, or of a name that isn't one.
#[cycle(expansion)]
fn named_value(
    run: &mut ExpansionState<'_>,
    frame: &Frame<'_>,
    name: &[u8],
    args: &[Option<Bytes>],
) -> ValueResult
    ensures { Runs run.old run.new (named_value (frame_expander frame.now) (frame_place frame.now) (frame_names frame.now) name.now args.now (frame_bindings frame.now name.now)) (end_of (λ v. v) result) }
{
    match frame.bindings.get(name) {
        None => unbound_value(run, frame.at, name, args),
        Some(Variable::Simple(value)) => copied_value(run.alloc(), value),
        Some(Variable::Recursive(text)) => {
            let names = names_within(run.alloc(), frame.at, frame.names, name, args)?;
            let inner = Frame {
                at: frame.at,
                bindings: frame.bindings,
                names: names.as_slice(),
                args,
                more: frame.more,
            };
            expanded(run, &inner, text.as_slice())
        }
    }
}

/// The value of a text of a line: each reference in it is replaced by its value, from left to right; unknown where it
/// depends on a question without an answer.
///
/// # Errors
///
/// The first fault of the expansion, or memory ran out.
pub fn text_value(
    run: &mut ExpansionState<'_>,
    at: Place<'_>,
    bindings: &Bindings,
    text: &[u8],
) -> ValueResult
    ensures { Runs run.old run.new (text_value (place_of at.entry) (bindings_of bindings.now) text.now) (end_of (λ v. v) result) }
{
    let frame = Frame {
        at,
        bindings,
        names: &[],
        args: &[],
        more: MAX_OPEN_EXPANSIONS,
    };
    expanded(run, &frame, text)
}
