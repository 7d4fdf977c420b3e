//! Assignments of variables.
ghost use Rattle.std.specs.Prelude.{◌≡◌, [], ◌∷◌, ◌++◌, Some, IfOk, OnErr};
ghost use Rattle.kc_macros_model.specs.Variables.{joined_values};
ghost use Rattle.kc_macros_model.specs.Assignments.{stored_simple, stored_recursive, variable_assigned};
ghost use Rattle.kc_macros.specs.between.Variables.{bindings_of, variable_of};
ghost use Rattle.kc_macros.specs.between.AssignmentViews.{bindings_assigned};
ghost use Rattle.kc_macros.specs.checker.StoredBytes.{stored_bytes};
ghost use Rattle.kc_macros.specs.Runs.{place_of, Runs, end_of};

use super::bindings::Bindings;
use super::bytes::Bytes;
use super::events::{fault, spend};
use super::expansion_state::ExpansionState;
use super::partial_value::value_length;
use super::stop::{Place, Stop};
use super::text_values::text_value;
use super::variable::Variable;
use kc_macros_model::{MacroKind, Operator};
use kc_value::MAX_TEXT_BYTES;
use std::alloc::{AllocError, Global};

/// An assignment to a variable: its name, which is expanded already, its operator, and its text, which isn't expanded.
#[derive(Drop)]
pub struct Assignment {
    pub name: Bytes,
    pub operator: Operator,
    pub text: Bytes,
}

/// Does the work of storing `length` bytes for a variable, unless that is too many.
fn store(run: &mut ExpansionState<'_>, at: Place<'_>, length: usize) -> Result<(), Stop>
    ensures { Runs run.old run.new (stored_bytes (place_of at.entry) length) (end_of (λ u. u) result) }
{
    if length > MAX_TEXT_BYTES {
        return Err(fault(run.alloc(), at, MacroKind::LineTooLong, b""));
    }
    spend(run, at, length)
}

/// Stores a value as a simple variable.
fn stored_simple(
    run: &mut ExpansionState<'_>,
    at: Place<'_>,
    value: Option<Bytes>,
) -> Result<Variable, Stop>
    ensures { Runs run.old run.new (stored_simple (place_of at.entry) value) (end_of variable_of result) }
{
    store(run, at, value_length(&value))?;
    Ok(Variable::Simple(value))
}

/// Stores a text as a recursive variable.
fn stored_recursive(
    run: &mut ExpansionState<'_>,
    at: Place<'_>,
    text: Bytes,
) -> Result<Variable, Stop>
    ensures { Runs run.old run.new (stored_recursive (place_of at.entry) text) (end_of variable_of result) }
{
    store(run, at, text.as_slice().len())?;
    Ok(Variable::Recursive(text))
}

/// Two texts with a space between.
fn spaced(alloc: Global, before: &[u8], more: &[u8]) -> Result<Bytes, AllocError>
    ensures { IfOk result (λ b. b ≡ before.now ++ 32 ∷ more.now) }
{
    let mut text = Vec::from_slice(alloc, before)?;
    text.extend_from_slice(b" ")?;
    text.extend_from_slice(more)?;
    Ok(Bytes::from_vec(text))
}

/// Two values with a space between, if both are known.
fn spaced_value(
    alloc: Global,
    before: &Option<Bytes>,
    more: &Option<Bytes>,
) -> Result<Option<Bytes>, AllocError>
    ensures { IfOk result (λ v. v ≡ joined_values before.now (joined_values (Some (32 ∷ [])) more.now)) }
{
    match (before, more) {
        (Some(before), Some(more)) => Ok(Some(spaced(alloc, before.as_slice(), more.as_slice())?)),
        _ => Ok(None),
    }
}

/// The variable that `+=` makes of an earlier one, whose flavour it keeps.
fn appended(
    run: &mut ExpansionState<'_>,
    at: Place<'_>,
    bindings: &Bindings,
    text: &[u8],
    before: &Variable,
) -> Result<Variable, Stop>
    ensures { Runs run.old run.new (variable_assigned (place_of at.entry) (bindings_of bindings.now) Operator.Appends text.now (Some (variable_of before.now))) (end_of variable_of result) }
{
    match before {
        Variable::Simple(value) => {
            let more = text_value(run, at, bindings, text)?;
            let whole = spaced_value(run.alloc(), value, &more)?;
            stored_simple(run, at, whole)
        }
        Variable::Recursive(old) => {
            let whole = spaced(run.alloc(), old.as_slice(), text)?;
            stored_recursive(run, at, whole)
        }
    }
}

/// The variable that an assignment makes for a name, which may have an earlier one.
fn variable_assigned(
    run: &mut ExpansionState<'_>,
    at: Place<'_>,
    bindings: &Bindings,
    name: &[u8],
    operator: Operator,
    text: Bytes,
) -> Result<Variable, Stop>
    ensures { Runs run.old run.new (variable_assigned (place_of at.entry) (bindings_of bindings.now) operator text (bindings_of bindings.now name.now)) (end_of variable_of result) }
{
    match operator {
        Operator::SetsNow => {
            let value = text_value(run, at, bindings, text.as_slice())?;
            stored_simple(run, at, value)
        }
        Operator::Appends => match bindings.get(name) {
            Some(before) => appended(run, at, bindings, text.as_slice(), before),
            None => stored_recursive(run, at, text),
        },
        Operator::Sets => stored_recursive(run, at, text),
    }
}

/// Carries out an assignment: binds its name to the variable that its operator makes of its text.
///
/// # Errors
///
/// The first fault of the expansion, `LineTooLong` where more than 65,536 bytes would be stored, `TooMany` where too
/// little work is left, or memory ran out. The variables are then as they were.
pub fn assign(
    run: &mut ExpansionState<'_>,
    at: Place<'_>,
    bindings: &mut Bindings,
    assignment: Assignment,
) -> Result<(), Stop>
    ensures run { Runs run.old run.new (bindings_assigned (place_of at.entry) (bindings_of bindings.old) assignment.name assignment.operator assignment.text) (end_of (λ u. bindings_of bindings.new) result) }
    ensures err { OnErr result (bindings.new ≡ bindings.old) }
{
    let Assignment {
        name,
        operator,
        text,
    } = assignment;
    let variable = variable_assigned(run, at, bindings, name.as_slice(), operator, text)?;
    bindings.bind(name, variable)?;
    Ok(())
}
