//! The events of a run: work, notices, questions and faults.
ghost use Rattle.std.specs.Prelude.{◌≡◌, Some, None, IfOk, option_map};
ghost use Rattle.kc_tree_model.specs.Keywords.{keyword_in_table};
ghost use Rattle.kc_macros_model.specs.Variables.{value_of_answer};
ghost use Rattle.kc_macros_model.specs.Expansion.{asked_value, reported};
ghost use Rattle.kc_macros.specs.Runs.{place_of, fault_of, Runs, end_of};
ghost use Rattle.kc_macros.specs.between.Stops.{FailsWith};
ghost use Rattle.kc_macros.specs.checker.Events.{spent};

use super::bytes::Bytes;
use super::expansion_state::ExpansionState;
use super::stop::{MacroFault, MacroNotice, Place, Stop, ValueResult};
use kc_macros_model::{MacroKind, MacroNoticeKind};
use std::alloc::{AllocError, Global};

/// A fault with its own copies of the path and the text.
fn new_fault(
    alloc: Global,
    at: Place<'_>,
    kind: MacroKind,
    text: &[u8],
) -> Result<MacroFault, AllocError>
    ensures { IfOk result (λ f. fault_of f ≡ record { at = place_of at.entry; kind = kind; text = text.now }) }
{
    Ok(MacroFault {
        file: Bytes::copied(alloc, at.file)?,
        line: at.line,
        kind,
        text: Bytes::copied(alloc, text)?,
    })
}

/// The stop of an expansion by a fault, or by running out of memory where the texts of the fault can't be copied.
pub fn fault(alloc: Global, at: Place<'_>, kind: MacroKind, text: &[u8]) -> Stop
    ensures { FailsWith (record { at = place_of at.entry; kind = kind; text = text.now }) result }
{
    match new_fault(alloc, at, kind, text) {
        Ok(fault) => Stop::Fault(fault),
        Err(_) => Stop::OutOfMemory,
    }
}

/// Takes this much work from what the run has left, or fails with `TooMany` if less is left.
pub(crate) fn spend(run: &mut ExpansionState<'_>, at: Place<'_>, work: usize) -> Result<(), Stop>
    ensures { Runs run.old run.new (spent (place_of at.entry) work) (end_of (λ u. u) result) }
{
    if run.left() < work {
        return Err(fault(run.alloc(), at, MacroKind::TooMany, b""));
    }
    run.take_work(work);
    Ok(())
}

/// Adds a notice to those of the run, and returns an empty value for the reference that reports it.
pub(crate) fn report(
    run: &mut ExpansionState<'_>,
    at: Place<'_>,
    kind: MacroNoticeKind,
    text: &[u8],
) -> ValueResult
    ensures { Runs run.old run.new (reported (place_of at.entry) kind text.now) (end_of (λ v. v) result) }
{
    let notice = MacroNotice {
        file: Bytes::copied(run.alloc(), at.file)?,
        line: at.line,
        kind,
        text: Bytes::copied(run.alloc(), text)?,
    };
    run.push_notice(notice)?;
    Ok(Some(Bytes::from_vec(Vec::new(run.alloc()))))
}

/// A copy of the value that an answer gives: its text, or nothing for a name that isn't set.
fn answered_value(alloc: Global, answer: Option<&[u8]>) -> Result<Bytes, AllocError>
    ensures { IfOk result (λ v. Some v ≡ value_of_answer (Some (option_map (λ t. t.now) answer.entry))) }
{
    match answer {
        Some(text) => Bytes::copied(alloc, text),
        None => Ok(Bytes::from_vec(Vec::new(alloc))),
    }
}

/// The value of a question without an answer: unknown, or a fault where each question must have one.
fn unanswered_value(run: &mut ExpansionState<'_>, at: Place<'_>, question: &[u8]) -> ValueResult
    requires unanswered { keyword_in_table run.old.answers question.now ≡ None }
    ensures run { Runs run.old run.new (asked_value (place_of at.entry) question.now) (end_of (λ v. v) result) }
{
    if run.all_answered() {
        return Err(fault(run.alloc(), at, MacroKind::Unanswered, question));
    }
    run.note_question(question)?;
    Ok(None)
}

/// The text of the answer to a question, empty for a name that isn't set. Without an answer it is `None`, or a fault where each
/// question must have an answer.
pub(crate) fn ask(run: &mut ExpansionState<'_>, at: Place<'_>, question: &[u8]) -> ValueResult
    ensures { Runs run.old run.new (asked_value (place_of at.entry) question.now) (end_of (λ v. v) result) }
{
    match run.answer(question) {
        Some(answer) => {
            let value = answered_value(run.alloc(), answer)?;
            run.note_question(question)?;
            Ok(Some(value))
        }
        None => unanswered_value(run, at, question),
    }
}
