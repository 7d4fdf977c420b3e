//! The values of names that are no variables: built-in functions, parameters that weren't given, and names of the environment.
ghost use Rattle.std.specs.Prelude.{◌≡◌, Some, length, decimal, IfOk, option_map};
ghost use Rattle.kc_tree_model.specs.Keywords.{keyword_in_table};
ghost use Rattle.kc_macros_model.specs.Variables.{command_question, built_ins};
ghost use Rattle.kc_macros_model.specs.Expansion.{fault as fault_program, reported, shell_value, built_in_value, other_value, unbound_value};
ghost use Rattle.kc_macros.specs.Runs.{place_of, Runs, end_of};
ghost use Rattle.kc_macros.specs.checker.BuiltIns.{message_text, message_value};

use super::built_in_functions::{arity, built_in, is_text};
use super::bytes::Bytes;
use super::events::{ask, fault, report};
use super::expansion_state::ExpansionState;
use super::parameter::is_number;
use super::stop::{Place, ValueResult};
use itoa::Buffer;
use kc_answers::without_white_end;
use kc_macros_model::{BuiltIn, MacroKind, MacroNoticeKind, is_environment_name};
use std::alloc::{AllocError, Global};

/// The decimal digits of a number.
fn decimal_text(alloc: Global, number: u32) -> Result<Bytes, AllocError>
    ensures { IfOk result (λ b. b ≡ decimal number) }
{
    let mut buffer = Buffer::new();
    let digits = buffer.format(number);
    Bytes::copied(alloc, digits.as_bytes())
}

/// The question of a command: `$ ` and the command without white at its end.
fn command_question(alloc: Global, command: &[u8]) -> Result<Vec<u8>, AllocError>
    ensures { IfOk result (λ q. q.items ≡ command_question command.now) }
{
    let mut question = Vec::from_slice(alloc, b"$ ")?;
    question.extend_from_slice(without_white_end(command))?;
    Ok(question)
}

/// The value of `shell`: the answer to its command, if both are known.
fn shell_value(run: &mut ExpansionState<'_>, at: Place<'_>, command: &Option<Bytes>) -> ValueResult
    ensures { Runs run.old run.new (shell_value (place_of at.entry) command.now) (end_of (λ v. v) result) }
{
    match command {
        Some(command) => {
            let question = command_question(run.alloc(), command.as_slice())?;
            ask(run, at, question.as_slice())
        }
        None => Ok(None),
    }
}

/// The text of a message, if it is known and its condition is `y`.
fn message<'a>(condition: &Option<Bytes>, text: &'a Option<Bytes>) -> Option<&'a [u8]>
    ensures { option_map (λ t. t.now) result ≡ message_text condition.now text.now }
{
    match condition {
        Some(condition) if is_text(condition.as_slice(), b"y") => known_text(text),
        _ => None,
    }
}

/// A text, if it is known.
fn known_text(text: &Option<Bytes>) -> Option<&[u8]>
    ensures { option_map (λ t. t.now) result ≡ text.now }
{
    match text {
        Some(text) => Some(text.as_slice()),
        None => None,
    }
}

/// The value of `info` or `warning-if`, which is empty: reports a notice with this text, if there is one.
fn notice_value(
    run: &mut ExpansionState<'_>,
    at: Place<'_>,
    kind: MacroNoticeKind,
    text: Option<&[u8]>,
) -> ValueResult
    ensures { Runs run.old run.new (message_value (reported (place_of at.entry) kind) (option_map (λ t. t.now) text.entry)) (end_of (λ v. v) result) }
{
    match text {
        Some(text) => report(run, at, kind, text),
        None => Ok(Some(Bytes::from_vec(Vec::new(run.alloc())))),
    }
}

/// The value of `error-if`: a fault with this text, if there is one, and else empty.
fn error_value(run: &mut ExpansionState<'_>, at: Place<'_>, text: Option<&[u8]>) -> ValueResult
    ensures { Runs run.old run.new (message_value (fault_program (place_of at.entry) MacroKind.Error) (option_map (λ t. t.now) text.entry)) (end_of (λ v. v) result) }
{
    match text {
        Some(text) => Err(fault(run.alloc(), at, MacroKind::Error, text)),
        None => Ok(Some(Bytes::from_vec(Vec::new(run.alloc())))),
    }
}

/// The value of a built-in function; another count of arguments than it takes is a fault.
fn built_in_value(
    run: &mut ExpansionState<'_>,
    at: Place<'_>,
    name: &[u8],
    function: BuiltIn,
    args: &[Option<Bytes>],
) -> ValueResult
    ensures { Runs run.old run.new (built_in_value (place_of at.entry) name.now function args.now) (end_of (λ v. v) result) }
{
    if args.len() != arity(function) {
        return Err(fault(run.alloc(), at, MacroKind::Arguments, name));
    }
    match function {
        BuiltIn::Filename => Ok(Some(Bytes::copied(run.alloc(), at.file)?)),
        BuiltIn::Lineno => Ok(Some(decimal_text(run.alloc(), at.line)?)),
        BuiltIn::Shell => shell_value(run, at, &args[0]),
        BuiltIn::Info => notice_value(run, at, MacroNoticeKind::Info, known_text(&args[0])),
        BuiltIn::WarningIf => {
            notice_value(
                run,
                at,
                MacroNoticeKind::Warning,
                message(&args[0], &args[1]),
            )
        }
        BuiltIn::ErrorIf => error_value(run, at, message(&args[0], &args[1])),
    }
}

/// The value of a name that is neither a variable nor built in.
fn other_value(
    run: &mut ExpansionState<'_>,
    at: Place<'_>,
    name: &[u8],
    args: &[Option<Bytes>],
) -> ValueResult
    ensures { Runs run.old run.new (other_value (place_of at.entry) name.now args.now) (end_of (λ v. v) result) }
{
    if !args.is_empty() {
        return Err(fault(run.alloc(), at, MacroKind::Undefined, name));
    }
    if is_number(name) {
        return Ok(Some(Bytes::from_vec(Vec::new(run.alloc()))));
    }
    if is_environment_name(name) {
        return ask(run, at, name);
    }
    Err(fault(run.alloc(), at, MacroKind::Undefined, name))
}

/// The value of a reference to a name that is no variable, with these arguments: that of a built-in function, of a parameter that
/// wasn't given, or of a name of the environment.
pub(crate) fn unbound_value(
    run: &mut ExpansionState<'_>,
    at: Place<'_>,
    name: &[u8],
    args: &[Option<Bytes>],
) -> ValueResult
    ensures { Runs run.old run.new (unbound_value (place_of at.entry) name.now args.now (keyword_in_table built_ins name.now)) (end_of (λ v. v) result) }
{
    match built_in(name) {
        Some(function) => built_in_value(run, at, name, function, args),
        None => other_value(run, at, name, args),
    }
}
