//! The words of `kmin missed` and `kmin check` where they ask for reasons.
ghost use Rattle.std.specs.Prelude.{◌≡◌};
ghost use Rattle.clap.specs.Words.{found_of};
ghost use Rattle.kmin_options.specs.Jobs.{explain_job_view, question_view};
ghost use Rattle.kmin_options.specs.between.Refusals.{Agrees};
ghost use Rattle.kmin_cli.specs.between.WordValues as parsed;

use crate::command_line::settings_of;
use clap::ArgMatches;
use kmin_options::{ExplainJob, MissedForm, Question, Refusal, is_given, value_of, values_of};
use std::alloc::Global;

/// Whether the command with this name is asked for reasons: `--long` or `--by-cause` is given, or records are asked of it, which have
/// them. No other command comes here with one of these but `compare`, whose records have none.
pub(crate) fn asks_for_reasons(name: &str, matches: &ArgMatches<'_>) -> bool
    ensures { result ≡ parsed.asks_for_reasons name.now (found_of matches.now) }
{
    is_given(matches, "long") || is_given(matches, "by-cause") || asks_for_records(name, matches)
}

/// Whether the command with this name, another one than `compare`, is asked for records.
fn asks_for_records(name: &str, matches: &ArgMatches<'_>) -> bool
    ensures { result ≡ parsed.asks_for_records name.now (found_of matches.now) }
{
    name != "compare" && value_of(matches, "format") == "json"
}

/// What the command with this name, `missed` or `check`, asks of reasons.
fn question_of<'a>(name: &str, matches: &ArgMatches<'_>) -> Question<'a>
    ensures { question_view result ≡ parsed.question_of name.now (found_of matches.now) }
{
    let exit_code = is_given(matches, "exit-code");
    match name {
        "check" => Question::Check { exit_code },
        _ => Question::Missed {
            form: missed_form_of(matches),
            exit_code,
        },
    }
}

/// The form in which `missed` says why symbols don't have their assigned values.
fn missed_form_of(matches: &ArgMatches<'_>) -> MissedForm
    ensures { result ≡ parsed.missed_form_of (found_of matches.now) }
{
    if is_given(matches, "by-cause") {
        MissedForm::Causes
    } else {
        MissedForm::Lines
    }
}

/// The message with which `--long` is refused beside `--by-cause`.
const TWO_FORMS: &str = "error: the argument '--long' cannot be used with '--by-cause'

For more information, try '--help'.
";

/// The command with this name, `missed` or `check`, that asks for reasons, with its options and files; refused with both `--long` and
/// `--by-cause`.
pub(crate) fn reasons_job_of<'a>(
    alloc: Global,
    name: &str,
    matches: &ArgMatches<'a>,
) -> Result<ExplainJob<'a>, Refusal>
    ensures { Agrees explain_job_view (parsed.reasons_job_of name.now (found_of matches.now)) result }
{
    if has_two_forms(matches) {
        return Err(Refusal::Words(TWO_FORMS));
    }
    question_job_of(alloc, name, matches)
}

/// Whether both `--long` and `--by-cause` are given.
fn has_two_forms(matches: &ArgMatches<'_>) -> bool
    ensures { result ≡ parsed.has_two_forms (found_of matches.now) }
{
    is_given(matches, "long") && is_given(matches, "by-cause")
}

/// The command with this name, `missed` or `check`, that asks for reasons in one form, with its options and files.
fn question_job_of<'a>(
    alloc: Global,
    name: &str,
    matches: &ArgMatches<'a>,
) -> Result<ExplainJob<'a>, Refusal>
    ensures { Agrees explain_job_view (parsed.question_job_of name.now (found_of matches.now)) result }
{
    let files = values_of(alloc, matches, "FILE")?;
    let settings = settings_of(alloc, matches, &files)?;
    Ok(ExplainJob {
        settings,
        question: question_of(name, matches),
        files,
    })
}
