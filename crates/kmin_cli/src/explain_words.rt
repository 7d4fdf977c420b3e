//! The words of `kmin explain`.
ghost use Rattle.std.specs.Prelude.{◌≡◌, List, ℕ, map, option_map, IfOk};
ghost use Rattle.std.specs.Borrow.{Bor};
ghost use Rattle.clap.specs.Words.{found_of};
ghost use Rattle.kmin_options.specs.Jobs.{explain_job_view};
ghost use Rattle.kmin_cli.specs.between.WordValues as parsed;
ghost use Rattle.kmin_options.specs.between.Refusals.{Agrees};

use crate::command_line::settings_of;
use clap::ArgMatches;
use kmin_options::{ExplainFlags, ExplainJob, Question, Refusal, is_given, value_of, values_of};
use std::alloc::{AllocError, Global};

/// The command `kmin explain`, with its options, flags, names and files.
pub(crate) fn explain_job_of<'a>(
    alloc: Global,
    matches: &ArgMatches<'a>,
) -> Result<ExplainJob<'a>, Refusal>
    ensures { Agrees explain_job_view (parsed.explain_job_of (found_of matches.now)) result }
{
    let files = explained_files_of(alloc, matches)?;
    let settings = settings_of(alloc, matches, &files)?;
    Ok(ExplainJob {
        settings,
        question: Question::Explain {
            flags: explain_flags_of(matches),
            names: names_of(matches),
        },
        files,
    })
}

/// The flags `--deep`, `--all` and `--exit-code`.
fn explain_flags_of(matches: &ArgMatches<'_>) -> ExplainFlags
    ensures { result ≡ parsed.explain_flags_of (found_of matches.now) }
{
    ExplainFlags {
        deep: is_given(matches, "deep"),
        all: is_given(matches, "all"),
        exit_code: is_given(matches, "exit-code"),
    }
}

/// The names; `None` with `--every`.
fn names_of<'a>(matches: &ArgMatches<'a>) -> Option<&'a str>
    ensures { option_map (λ (names : Bor (List ℕ)). names.now) result ≡ parsed.names_of (found_of matches.now) }
{
    if is_given(matches, "every") {
        None
    } else {
        Some(value_of(matches, "NAME"))
    }
}

/// The files, of which with `--every` the first is where the names are without it.
fn explained_files_of<'a>(
    alloc: Global,
    matches: &ArgMatches<'a>,
) -> Result<Vec<&'a str>, AllocError>
    ensures { IfOk result (λ files. map (λ (path : Bor (List ℕ)). path.now) files.items ≡ parsed.explained_files_of (found_of matches.now)) }
{
    if !is_given(matches, "every") {
        return values_of(alloc, matches, "FILE");
    }
    let mut files = Vec::new(alloc);
    if let Some(first) = matches.get_str("NAME") {
        files.push(first)?;
    }
    files.extend_from_slice(&values_of(alloc, matches, "FILE")?)?;
    Ok(files)
}
