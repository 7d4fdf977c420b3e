//! The option `--output`.
ghost use Rattle.std.specs.Prelude.{◌≡◌, ℕ, List, bytes_eq, option_map};
ghost use Rattle.std.specs.List.{list_any};
ghost use Rattle.std.specs.Borrow.{Bor};
ghost use Rattle.clap.specs.Words.{found_of};
ghost use Rattle.kmin_options.specs.Jobs.{settings_view, task_view};
ghost use Rattle.kmin_options.specs.between.OptionValues as options;
ghost use Rattle.kmin_cli.specs.between.WordValues as parsed;
ghost use Rattle.kmin_options.specs.between.Refusals.{Agrees};

use crate::command_line::job_with;
use clap::ArgMatches;
use kc_value::has_newline;
use kmin_options::{Job, Refusal, Task, Verb, is_given};
use std::alloc::Global;

/// The command with this name over configuration files, and the path of its output file, if one is given.
pub(crate) fn job_and_output<'a>(
    alloc: Global,
    name: &str,
    matches: &ArgMatches<'a>,
) -> Result<(Job<'a>, Option<&'a str>), Refusal>
    ensures { Agrees (λ found. ((settings_view found.0.settings, task_view found.0.task), option_map (λ path. path.now) found.1)) (parsed.job_and_output_of name.now (found_of matches.now)) result }
{
    let output = output_of(matches)?;
    let job = job_with(alloc, name, matches)?;
    let job = kept_in_place(job, output, is_given(matches, "drop"));
    Ok((job, output))
}

/// The command itself; a file with a notice is refused, unless `drop`, where `min` replaces a file that it reads.
fn kept_in_place<'a>(job: Job<'a>, output: Option<&str>, drop: bool) -> Job<'a>
    ensures { (settings_view result.settings, task_view result.task) ≡ parsed.kept_in_place drop (option_map (λ path. path.now) output.entry) (settings_view job.entry.settings, task_view job.entry.task) }
{
    let Job { mut settings, task } = job;
    settings.strict = settings.strict || (minimises_in_place(&task, output) && !drop);
    Job { settings, task }
}

/// Whether a command is `min` with an output file that is one of the files that it reads. Paths are compared as texts.
fn minimises_in_place(task: &Task<'_>, output: Option<&str>) -> bool
    ensures { result ≡ parsed.minimises_in_place (task_view task.now) (option_map (λ path. path.now) output.entry) }
{
    let Some(output) = output else {
        return false;
    };
    match task {
        Task::Over { verb, files } => is_min(*verb) && is_among(output, files),
        Task::Compare { .. } => false,
    }
}

/// Whether a verb is `min`.
fn is_min(verb: Verb) -> bool
    ensures { result ≡ parsed.is_min verb }
{
    match verb {
        Verb::Min => true,
        _ => false,
    }
}

/// Whether a path is one of these, compared as texts.
fn is_among(path: &str, paths: &[&str]) -> bool
    ensures { result ≡ list_any (λ (other : Bor (List ℕ)). bytes_eq other.now path.now) paths.now }
{
    paths.iter().any(|other| *other == path)
}

/// The message with which `-` is refused as the output file.
const UNWRITTEN_DASH: &str = "error: '-' isn't written as a file

  tip: without -o standard output is written, ./- is a file of that name
";

/// The value of `--output`, if it is given. A path with a newline is refused, and so is `-`.
fn output_of<'a>(matches: &ArgMatches<'a>) -> Result<Option<&'a str>, Refusal>
    ensures { Agrees (option_map (λ path. path.now)) (parsed.output_of (found_of matches.now)) result }
{
    match matches.get_str("output") {
        Some(path) if has_newline(path.as_bytes()) => Err(Refusal::Words("file: Malformed\n")),
        Some("-") => Err(Refusal::Words(UNWRITTEN_DASH)),
        output => Ok(output),
    }
}
