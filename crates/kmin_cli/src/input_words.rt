//! Words that name standard input.
ghost use Rattle.std.specs.Prelude.{◌≡◌, ◌&&◌, ◌||◌, map, option_map, List, ℕ, IfOk};
ghost use Rattle.std.specs.List.{list_any};
ghost use Rattle.std.specs.Borrow.{Bor};
ghost use Rattle.kmin_cli.specs.Inputs.{do_settings_read_input, does_tidy_read_input, inputs_named, is_input, is_list_input, reads_input};
ghost use Rattle.kmin_options.specs.Jobs.{explain_job_view, list_view, paths_of, settings_view, task_view, tidy_job_view};
ghost use Rattle.kmin_cli.specs.Parses.{AreParsedBeside};

use crate::command_line::{ParsedWords, read_words};
use kmin_options::{ExplainJob, Job, PathList, Settings, Task, TidyJob};
use std::alloc::{AllocError, Global};

/// The message with which standard input that is named twice is refused.
pub const NAMED_TWICE: &str = "stdin: NamedTwice\n";

/// Parses words as `read_words` does. Where standard input was read for some of them (`is_input_read`), words that read it once more
/// are refused, since they would find no bytes. An `Err` means out of memory.
pub fn read_words_beside<'a>(
    alloc: Global,
    words: &'a [&'a str],
    is_input_read: bool,
) -> Result<ParsedWords<'a>, AllocError>
    ensures { IfOk result (AreParsedBeside is_input_read (map (λ (word : Bor (List ℕ)). word.now) words.now)) }
{
    let parsed = read_words(alloc, words)?;
    if is_named_twice(is_input_read, &parsed) {
        drop(parsed);
        return Ok(ParsedWords::Refused(String::from_str(alloc, NAMED_TWICE)?));
    }
    Ok(parsed)
}

/// Whether what was parsed reads standard input, which was read before.
fn is_named_twice(is_input_read: bool, parsed: &ParsedWords<'_>) -> bool
    ensures { result ≡ (is_input_read && reads_input parsed.now) }
{
    is_input_read && reads_input(parsed)
}

/// How many of the paths name standard input.
pub fn inputs_named(paths: &[&str]) -> usize
    ensures { result ≡ inputs_named (map (λ (path : Bor (List ℕ)). path.now) paths.now) }
{
    let mut count = 0;
    for path in paths {
        if is_input(path) {
            count += 1;
        }
    }
    count
}

/// Whether a path names standard input: `-` or `/dev/stdin`, compared as texts.
fn is_input(path: &str) -> bool
    ensures { result ≡ is_input path.now }
{
    path == "-" || path == "/dev/stdin"
}

/// Whether one of the paths names standard input.
fn is_any_input(paths: &[&str]) -> bool
    ensures { result ≡ list_any (λ (path : Bor (List ℕ)). is_input path.now) paths.now }
{
    paths.iter().any(|path| is_input(path))
}

/// Whether what was parsed reads standard input: an answer file, a configuration file or the list of `tidy` is it.
#[tactic(auto, using(kmin_options::proofs::Lists::any_map))]
fn reads_input(parsed: &ParsedWords<'_>) -> bool
    ensures { result ≡ reads_input parsed.now }
{
    match parsed {
        ParsedWords::Job(job) => does_job_read_input(job),
        ParsedWords::Save(output_job) => does_job_read_input(&output_job.job),
        ParsedWords::Questions(questions) => is_any_input(&questions.expansion.answers),
        ParsedWords::Tidy(tidy_job) => does_tidy_read_input(tidy_job),
        ParsedWords::Explain(explain_job) => does_explain_read_input(explain_job),
        ParsedWords::Help(_) => false,
        ParsedWords::Refused(_) => false,
    }
}

/// Whether a command over configuration files reads standard input.
fn does_job_read_input(job: &Job<'_>) -> bool
    ensures { result ≡ (do_settings_read_input (settings_view job.now.settings) || list_any is_input (paths_of (task_view job.now.task))) }
{
    do_settings_read_input(&job.settings) || does_task_read_input(&job.task)
}

/// Whether one of the configuration files of a command is standard input.
#[tactic(auto, using(kmin_options::proofs::Lists::any_map))]
fn does_task_read_input(task: &Task<'_>) -> bool
    ensures { result ≡ list_any is_input (paths_of (task_view task.now)) }
{
    match task {
        Task::Over { files, .. } => is_any_input(files),
        Task::Compare { left, right } => is_input(left) || is_input(right),
    }
}

/// Whether the options of a command have an answer file that is standard input.
#[tactic(auto, using(kmin_options::proofs::Lists::any_map))]
fn do_settings_read_input(settings: &Settings<'_>) -> bool
    ensures { result ≡ do_settings_read_input (settings_view settings.now) }
{
    match &settings.expansion {
        Some(expansion) => is_any_input(&expansion.answers),
        None => false,
    }
}

/// Whether the command `tidy` reads standard input.
#[tactic(auto, using(kmin_options::proofs::Lists::any_map))]
fn does_tidy_read_input(tidy_job: &TidyJob<'_>) -> bool
    ensures { result ≡ does_tidy_read_input (tidy_job_view tidy_job.now) }
{
    do_settings_read_input(&tidy_job.settings)
        || is_any_input(&tidy_job.files)
        || is_list_input(tidy_job.list)
}

/// Whether the command `explain` reads standard input.
#[tactic(auto, using(kmin_options::proofs::Lists::any_map))]
fn does_explain_read_input(explain_job: &ExplainJob<'_>) -> bool
    ensures { result ≡ (do_settings_read_input (settings_view explain_job.now.settings) || list_any is_input (explain_job_view explain_job.now).files) }
{
    do_settings_read_input(&explain_job.settings) || is_any_input(&explain_job.files)
}

/// Whether the list of `tidy`, if there is one, is standard input.
fn is_list_input(list: Option<PathList<'_>>) -> bool
    ensures { result ≡ is_list_input (option_map list_view list.entry) }
{
    match list {
        Some(list) => is_input(list.path),
        None => false,
    }
}
