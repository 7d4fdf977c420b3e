//! Parses the words of the command line into a job.
ghost use Rattle.std.specs.Prelude.{◌≡◌, ◌≢◌, Ok, IfOk, map, option_map, List, ℕ};
ghost use Rattle.std.specs.Borrow.{Bor};
ghost use Rattle.clap.specs.Words.{found_of, kind_of};
ghost use Rattle.kmin_options.specs.Jobs.{settings_view, questions_view, task_view, paths_of};
ghost use Rattle.kmin_cli.specs.Parses.{AreParsedAs, IsText};
ghost use Rattle.kmin_options.specs.between.OptionValues as options;
ghost use Rattle.kmin_cli.specs.between.WordValues as parsed;
ghost use Rattle.kmin_options.specs.between.Refusals.{Agrees};

use crate::explain_words::explain_job_of;
use crate::names::{nearest, with_tip};
use crate::output_words::job_and_output;
use crate::reasons_words::{asks_for_reasons, reasons_job_of};
use crate::tidy_words::tidy_job_of;
use clap::error::ErrorKind;
use clap::{ArgMatches, Error};
use kc_dotconfig_model::{Format, Strings};
use kc_rules_model::Profile;
use kc_tokens::{Language, LinuxVersion};
use kmin_commands::{command_names, explained_names, kind_asked, message_tables, program};
use kmin_messages::Form;
use kmin_options::{
    ExplainJob, Job, OutputJob, Questions, Refusal, Settings, Task, TidyJob, Verb, check_inputs,
    expansion_if_given, expansion_of, is_given, name_prefix_of, value_of, values_of,
};
use kmin_records::OutputForm;
use std::alloc::{AllocError, Global};

/// The words after the program's name, parsed.
#[derive(Drop)]
pub enum ParsedWords<'a> {
    /// A command over configuration files whose output goes to standard output.
    Job(Job<'a>),
    /// A command over configuration files whose output goes to a file.
    Save(OutputJob<'a>),
    /// `kmin wants`, which lists the open questions of a tree's macros, or the answers that they don't use.
    Questions(Questions<'a>),
    /// `kmin tidy`, which compares each file with its minimal file, or replaces it.
    Tidy(TidyJob<'a>),
    /// A command that gives reasons: `kmin explain`, or `kmin missed` or `kmin check` with `--long` or `--by-cause`.
    Explain(ExplainJob<'a>),
    /// The text of the help or of the version, if the words request it.
    Help(String),
    /// The message for words that are refused.
    Refused(String),
}

/// Parses the words of the command line after the program's name. An `Err` means out of memory.
pub fn read_words<'a>(alloc: Global, words: &'a [&'a str]) -> Result<ParsedWords<'a>, AllocError>
    ensures { IfOk result (AreParsedAs (map (λ (word : Bor (List ℕ)). word.now) words.now)) }
{
    let tables = message_tables();
    let help = kind_asked(alloc, &tables, words)?;
    if !help.is_empty() {
        return Ok(ParsedWords::Help(help));
    }
    match program(alloc)?.try_get_matches_from(words) {
        Ok(matches) => {
            let (name, matches) = matches.subcommand().unwrap();
            named_job(alloc, name, matches)
        }
        Err(error) => clap_message(alloc, words, &error),
    }
}

/// The help or the message that `clap` gives in place of a job, unless memory ran out.
fn clap_message<'a>(
    alloc: Global,
    words: &[&str],
    error: &Error,
) -> Result<ParsedWords<'a>, AllocError>
    ensures text { IfOk result IsText }
    ensures memory { IfOk result (λ parsed. kind_of error.now ≢ ErrorKind.OutOfMemory) }
{
    if error.kind() == ErrorKind::OutOfMemory {
        return Err(AllocError);
    }
    let text = format!(in alloc; "{error}")?;
    if error.kind() == ErrorKind::InvalidSubcommand {
        return Ok(ParsedWords::Refused(with_some_tip(alloc, words, text)?));
    }
    if error.use_stderr() {
        return Ok(ParsedWords::Refused(text));
    }
    Ok(ParsedWords::Help(text))
}

/// Adds the tip of a similar name to the message for an unknown command, unless it has a tip or no name is similar.
fn with_some_tip(alloc: Global, words: &[&str], message: String) -> Result<String, AllocError> {
    if message.contains("\n  tip: ") {
        return Ok(message);
    }
    match name_near(alloc, words)? {
        Some(name) => with_tip(alloc, &message, name),
        None => Ok(message),
    }
}

/// A name similar to a mistyped word: that of a command, or after `help` any that it explains.
fn name_near(alloc: Global, words: &[&str]) -> Result<Option<&'static str>, AllocError> {
    match words {
        [first, second] if *first == "help" => nearest(alloc, second, &explained_names(alloc)?),
        [first, ..] if *first != "help" => nearest(alloc, first, &command_names(alloc)?),
        _ => Ok(None),
    }
}

/// The job of a command by its name, or the message for a value that isn't allowed.
fn named_job<'a>(
    alloc: Global,
    name: &str,
    matches: &ArgMatches<'a>,
) -> Result<ParsedWords<'a>, AllocError>
    ensures { IfOk result (parsed.HasValues name.now (found_of matches.now)) }
{
    match accepted_job(alloc, name, matches) {
        Ok(job) => Ok(job),
        Err(Refusal::Words(line)) => Ok(ParsedWords::Refused(String::from_str(alloc, line)?)),
        Err(Refusal::OutOfMemory) => Err(AllocError),
    }
}

/// The job of a command by its name.
fn accepted_job<'a>(
    alloc: Global,
    name: &str,
    matches: &ArgMatches<'a>,
) -> Result<ParsedWords<'a>, Refusal>
    ensures { parsed.Gives (parsed.HasValues name.now (found_of matches.now)) result }
{
    match name {
        "wants" => Ok(ParsedWords::Questions(questions_of(alloc, matches)?)),
        "tidy" => Ok(ParsedWords::Tidy(tidy_job_of(alloc, matches)?)),
        "explain" => Ok(ParsedWords::Explain(explain_job_of(alloc, matches)?)),
        _ if asks_for_reasons(name, matches) => {
            Ok(ParsedWords::Explain(reasons_job_of(alloc, name, matches)?))
        }
        _ => {
            let (job, output) = job_and_output(alloc, name, matches)?;
            Ok(with_output(job, output))
        }
    }
}

/// A command over configuration files, with its output file if one is given.
fn with_output<'a>(job: Job<'a>, output: Option<&'a str>) -> ParsedWords<'a>
    ensures { parsed.AreJob (Ok ((settings_view job.entry.settings, task_view job.entry.task), option_map (λ path. path.now) output.entry)) result }
{
    match output {
        Some(output) => ParsedWords::Save(OutputJob { job, output }),
        None => ParsedWords::Job(job),
    }
}

/// The command `wants`, with its values.
fn questions_of<'a>(alloc: Global, matches: &ArgMatches<'a>) -> Result<Questions<'a>, Refusal>
    ensures { Agrees questions_view (parsed.questions_of (found_of matches.now)) result }
{
    let expansion = expansion_of(alloc, matches)?;
    check_inputs(matches, &[])?;
    let root = value_of(matches, "root");
    let tree = value_of(matches, "tree");
    let unused = is_given(matches, "unused");
    Ok(Questions {
        root,
        tree,
        expansion,
        unused,
        messages: form_of(value_of(matches, "messages")),
    })
}

/// The command with this name over configuration files, with the options and files that `clap` found.
pub(crate) fn job_with<'a>(
    alloc: Global,
    name: &str,
    matches: &ArgMatches<'a>,
) -> Result<Job<'a>, Refusal>
    ensures { Agrees (λ job. (settings_view job.settings, task_view job.task)) (parsed.job_of name.now (found_of matches.now)) result }
{
    let task = task_of(alloc, name, matches)?;
    let settings = settings_beside(alloc, matches, &task)?;
    Ok(Job { settings, task })
}

/// The options of a command, which are refused where they and its files name standard input twice.
fn settings_beside<'a>(
    alloc: Global,
    matches: &ArgMatches<'a>,
    task: &Task<'a>,
) -> Result<Settings<'a>, Refusal>
    ensures { Agrees settings_view (parsed.settings_of (found_of matches.now) (paths_of (task_view task.now))) result }
{
    match task {
        Task::Over { files, .. } => settings_of(alloc, matches, files),
        Task::Compare { left, right } => settings_of(alloc, matches, &[left, right]),
    }
}

/// The options of a command over configuration files of these paths; refused if they and the answer files name standard input
/// more than once.
pub(crate) fn settings_of<'a>(
    alloc: Global,
    matches: &ArgMatches<'a>,
    paths: &[&str],
) -> Result<Settings<'a>, Refusal>
    ensures { Agrees settings_view (parsed.settings_of (found_of matches.now) (map (λ (path : Bor (List ℕ)). path.now) paths.now)) result }
{
    let prefix = name_prefix_of(matches)?;
    let expansion = expansion_if_given(alloc, matches)?;
    check_inputs(matches, paths)?;
    Ok(Settings {
        root: value_of(matches, "root"),
        tree: value_of(matches, "tree"),
        language: language_of(value_of(matches, "language"), expansion.is_some()),
        format: Format {
            prefix,
            strings: strings_of(value_of(matches, "strings")),
        },
        profile: profile_of(value_of(matches, "imply")),
        strict: is_given(matches, "strict"),
        expansion,
        messages: form_of(value_of(matches, "messages")),
        output_form: output_form_of(value_of(matches, "format")),
    })
}

/// The form of strings that a value of `--strings` names.
fn strings_of(value: &str) -> Strings
    ensures { result ≡ parsed.strings_of value.now }
{
    match value {
        "raw" => Strings::Raw,
        _ => Strings::Escaped,
    }
}

/// The language that a value of `--language` names. Without a value it is that of Linux where macros are expanded, and
/// else the strict one.
fn language_of(value: &str, is_expanded: bool) -> Language
    ensures { result ≡ parsed.language_of value.now is_expanded }
{
    match value {
        "strict" => Language::Strict,
        "linux" => Language::Linux(LinuxVersion::Unknown),
        "linux-6.1" => Language::Linux(LinuxVersion::V6_1),
        "linux-6.12" => Language::Linux(LinuxVersion::V6_12),
        _ if is_expanded => Language::Linux(LinuxVersion::Unknown),
        _ => Language::Strict,
    }
}

/// The profile that a value of `--imply` names.
fn profile_of(value: &str) -> Profile
    ensures { result ≡ parsed.profile_of value.now }
{
    match value {
        "classic" => Profile::Classic,
        _ => Profile::Present,
    }
}

/// The form of messages that a value of `--messages` names; `None` for plain ones.
fn form_of(value: &str) -> Option<Form>
    ensures { result ≡ parsed.form_of value.now }
{
    match value {
        "long" => Some(Form::Long),
        "json" => Some(Form::Json),
        _ => None,
    }
}

/// The form of what is listed that a value of `--format` names.
fn output_form_of(value: &str) -> OutputForm
    ensures { result ≡ parsed.output_form_of value.now }
{
    match value {
        "json" => OutputForm::Json,
        _ => OutputForm::Plain,
    }
}

/// The command of a name, with its files in their order.
fn task_of<'a>(alloc: Global, name: &str, matches: &ArgMatches<'a>) -> Result<Task<'a>, AllocError>
    ensures { IfOk result (λ task. task_view task ≡ parsed.task_of name.now (found_of matches.now)) }
{
    match verb_of(name, matches) {
        Some(verb) => Ok(Task::Over {
            verb,
            files: values_of(alloc, matches, "FILE")?,
        }),
        None => Ok(Task::Compare {
            left: value_of(matches, "LEFT"),
            right: value_of(matches, "RIGHT"),
        }),
    }
}

/// The verb that the name of a command means, with `--exit-code` where it is given; `None` for `compare`, and for `help`, which clap's
/// contract doesn't exclude.
fn verb_of(name: &str, matches: &ArgMatches<'_>) -> Option<Verb>
    ensures { result ≡ parsed.verb_of name.now (found_of matches.now) }
{
    let exit_code = is_given(matches, "exit-code");
    match name {
        "min" => Some(Verb::Min),
        "full" => Some(Verb::Full),
        "missed" => Some(Verb::Missed { exit_code }),
        "check" => Some(Verb::Check { exit_code }),
        _ => None,
    }
}
