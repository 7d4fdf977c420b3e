//! The outputs of the verbs `min`, `full`, `missed` and `check`, and of `compare`.
ghost use Rattle.std.specs.Prelude.{◌≡◌, [], Ok, true, codes, IfOk};
ghost use Rattle.kc_rules_model.specs.Reports.{unmet};
ghost use Rattle.kc_dotconfig_model.specs.MissedAssignments.{missed};
ghost use Rattle.std.specs.List.{flat_map};
ghost use Rattle.kc_minimal_model.specs.Differences.{differences};
ghost use Rattle.kc_rules.specs.between.SettledViews.{profile_of};
ghost use Rattle.kc_config.specs.ConfigStates.{tree_in};
ghost use Rattle.kc_dotconfig_model.specs.between.Formats as formats;
ghost use Rattle.kmin_outputs.specs.Outputs.{name_line, IsTextOfVerb, difference_line};
ghost use Rattle.kmin_outputs.specs.Statuses.{status_of_list, status_of_verb};
ghost use Rattle.kmin_options.specs.Jobs.{Settings};

use crate::symbol_lines::{difference_lines, name_lines};
use kc_config::Config;
use kc_dotconfig::{Format, Strings};
use kc_minimal::{compare, full_text, minimal_text};
use kc_tree::Sym;
use kmin_options::Verb;
use kmin_records::OutputForm;
use std::alloc::{AllocError, Global};

/// The output of a command, and its exit status.
#[derive(Drop)]
pub struct JobOutput {
    pub text: Vec<u8>,
    pub status: u8,
}

/// The output of a verb for a configuration, and its status: 1 if a symbol is listed with `--exit-code`, else 0.
pub fn output_of_verb(
    alloc: Global,
    verb: Verb,
    config: &Config<'_>,
    format: &Format,
) -> Result<JobOutput, AllocError>
    ensures text { IfOk result (λ output. (settings : Settings) → settings.format ≡ formats.file_format format.now → settings.profile ≡ profile_of config.now.system → IsTextOfVerb settings (tree_in config.now) config.now.users config.now.values verb output.text.items) }
    ensures status { IfOk result (λ output. output.status ≡ status_of_verb (tree_in config.now) config.now.users config.now.values verb) }
{
    match verb {
        Verb::Min => file_output(minimal_text(alloc, config, format)),
        Verb::Full => file_output(full_text(alloc, config, format)),
        Verb::Missed { exit_code } => missed_output(alloc, exit_code, config),
        Verb::Check { exit_code } => unmet_output(alloc, exit_code, config),
    }
}

/// The output that is a configuration file, with status 0.
fn file_output(text: Result<Vec<u8>, AllocError>) -> Result<JobOutput, AllocError>
    ensures text { IfOk result (λ output. text ≡ Ok output.text) }
    ensures status { IfOk result (λ output. output.status ≡ 0) }
{
    Ok(JobOutput {
        text: text?,
        status: 0,
    })
}

/// The output of `missed`: a line with the name of each symbol that hasn't the value that a file assigns.
fn missed_output(
    alloc: Global,
    exit_code: bool,
    config: &Config<'_>,
) -> Result<JobOutput, AllocError>
    ensures text { IfOk result (λ output. output.text.items ≡ flat_map (name_line [] (tree_in config.now)) (missed (tree_in config.now) config.now.users config.now.values)) }
    ensures status { IfOk result (λ output. output.status ≡ status_of_list exit_code (missed (tree_in config.now) config.now.users config.now.values)) }
{
    let symbols = config.missed()?;
    let text = name_lines(alloc, "", config.settled().tree(), &symbols)?;
    let status = list_status(exit_code, &symbols);
    Ok(JobOutput { text, status })
}

/// The output of `check`: a line `unmet NAME` for each symbol that is selected against its dependencies.
fn unmet_output(
    alloc: Global,
    exit_code: bool,
    config: &Config<'_>,
) -> Result<JobOutput, AllocError>
    ensures text { IfOk result (λ output. output.text.items ≡ flat_map (name_line (codes "unmet ") (tree_in config.now)) (unmet (tree_in config.now) config.now.values)) }
    ensures status { IfOk result (λ output. output.status ≡ status_of_list exit_code (unmet (tree_in config.now) config.now.values)) }
{
    let symbols = config.settled().unmet(alloc, config.values())?;
    let text = name_lines(alloc, "unmet ", config.settled().tree(), &symbols)?;
    let status = list_status(exit_code, &symbols);
    Ok(JobOutput { text, status })
}

/// The exit status of a list of symbols: 1 if it has any and `exit_code` is set, else 0.
pub fn list_status(exit_code: bool, symbols: &[Sym]) -> u8
    ensures { result ≡ status_of_list exit_code symbols.now }
{
    if exit_code && !symbols.is_empty() {
        return 1;
    }
    0
}

/// The output of `compare` in a form: the differences of two configurations of one tree, in one profile; and the status, 1 if
/// there are any.
pub fn compared(
    alloc: Global,
    left: &Config<'_>,
    right: &Config<'_>,
    form: OutputForm,
    strings: Strings,
) -> Result<JobOutput, AllocError>
    requires tree { tree_in left.now ≡ tree_in right.now }
    requires profile { profile_of left.now.system ≡ profile_of right.now.system }
    ensures text { IfOk result (λ output. output.text.items ≡ flat_map (difference_line form strings (tree_in left.now)) (differences (tree_in left.now) left.now.values right.now.values)) }
    ensures status { IfOk result (λ output. output.status ≡ status_of_list true (differences (tree_in left.now) left.now.values right.now.values)) }
{
    let found = compare(alloc, left, right)?;
    let text = difference_lines(
        alloc,
        form,
        strings,
        left.settled(),
        left.values(),
        right.values(),
        &found,
    )?;
    let status = if found.is_empty() { 0 } else { 1 };
    Ok(JobOutput { text, status })
}
