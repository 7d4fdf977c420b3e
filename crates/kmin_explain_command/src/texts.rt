//! The text of a command that gives reasons, for a configuration whose files were read.
ghost use Rattle.std.specs.Prelude.{◌≡◌, ◌≤◌, ◌<◌, ℕ, List, All, Option, length, IfOk, IfErr};
ghost use Rattle.kc_tree_model.specs.Blocks.{Group};
ghost use Rattle.kc_rules.specs.between.SettledViews.{tree_model_of};
ghost use Rattle.kc_config.specs.ConfigStates.{tree_in};
ghost use Rattle.kc_dotconfig_model.specs.ConfigLines.{LineMeaning};
ghost use Rattle.kc_symbol_lines.specs.between.Indexes.{IsReadTree};
ghost use Rattle.kmin_outputs.specs.between.Comparisons.{AreNoticed};
ghost use Rattle.kmin_explain.specs.between.Sources.{AreReadSources, AreSourcesOf, config_of, sources_model};
ghost use Rattle.kc_dotconfig_model.specs.MissedAssignments.{missed as missed_symbols};
ghost use Rattle.kc_rules_model.specs.Reports.{unmet as unmet_symbols};
ghost use Rattle.kmin_explain_command.specs.Explains.{IsExplained, explained_text, missed_text, symbols_in, unmet_text};
ghost use Rattle.kmin_explain_command.specs.between.Texts.{AreOfSources, IsOutputFor, IsOutputOf, StopsAfterFiles, IsTextOf, paths_of_job, sources_of, status_by};
ghost use Rattle.kmin_options.specs.Jobs.{explain_job_view, explain, missed, check};
ghost use Rattle.kmin_report.specs.between.RunErrors.{status_of};

use crate::lined_files::LinedFiles;
use crate::questions::names_of;
use crate::unknown_names::refuse_unknown;
use kc_symbol_lines::LineIndex;
use kc_tree::{Sym, Tree};
use kc_value::Seed;
use kmin_explain::{
    Sources, deep_symbols, every_symbol, explanation_of, is_one_hindered, named_symbols,
};
use kmin_explain_records::{records_of, records_of_missed};
use kmin_missed::{lines_of_missed, lines_of_unmet, missed_by_cause};
use kmin_options::{ExplainFlags, ExplainJob, MissedForm, Question};
use kmin_outputs::{JobOutput, list_status, notice_choices};
use kmin_records::OutputForm;
use kmin_report::{Messages, RunError};
use kmin_trees::LinedTree;
use std::alloc::{AllocError, Global};

/// The output for a configuration whose files were read, and its status, once the notices on its choices are reported. Reports why
/// there is no output.
pub(crate) fn explained_files<E: Messages>(
    alloc: Global,
    job: &ExplainJob<'_>,
    tree: &LinedTree,
    found: &LinedFiles<'_>,
    seed: Seed,
    err: &mut E,
) -> Result<JobOutput, RunError>
    requires system { found.now.read.config.system ≡ tree.now.settled }
    requires read { IsReadTree (tree_model_of tree.now.settled) tree.now.lines }
    ensures status { IfOk result (λ output. output.status ≤ 1) }
    ensures output { IfOk result (λ output. (read : List Group) (meanings : List (List LineMeaning)) → AreOfSources tree.now found.now read meanings → IsExplained (explain_job_view job.now) (sources_of job.now tree.now found.now read meanings) output.text.items output.status) }
    ensures noticed { IfOk result (λ output. AreNoticed job.now.settings.strict (paths_of_job job.now) found.now.read (E.taken err.old) (E.failures err.old) (E.taken err.new) (E.failures err.new)) }
    ensures stopped { IfErr result (λ stop. StopsAfterFiles job.now tree.now found.now (status_of stop) (E.taken err.old) (E.failures err.old) (E.taken err.new) (E.failures err.new)) }
{
    notice_choices(alloc, &job.settings, &job.files, &found.read, err)?;
    let symbols = found.read.config.settled().tree();
    refuse_unknown(alloc, job, symbols, err)?;
    Ok(text_of(alloc, job, tree, found, seed)?)
}

/// The output for a configuration whose files were read, and its status.
fn text_of(
    alloc: Global,
    job: &ExplainJob<'_>,
    tree: &LinedTree,
    found: &LinedFiles<'_>,
    seed: Seed,
) -> Result<JobOutput, AllocError>
    requires system { found.now.read.config.system ≡ tree.now.settled }
    requires read { IsReadTree (tree_model_of tree.now.settled) tree.now.lines }
    ensures status { IfOk result (λ output. output.status ≤ 1) }
    ensures output { IfOk result (λ output. (read : List Group) (meanings : List (List LineMeaning)) → AreOfSources tree.now found.now read meanings → IsOutputOf (explain_job_view job.now) (sources_of job.now tree.now found.now read meanings) output.text.items output.status) }
{
    let index = LineIndex::new(alloc, tree.settled.tree(), &tree.lines)?;
    let by = Sources {
        alloc,
        config: &found.read.config,
        lines: &tree.lines,
        index: &index,
        files: &found.lines,
        tree_paths: &tree.paths,
        file_paths: &job.files,
        strings: job.settings.format.strings,
    };
    output_by(job, &by, seed)
}

/// The output by what symbols are explained by, and its status.
fn output_by(job: &ExplainJob<'_>, by: &Sources<'_>, seed: Seed) -> Result<JobOutput, AllocError>
    requires read { AreReadSources by.now }
    ensures status { IfOk result (λ output. output.status ≤ 1) }
    ensures output { IfOk result (λ output. (read : List Group) (meanings : List (List LineMeaning)) → AreSourcesOf by.now read meanings → IsOutputOf (explain_job_view job.now) (sources_model by.now read meanings) output.text.items output.status) }
{
    match job.question {
        Question::Explain { flags, .. } => explained_output(job, flags, by),
        Question::Missed { form, exit_code } => missed_output(job, form, exit_code, by, seed),
        Question::Check { exit_code } => unmet_output(job, exit_code, by),
    }
}

/// The output for the symbols that a job names, with these flags, and its status.
fn explained_output(
    job: &ExplainJob<'_>,
    flags: ExplainFlags,
    by: &Sources<'_>,
) -> Result<JobOutput, AllocError>
    requires read { AreReadSources by.now }
    ensures status { IfOk result (λ output. output.status ≤ 1) }
    ensures output { (names : Option (List ℕ)) → IfOk result (λ output. (read : List Group) (meanings : List (List LineMeaning)) → AreSourcesOf by.now read meanings → IsOutputFor job.now.settings.output_form (explain flags names) (sources_model by.now read meanings) (symbols_in (explain_job_view job.now) (tree_in (config_of by.now))) output.text.items output.status) }
{
    let symbols = symbols_for(by.alloc, job, by.config.settled().tree())?;
    named_output(job.settings.output_form, flags, by, &symbols)
}

/// The output of `missed` in a form, and its status.
fn missed_output(
    job: &ExplainJob<'_>,
    form: MissedForm,
    exit_code: bool,
    by: &Sources<'_>,
    seed: Seed,
) -> Result<JobOutput, AllocError>
    requires read { AreReadSources by.now }
    ensures status { IfOk result (λ output. output.status ≤ 1) }
    ensures output { (named : List ℕ) → IfOk result (λ output. (read : List Group) (meanings : List (List LineMeaning)) → AreSourcesOf by.now read meanings → IsOutputFor job.now.settings.output_form (missed form exit_code) (sources_model by.now read meanings) named output.text.items output.status) }
{
    let symbols = by.config.missed()?;
    let output_form = job.settings.output_form;
    let text = missed_text(output_form, form, by, seed, &symbols)?;
    let status = list_status(exit_code, &symbols);
    Ok(JobOutput { text, status })
}

/// The text of `missed`, for the symbols that don't have the values that files assign: in a form, or their records.
fn missed_text(
    output_form: OutputForm,
    form: MissedForm,
    by: &Sources<'_>,
    seed: Seed,
    symbols: &[Sym],
) -> Result<Vec<u8>, AllocError>
    requires read { AreReadSources by.now }
    requires missed { symbols.now ≡ missed_symbols (tree_in (config_of by.now)) (config_of by.now).users (config_of by.now).values }
    ensures { (read : List Group) (meanings : List (List LineMeaning)) → AreSourcesOf by.now read meanings → IfOk result (λ text. text.items ≡ missed_text output_form form (sources_model by.now read meanings)) }
{
    match output_form {
        OutputForm::Plain => plain_missed_text(form, by, seed, symbols),
        OutputForm::Json => records_of_missed(by, symbols),
    }
}

/// The text of `missed` in a form, for the symbols that don't have the values that files assign.
fn plain_missed_text(
    form: MissedForm,
    by: &Sources<'_>,
    seed: Seed,
    symbols: &[Sym],
) -> Result<Vec<u8>, AllocError>
    requires read { AreReadSources by.now }
    requires missed { symbols.now ≡ missed_symbols (tree_in (config_of by.now)) (config_of by.now).users (config_of by.now).values }
    ensures { (read : List Group) (meanings : List (List LineMeaning)) → AreSourcesOf by.now read meanings → IfOk result (λ text. text.items ≡ missed_text OutputForm.Plain form (sources_model by.now read meanings)) }
{
    match form {
        MissedForm::Lines => lines_of_missed(by, symbols),
        MissedForm::Causes => missed_by_cause(by, seed, symbols),
    }
}

/// The output of `check` with reasons, and its status.
fn unmet_output(
    job: &ExplainJob<'_>,
    exit_code: bool,
    by: &Sources<'_>,
) -> Result<JobOutput, AllocError>
    requires read { AreReadSources by.now }
    ensures status { IfOk result (λ output. output.status ≤ 1) }
    ensures output { (named : List ℕ) → IfOk result (λ output. (read : List Group) (meanings : List (List LineMeaning)) → AreSourcesOf by.now read meanings → IsOutputFor job.now.settings.output_form (check exit_code) (sources_model by.now read meanings) named output.text.items output.status) }
{
    let symbols = by.config.settled().unmet(by.alloc, by.config.values())?;
    let output_form = job.settings.output_form;
    let text = unmet_text(output_form, by, &symbols)?;
    let status = list_status(exit_code, &symbols);
    Ok(JobOutput { text, status })
}

/// The text of `check` with reasons, for the symbols that are selected against their dependencies: lines, or their records.
fn unmet_text(
    output_form: OutputForm,
    by: &Sources<'_>,
    symbols: &[Sym],
) -> Result<Vec<u8>, AllocError>
    requires read { AreReadSources by.now }
    requires unmet { symbols.now ≡ unmet_symbols (tree_in (config_of by.now)) (config_of by.now).values }
    ensures { (read : List Group) (meanings : List (List LineMeaning)) → AreSourcesOf by.now read meanings → IfOk result (λ text. text.items ≡ unmet_text output_form (sources_model by.now read meanings)) }
{
    match output_form {
        OutputForm::Plain => lines_of_unmet(by, symbols),
        OutputForm::Json => records_of(by, false, symbols),
    }
}

/// The symbols that a job names, or all with `--every`.
fn symbols_for(alloc: Global, job: &ExplainJob<'_>, tree: &Tree) -> Result<Vec<Sym>, AllocError>
    ensures symbols { IfOk result (λ symbols. symbols.items ≡ symbols_in (explain_job_view job.now) tree.now.tree) }
    ensures there { IfOk result (λ symbols. All (λ s. s < length tree.now.tree.symbols) symbols.items) }
{
    match names_of(job.question) {
        None => every_symbol(alloc, tree.symbol_count()),
        Some(names) => named_symbols(alloc, tree, &job.settings.format.prefix, names),
    }
}

/// The output for symbols, and its status.
fn named_output(
    form: OutputForm,
    flags: ExplainFlags,
    by: &Sources<'_>,
    symbols: &[Sym],
) -> Result<JobOutput, AllocError>
    requires read { AreReadSources by.now }
    requires there { All (λ s. s < length (tree_in (config_of by.now)).symbols) symbols.now }
    ensures text { IfOk result (λ output. (read : List Group) (meanings : List (List LineMeaning)) → AreSourcesOf by.now read meanings → IsTextOf form flags (sources_model by.now read meanings) symbols.now output.text.items) }
    ensures status { IfOk result (λ output. (read : List Group) (meanings : List (List LineMeaning)) → AreSourcesOf by.now read meanings → output.status ≡ status_by flags (sources_model by.now read meanings) symbols.now) }
    ensures small { IfOk result (λ output. output.status ≤ 1) }
{
    let text = named_text(form, flags, by, symbols)?;
    let status = status_for(flags, by, symbols)?;
    Ok(JobOutput { text, status })
}

/// The text for symbols, and with `--deep` for those to go on with.
fn named_text(
    form: OutputForm,
    flags: ExplainFlags,
    by: &Sources<'_>,
    symbols: &[Sym],
) -> Result<Vec<u8>, AllocError>
    requires read { AreReadSources by.now }
    requires there { All (λ s. s < length (tree_in (config_of by.now)).symbols) symbols.now }
    ensures { IfOk result (λ text. (read : List Group) (meanings : List (List LineMeaning)) → AreSourcesOf by.now read meanings → IsTextOf form flags (sources_model by.now read meanings) symbols.now text.items) }
{
    if flags.deep {
        let deep = deep_symbols(by, symbols)?;
        return explained_text(form, by, flags.all, &deep);
    }
    explained_text(form, by, flags.all, symbols)
}

/// The text in a form for symbols, with each select and imply where `all` is set.
fn explained_text(
    form: OutputForm,
    by: &Sources<'_>,
    all: bool,
    symbols: &[Sym],
) -> Result<Vec<u8>, AllocError>
    requires read { AreReadSources by.now }
    requires there { All (λ s. s < length (tree_in (config_of by.now)).symbols) symbols.now }
    ensures { (read : List Group) (meanings : List (List LineMeaning)) → AreSourcesOf by.now read meanings → IfOk result (λ text. text.items ≡ explained_text form (sources_model by.now read meanings) all symbols.now) }
{
    match form {
        OutputForm::Plain => explanation_of(by, all, symbols),
        OutputForm::Json => records_of(by, all, symbols),
    }
}

/// The status for symbols: 1 with `--exit-code` where a line for one isn't taken, else 0.
fn status_for(flags: ExplainFlags, by: &Sources<'_>, symbols: &[Sym]) -> Result<u8, AllocError>
    requires there { All (λ s. s < length (tree_in (config_of by.now)).symbols) symbols.now }
    ensures status { IfOk result (λ status. (read : List Group) (meanings : List (List LineMeaning)) → AreSourcesOf by.now read meanings → status ≡ status_by flags (sources_model by.now read meanings) symbols.now) }
    ensures small { IfOk result (λ status. status ≤ 1) }
{
    if !flags.exit_code {
        return Ok(0);
    }
    let is_hindered = is_one_hindered(by, symbols)?;
    Ok(if is_hindered { 1 } else { 0 })
}
