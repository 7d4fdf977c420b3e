//! The commands that give reasons: `explain`, and `missed` and `check` where they ask for them.
ghost use Rattle.std.specs.Prelude.{◌≡◌, ◌≢◌, ◌≤◌, ◌⊎◌, ◌++◌, List, ℕ, IfOk, IfErr};
ghost use Rattle.std.specs.Io.KnownBytes.{Appends};
ghost use Rattle.kc_rules.specs.between.SettledViews.{profile_of, tree_model_of};
ghost use Rattle.kc_symbol_lines.specs.between.Indexes.{IsReadTree};
ghost use Rattle.kmin_options.specs.Jobs.{explain_job_view};
ghost use Rattle.kmin_explain_command.specs.Explains.{Explains};
ghost use Rattle.kmin_explain_command.specs.Stops.{ExplainsInPart, StopsExplaining};
ghost use Rattle.kmin_explain_command.specs.between.Ends.{ExplainsOver, StopsOver};
ghost use Rattle.kmin_report.specs.Reports.{ErrorLine, last_lines};
ghost use Rattle.kc_files.specs.TreeContents.{HasRisen};
ghost use Rattle.kmin_report.specs.StandardError.{TakesLines};
ghost use Rattle.kmin_report.specs.between.RunErrors.{status_of};
ghost use Rattle.kmin_expansions.specs.JobTexts.{TreeTexts, AreTextsOfJob};

use crate::lined_files::read_lined;
use crate::texts::explained_files;
use kc_value::Sink;
use kmin_inputs::Files;
use kmin_options::ExplainJob;
use kmin_outputs::{JobOutput, finish};
use kmin_report::{Messages, RunError};
use kmin_trees::{LinedTree, job_tree_with_lines};
use std::alloc::Global;

/// Says of each symbol that the job names, or with `--every` of all, why it has its value; or of those that are missed why they are,
/// or of those that are selected against their dependencies by what; writes that text, and returns the exit status: 0 done, 1 with
/// `--exit-code` a line for a named symbol isn't taken, or a symbol is missed or selected so, 3 tree refused, 4 configuration file
/// refused or a name that means no symbol, 5 a read or write failed, 6 out of memory.
///
/// The output is complete before the first write. Standard error gets the same lines as of a command over the configuration of these
/// files, then one for the first name that means no symbol, `explain: UnknownSymbol NAME (nearest OTHER)`; a failed write there has no
/// influence.
pub fn explain<F: Files, O: Sink, E: Messages>(
    alloc: Global,
    job: &ExplainJob<'_>,
    files: &mut F,
    out: &mut O,
    err: &mut E,
) -> u8
    ensures status { result ≤ 6 }
    ensures accepted_words { result ≢ 2 }

    // The tree and the files are accepted, exactly the output is written, no write failed, and the notices of the tree's expansion and
    // of the files are reported.
    ensures done { (result ≡ 0) ⊎ (result ≡ 1) → (t : TreeTexts) × (text : List ℕ) × (lines : List ErrorLine) × AreTextsOfJob (F.surroundings files.old) (explain_job_view job.now).settings t × Explains (F.surroundings files.old).content (explain_job_view job.now) t text result lines × Appends (O.taken out.old) (O.taken out.new) text × TakesLines (E.taken err.old) (E.failures err.old) lines (E.taken err.new) (E.failures err.new) }
    ensures unfailed { (result ≡ 0) ⊎ (result ≡ 1) → O.failures out.new ≡ O.failures out.old }

    // On every other status the fault that ended the run is reported, after the notices of the tree's expansion and of the files
    // accepted before.
    ensures stopped { (result ≢ 0) × (result ≢ 1) → (lines : List ErrorLine) × StopsExplaining (F.surroundings files.old) (F.failures files.old) (F.failures files.new) (explain_job_view job.now) result lines × TakesLines (E.taken err.old) (E.failures err.old) (lines ++ last_lines result) (E.taken err.new) (E.failures err.new) }

    // On status 5 the writer took the first bytes of the output, or nothing.
    ensures part { result ≡ 5 → (O.taken out.new ≡ O.taken out.old) ⊎ ExplainsInPart (F.surroundings files.old) (explain_job_view job.now) (O.taken out.old) (O.taken out.new) }

    ensures unwritten { result ≢ 0 → result ≢ 1 → result ≢ 5 → O.taken out.new ≡ O.taken out.old }

    // On status 5 a file couldn't be opened, or a read of a file or a write of the output failed.
    ensures failed { result ≡ 5 → HasRisen (F.failures files.old) (F.failures files.new) ⊎ HasRisen (O.failures out.old) (O.failures out.new) }
{
    let output = explained(alloc, job, files, err);
    finish(output, out, err)
}

/// The output of the command, and its status. Reports the notices, and why there is no output.
fn explained<F: Files, E: Messages>(
    alloc: Global,
    job: &ExplainJob<'_>,
    files: &mut F,
    err: &mut E,
) -> Result<JobOutput, RunError>
    ensures status { IfOk result (λ output. output.status ≤ 1) }
    ensures output { IfOk result (λ output. (t : TreeTexts) × (lines : List ErrorLine) × AreTextsOfJob (F.surroundings files.old) (explain_job_view job.now).settings t × Explains (F.surroundings files.old).content (explain_job_view job.now) t output.text.items output.status lines × TakesLines (E.taken err.old) (E.failures err.old) lines (E.taken err.new) (E.failures err.new)) }
    ensures stopped { IfErr result (λ stop. (lines : List ErrorLine) × StopsExplaining (F.surroundings files.old) (F.failures files.old) (F.failures files.new) (explain_job_view job.now) (status_of stop) lines × TakesLines (E.taken err.old) (E.failures err.old) lines (E.taken err.new) (E.failures err.new)) }
    ensures failed { IfErr result (λ stop. status_of stop ≡ 5 → HasRisen (F.failures files.old) (F.failures files.new)) }
{
    let tree = job_tree_with_lines(alloc, &job.settings, files, err)?;
    let output = explained_over(alloc, job, &tree, files, err);
    drop(tree);
    output
}

/// The output over a tree with its lines, and its status. Reports the notices of the files, and why there is no output.
fn explained_over<F: Files, E: Messages>(
    alloc: Global,
    job: &ExplainJob<'_>,
    tree: &LinedTree,
    files: &mut F,
    err: &mut E,
) -> Result<JobOutput, RunError>
    requires profile { profile_of tree.now.settled ≡ job.now.settings.profile }
    requires read { IsReadTree (tree_model_of tree.now.settled) tree.now.lines }
    ensures status { IfOk result (λ output. output.status ≤ 1) }
    ensures output { IfOk result (λ output. ExplainsOver (F.surroundings files.old).content (explain_job_view job.now) tree.now output.text.items output.status (E.taken err.old) (E.failures err.old) (E.taken err.new) (E.failures err.new)) }
    ensures stopped { IfErr result (λ stop. StopsOver (F.surroundings files.old).content (explain_job_view job.now) tree.now (status_of stop) (E.taken err.old) (E.failures err.old) (E.taken err.new) (E.failures err.new)) }
    ensures rising { F.failures files.old ≤ F.failures files.new }
    ensures failed { IfErr result (λ stop. status_of stop ≡ 5 → HasRisen (F.failures files.old) (F.failures files.new)) }
{
    let found = read_lined(alloc, &tree.settled, &job.settings, &job.files, files, err)?;
    let output = explained_files(alloc, job, tree, &found, files.seed(), err);
    drop(found);
    output
}
