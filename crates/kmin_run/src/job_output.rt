//! The output of commands over configuration files.
ghost use Rattle.std.specs.Prelude.{◌≡◌, ◌≢◌, ◌≤◌, ◌⊎◌, ◌∷◌, ◌++◌, [], List, ℕ, true, map, IfOk, IfErr};
ghost use Rattle.std.specs.Borrow.{Bor};
ghost use Rattle.std.specs.List.{flat_map};
ghost use Rattle.std.specs.Io.KnownBytes.{Appends};
ghost use Rattle.kc_tree_model.specs.TreeFiles as trees;
ghost use Rattle.kc_rules.specs.between.SettledViews.{tree_of_settled, profile_of};
ghost use Rattle.kc_dotconfig_model.specs.between.Formats.{file_format};
ghost use Rattle.kc_config.specs.ConfigStates.{IsSolved, tree_in};
ghost use Rattle.kc_minimal_model.specs.Differences.{differences};
ghost use Rattle.kmin_options.specs.Jobs.{Settings as GivenSettings, settings_view, task_view, over, compare};
ghost use Rattle.kmin_outputs.specs.Outputs.{HasOutput, IsTextOfVerb, difference_line};
ghost use Rattle.kmin_outputs.specs.Statuses.{status_of_list, status_of_verb};
ghost use Rattle.kmin_trees.specs.AcceptedTrees.{AreAccepted};
ghost use Rattle.kmin_expansions.specs.JobTexts.{TreeTexts, AreTextsOfJob};
ghost use Rattle.kmin_run.specs.PartialOutputs.{WritesOutputInPart};
ghost use Rattle.kmin_report.specs.Reports.{ErrorLine, last_lines};
ghost use Rattle.kmin_report.specs.StandardError.{TakesLines};
ghost use Rattle.kc_files.specs.TreeContents.{HasRisen};
ghost use Rattle.kmin_outputs.specs.Stops.{Stops, StopsAmongFiles, StopsBefore};
ghost use Rattle.kmin_outputs.specs.between.Comparisons.{AreBothNoticed, AreBothRead, AreNoticed, StopsProducingOutput, StopsComparing};
ghost use Rattle.kmin_outputs.specs.between.LoadStops.{StopsOverTree};
ghost use Rattle.kmin_report.specs.between.RunErrors.{status_of};

use kc_rules::Settled;
use kc_value::Sink;
use kmin_inputs::Files;
use kmin_options::{Job, Settings, Task, Verb};
use kmin_outputs::{
    JobOutput, ReadFiles, compared, configured, configured_by, finish, notice_choices,
    output_of_verb,
};
use kmin_report::{Messages, RunError};
use kmin_trees::job_tree;
use std::alloc::Global;

/// Runs a command over configuration files, writes its output, and returns the exit status: 0 done, 1 a comparison
/// found differences, or symbols are listed with `--exit-code`, 3 tree refused, 4 configuration file refused, 5 a read
/// or write failed, 6 out of memory.
///
/// The output is complete before the first write. Standard error gets a line `FILE:LINE: KIND` for each notice and for
/// the fault that ended the run, at once; a failed write there has no influence. The notices on choices come once all files
/// are accepted and solved.
///
/// Where an option turns the expansion of macros on, the tree is expanded first: status 3 is also a fault of the
/// expansion, 4 an answer file refused, and the notices of the expansion come first, as `FILE:LINE: KIND TEXT`.
pub fn serve<F: Files, O: Sink, E: Messages>(
    alloc: Global,
    job: &Job<'_>,
    files: &mut F,
    out: &mut O,
    err: &mut E,
) -> u8
    ensures status { result ≤ 6 }
    ensures accepted_words { result ≢ 2 }

    // The tree and the files are accepted, exactly the output is written, no write failed, and the notices of the
    // tree's expansion and of the files are reported.
    ensures done { (result ≡ 0) ⊎ (result ≡ 1) → (t : TreeTexts) × (text : List ℕ) × (notices : List ErrorLine) × AreTextsOfJob (F.surroundings files.old) (settings_view job.now.settings) t × HasOutput (F.surroundings files.old).content (settings_view job.now.settings) t.texts (task_view job.now.task) text result notices × Appends (O.taken out.old) (O.taken out.new) text × TakesLines (E.taken err.old) (E.failures err.old) (t.lines ++ notices) (E.taken err.new) (E.failures err.new) }
    ensures unfailed { (result ≡ 0) ⊎ (result ≡ 1) → O.failures out.new ≡ O.failures out.old }

    // On every other status the fault that ended the run is reported, after the notices of the tree's expansion and of
    // the files accepted before.
    ensures stopped { (result ≢ 0) × (result ≢ 1) → (lines : List ErrorLine) × Stops (F.surroundings files.old) (F.failures files.old) (F.failures files.new) (settings_view job.now.settings) (task_view job.now.task) result lines × TakesLines (E.taken err.old) (E.failures err.old) (lines ++ last_lines result) (E.taken err.new) (E.failures err.new) }

    // On status 5 the writer took the first bytes of the output, or nothing.
    ensures part { result ≡ 5 → (O.taken out.new ≡ O.taken out.old) ⊎ WritesOutputInPart (F.surroundings files.old) (settings_view job.now.settings) (task_view job.now.task) (O.taken out.old) (O.taken out.new) }

    ensures unwritten { result ≢ 0 → result ≢ 1 → result ≢ 5 → O.taken out.new ≡ O.taken out.old }

    // On status 5 a file couldn't be opened, or a read of a file or a write of the output failed.
    ensures failed { result ≡ 5 → HasRisen (F.failures files.old) (F.failures files.new) ⊎ HasRisen (O.failures out.old) (O.failures out.new) }
{
    let output = output_of_job(alloc, job, files, err);
    finish(output, out, err)
}

/// The complete output of a command, and its status. Reports the notices, and why there is no output.
pub(crate) fn output_of_job<F: Files, E: Messages>(
    alloc: Global,
    job: &Job<'_>,
    files: &mut F,
    err: &mut E,
) -> Result<JobOutput, RunError>
    ensures status { IfOk result (λ output. output.status ≤ 1) }
    ensures output { IfOk result (λ output. (t : TreeTexts) × (notices : List ErrorLine) × AreTextsOfJob (F.surroundings files.old) (settings_view job.now.settings) t × HasOutput (F.surroundings files.old).content (settings_view job.now.settings) t.texts (task_view job.now.task) output.text.items output.status notices × TakesLines (E.taken err.old) (E.failures err.old) (t.lines ++ notices) (E.taken err.new) (E.failures err.new)) }
    ensures stopped { IfErr result (λ stop. (lines : List ErrorLine) × StopsBefore (F.surroundings files.old) (F.failures files.old) (F.failures files.new) (settings_view job.now.settings) (task_view job.now.task) (status_of stop) lines × TakesLines (E.taken err.old) (E.failures err.old) lines (E.taken err.new) (E.failures err.new)) }
    ensures failed { IfErr result (λ stop. status_of stop ≡ 5 → HasRisen (F.failures files.old) (F.failures files.new)) }
{
    let settled = job_tree(alloc, &job.settings, files, err)?;
    let by = &SettledJob {
        alloc,
        settings: &job.settings,
        settled: &settled,
    };
    let output = by.output(&job.task, files, err);
    drop(settled);
    output
}

/// The settings of a command, and its settled tree.
#[derive(Clone, Copy)]
struct SettledJob<'a, 's> {
    alloc: Global,
    settings: &'a Settings<'s>,
    settled: &'a Settled,
    ghost profile: { profile_of settled.now ≡ settings.now.profile },
}

impl SettledJob<'_, '_> {
    /// The output of a command, and its status. Reports the notices, and why there is no output.
    fn output<F: Files, E: Messages>(
        &self,
        task: &Task<'_>,
        files: &mut F,
        err: &mut E,
    ) -> Result<JobOutput, RunError>
        ensures status { IfOk result (λ output. output.status ≤ 1) }
        ensures output { IfOk result (λ output. (notices : List ErrorLine) × ((texts : trees.Files) → AreAccepted texts self.now.settings.now.tree.now (tree_of_settled self.now.settled.now) → HasOutput (F.surroundings files.old).content (settings_view self.now.settings.now) texts (task_view task.now) output.text.items output.status notices) × TakesLines (E.taken err.old) (E.failures err.old) notices (E.taken err.new) (E.failures err.new)) }
        ensures stopped { IfErr result (λ stop. (lines : List ErrorLine) × StopsOverTree (F.surroundings files.old).content (settings_view self.now.settings.now) (tree_of_settled self.now.settled.now) (task_view task.now) (status_of stop) lines × TakesLines (E.taken err.old) (E.failures err.old) lines (E.taken err.new) (E.failures err.new)) }
        ensures failed { IfErr result (λ stop. status_of stop ≡ 5 → HasRisen (F.failures files.old) (F.failures files.new)) }
        ensures rising { F.failures files.old ≤ F.failures files.new }
    {
        match task {
            Task::Over { verb, files: paths } => self.output_of_files(*verb, paths, files, err),
            Task::Compare { left, right } => self.output_of_comparison(left, right, files, err),
        }
    }

    /// The output of a verb over the configuration of all files, and its status. Reports the notices, and why there is no
    /// output.
    fn output_of_files<F: Files, E: Messages>(
        &self,
        verb: Verb,
        paths: &[&str],
        files: &mut F,
        err: &mut E,
    ) -> Result<JobOutput, RunError>
        ensures status { IfOk result (λ output. output.status ≤ 1) }
        ensures output { IfOk result (λ output. (notices : List ErrorLine) × ((texts : trees.Files) → AreAccepted texts self.now.settings.now.tree.now (tree_of_settled self.now.settled.now) → HasOutput (F.surroundings files.old).content (settings_view self.now.settings.now) texts (over verb (map (λ (path : Bor (List ℕ)). path.now) paths.now)) output.text.items output.status notices) × TakesLines (E.taken err.old) (E.failures err.old) notices (E.taken err.new) (E.failures err.new)) }
        ensures stopped { IfErr result (λ stop. (lines : List ErrorLine) × StopsOverTree (F.surroundings files.old).content (settings_view self.now.settings.now) (tree_of_settled self.now.settled.now) (over verb (map (λ (path : Bor (List ℕ)). path.now) paths.now)) (status_of stop) lines × TakesLines (E.taken err.old) (E.failures err.old) lines (E.taken err.new) (E.failures err.new)) }
        ensures failed { IfErr result (λ stop. status_of stop ≡ 5 → HasRisen (F.failures files.old) (F.failures files.new)) }
        ensures rising { F.failures files.old ≤ F.failures files.new }
    {
        let read = configured(self.alloc, self.settled, self.settings, paths, files, err)?;
        let output = noticed_output(self.alloc, self.settings, verb, paths, &read, err);
        drop(read);
        output
    }

    /// The output of a comparison of two configurations of one file each, and its status. Reports the notices, and why
    /// there is no output.
    fn output_of_comparison<F: Files, E: Messages>(
        &self,
        left: &str,
        right: &str,
        files: &mut F,
        err: &mut E,
    ) -> Result<JobOutput, RunError>
        ensures status { IfOk result (λ output. output.status ≤ 1) }
        ensures output { IfOk result (λ output. (notices : List ErrorLine) × ((texts : trees.Files) → AreAccepted texts self.now.settings.now.tree.now (tree_of_settled self.now.settled.now) → HasOutput (F.surroundings files.old).content (settings_view self.now.settings.now) texts (compare left.now right.now) output.text.items output.status notices) × TakesLines (E.taken err.old) (E.failures err.old) notices (E.taken err.new) (E.failures err.new)) }
        ensures stopped { IfErr result (λ stop. (lines : List ErrorLine) × StopsOverTree (F.surroundings files.old).content (settings_view self.now.settings.now) (tree_of_settled self.now.settled.now) (compare left.now right.now) (status_of stop) lines × TakesLines (E.taken err.old) (E.failures err.old) lines (E.taken err.new) (E.failures err.new)) }
        ensures failed { IfErr result (λ stop. status_of stop ≡ 5 → HasRisen (F.failures files.old) (F.failures files.new)) }
        ensures rising { F.failures files.old ≤ F.failures files.new }
    {
        let (before, after) = read_both(
            self.alloc,
            self.settled,
            self.settings,
            left,
            right,
            files,
            err,
        )?;
        let output = noticed_comparison(
            self.alloc,
            self.settings,
            left,
            right,
            &before,
            &after,
            err,
        );
        drop(after);
        drop(before);
        output
    }
}

/// The output of a verb over a configuration of files at these paths, and its status, once the notices on its choices are
/// reported. Reports why there is no output.
fn noticed_output<E: Messages>(
    alloc: Global,
    settings: &Settings<'_>,
    verb: Verb,
    paths: &[&str],
    read: &ReadFiles<'_>,
    err: &mut E,
) -> Result<JobOutput, RunError>
    ensures text { IfOk result (λ output. (given : GivenSettings) → given.format ≡ file_format settings.now.format → given.profile ≡ profile_of read.now.config.system → IsTextOfVerb given (tree_in read.now.config) read.now.config.users read.now.config.values verb output.text.items) }
    ensures status { IfOk result (λ output. output.status ≡ status_of_verb (tree_in read.now.config) read.now.config.users read.now.config.values verb) }
    ensures noticed { IfOk result (λ output. AreNoticed settings.now.strict (map (λ (path : Bor (List ℕ)). path.now) paths.now) read.now (E.taken err.old) (E.failures err.old) (E.taken err.new) (E.failures err.new)) }
    ensures stopped { IfErr result (λ stop. StopsProducingOutput settings.now.strict (map (λ (path : Bor (List ℕ)). path.now) paths.now) read.now (status_of stop) (E.taken err.old) (E.failures err.old) (E.taken err.new) (E.failures err.new)) }
{
    notice_choices(alloc, settings, paths, read, err)?;
    Ok(output_of_verb(alloc, verb, &read.config, &settings.format)?)
}

/// The configurations of two files, each by itself. Reports the notices of the files' lines, and why one is refused.
fn read_both<'a, F: Files, E: Messages>(
    alloc: Global,
    settled: &'a Settled,
    settings: &Settings<'_>,
    left: &str,
    right: &str,
    files: &mut F,
    err: &mut E,
) -> Result<(ReadFiles<'a>, ReadFiles<'a>), RunError>
    ensures same { F.surroundings files.new ≡ F.surroundings files.old }
    ensures settled { IfOk result (λ both. (both.0.config.system ≡ settled.now) × (both.1.config.system ≡ settled.now)) }
    ensures solved { IfOk result (λ both. IsSolved both.0.config × IsSolved both.1.config) }
    ensures loaded { IfOk result (λ both. AreBothRead (F.surroundings files.old).content (file_format settings.now.format) settings.now.strict (tree_of_settled settled.now) left.now right.now both.0 both.1 (E.taken err.old) (E.failures err.old) (E.taken err.new) (E.failures err.new)) }
    ensures stopped { IfErr result (λ stop. (lines : List ErrorLine) × StopsAmongFiles (F.surroundings files.old).content (file_format settings.now.format) settings.now.strict (tree_of_settled settled.now) (left.now ∷ right.now ∷ []) (status_of stop) lines × TakesLines (E.taken err.old) (E.failures err.old) lines (E.taken err.new) (E.failures err.new)) }
    ensures rising { F.failures files.old ≤ F.failures files.new }
    ensures failed { IfErr result (λ stop. status_of stop ≡ 5 → HasRisen (F.failures files.old) (F.failures files.new)) }
{
    let before = configured_by(alloc, settled, settings, left, files, err)?;
    match configured_by(alloc, settled, settings, right, files, err) {
        Ok(after) => Ok((before, after)),
        Err(stop) => {
            drop(before);
            Err(stop)
        }
    }
}

/// The output of a comparison of two configurations of one file each, and its status, once the notices on their choices are
/// reported. Reports why there is no output.
fn noticed_comparison<E: Messages>(
    alloc: Global,
    settings: &Settings<'_>,
    left: &str,
    right: &str,
    before: &ReadFiles<'_>,
    after: &ReadFiles<'_>,
    err: &mut E,
) -> Result<JobOutput, RunError>
    requires { before.now.config.system ≡ after.now.config.system }
    ensures text { IfOk result (λ output. output.text.items ≡ flat_map (difference_line settings.now.output_form settings.now.format.strings (tree_in before.now.config)) (differences (tree_in before.now.config) before.now.config.values after.now.config.values)) }
    ensures status { IfOk result (λ output. output.status ≡ status_of_list true (differences (tree_in before.now.config) before.now.config.values after.now.config.values)) }
    ensures noticed { IfOk result (λ output. AreBothNoticed settings.now.strict left.now right.now before.now after.now (E.taken err.old) (E.failures err.old) (E.taken err.new) (E.failures err.new)) }
    ensures stopped { IfErr result (λ stop. StopsComparing settings.now.strict left.now right.now before.now after.now (status_of stop) (E.taken err.old) (E.failures err.old) (E.taken err.new) (E.failures err.new)) }
{
    notice_choices(alloc, settings, &[left], before, err)?;
    notice_choices(alloc, settings, &[right], after, err)?;
    Ok(compared(
        alloc,
        &before.config,
        &after.config,
        settings.output_form,
        settings.format.strings,
    )?)
}
