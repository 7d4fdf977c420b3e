//! Commands whose output goes to a file.
ghost use Rattle.std.specs.Prelude.{◌≡◌, ◌≢◌, ◌≤◌, ◌⊎◌, [], List, ℕ, IfErr, OnOk};
ghost use Rattle.kmin_disk.specs.declared.fault.UpdateFault.{UpdateFault as TheFault};
ghost use Rattle.kmin_options.specs.Jobs.{settings_view, task_view};
ghost use Rattle.kmin_report.specs.StandardError.{TakesLine, TakesLines};
ghost use Rattle.kc_files.specs.TreeContents.{HasRisen};
ghost use Rattle.kmin_run.specs.Saves.{IsSaved, IsUnsaved, SaveEnds, replace_lines, replace_status, update_lines, update_status};
ghost use Rattle.kmin_report.specs.between.ReportLines.{report_line};
ghost use Rattle.kmin_report.specs.between.RunErrors.{status_of};
ghost use Rattle.kmin_report.specs.Reports.{ErrorLine};

use crate::job_output::output_of_job;
use kmin_disk::{ReplaceFault, UpdateFault, WriteDisk, update};
use kmin_inputs::Files;
use kmin_options::OutputJob;
use kmin_report::{Message, Messages, RunError, exit_status};
use std::alloc::Global;

/// Runs a command over configuration files, writes its output to a file of the disk, and returns the exit status: 0 done or
/// equal, 1 a comparison found differences, or symbols are listed with `--exit-code`, 3 tree refused, 4 configuration file or
/// answer file refused, 5 a read or write failed, or the path of the output leads to no regular file, 6 out of memory.
///
/// The output file is written last: where there is no output, it is as it was. It is replaced whole or not at all, as
/// by [`update`], so it may be one of the files that were read.
pub fn save<F: Files, D: WriteDisk, E: Messages>(
    alloc: Global,
    output_job: &OutputJob<'_>,
    files: &mut F,
    disk: &mut D,
    err: &mut E,
) -> u8
    ensures status { result ≤ 6 }
    ensures accepted_words { result ≢ 2 }

    // The file has exactly the output, or there is no output, or the file can't be written; and the reason is reported,
    // after the notices of the files that were accepted.
    ensures ends { (lines : List ErrorLine) × SaveEnds (F.surroundings files.old) (F.failures files.old) (F.failures files.new) (settings_view output_job.now.job.settings) (task_view output_job.now.job.task) output_job.now.output.now
        (D.disk disk.old) (D.disk disk.new) lines result × TakesLines (E.taken err.old) (E.failures err.old) lines (E.taken err.new) (E.failures err.new) }

    // On status 5 a file couldn't be opened, or a read of a file failed, or the output file wasn't updated, or not for good.
    ensures failed { result ≡ 5 → HasRisen (F.failures files.old) (F.failures files.new)
        ⊎ ((text : List ℕ) × (fault : TheFault) × IsUnsaved (D.disk disk.old) (D.disk disk.new) output_job.now.output.now text fault) }
{
    match output_of_job(alloc, &output_job.job, files, err) {
        Ok(output) => match save_text(alloc, output_job.output, &output.text, disk, err) {
            Ok(()) => output.status,
            Err(stop) => exit_status(stop, err),
        },
        Err(stop) => exit_status(stop, err),
    }
}

/// Writes a text to the output file. Reports why it can't be written.
fn save_text<D: WriteDisk, E: Messages>(
    alloc: Global,
    path: &str,
    text: &[u8],
    disk: &mut D,
    err: &mut E,
) -> Result<(), RunError>
    ensures saved { OnOk result (IsSaved (D.disk disk.old) (D.disk disk.new) path.now text.now) }
    ensures unreported { OnOk result (TakesLines (E.taken err.old) (E.failures err.old) [] (E.taken err.new) (E.failures err.new)) }
    ensures unsaved { IfErr result (λ stop. (fault : TheFault) × IsUnsaved (D.disk disk.old) (D.disk disk.new) path.now text.now fault
        × (status_of stop ≡ update_status fault) × TakesLines (E.taken err.old) (E.failures err.old) (update_lines path.now fault) (E.taken err.new) (E.failures err.new)) }
{
    match update(alloc, disk, path, text) {
        Ok(()) => Ok(()),
        Err(fault) => Err(report_update(path, fault, err)),
    }
}

/// Reports why the output file wasn't updated, or not for good, and returns the error that ends the run. Out of memory
/// is reported later.
fn report_update<E: Messages>(path: &str, fault: UpdateFault, err: &mut E) -> RunError
    ensures status { status_of result ≡ update_status fault }
    ensures reported { TakesLines (E.taken err.old) (E.failures err.old) (update_lines path.now fault) (E.taken err.new) (E.failures err.new) }
{
    match fault {
        UpdateFault::Unread => report_failure(Message::Unwritten(path), err),
        UpdateFault::Replace(fault) => report_replace(path, fault, err),
    }
}

/// Reports why the output file wasn't replaced, or not for good, and returns the error that ends the run. Out of memory
/// is reported later.
fn report_replace<E: Messages>(path: &str, fault: ReplaceFault, err: &mut E) -> RunError
    ensures status { status_of result ≡ replace_status fault }
    ensures reported { TakesLines (E.taken err.old) (E.failures err.old) (replace_lines path.now fault) (E.taken err.new) (E.failures err.new) }
{
    match fault {
        ReplaceFault::NotRegular => report_failure(Message::NotRegular(path), err),
        ReplaceFault::Unchanged => report_failure(Message::Unwritten(path), err),
        ReplaceFault::NamesTaken => report_failure(Message::Unwritten(path), err),
        ReplaceFault::Left(new_path) => report_failure(Message::Left(&new_path), err),
        ReplaceFault::FolderNotSynced => report_failure(Message::Unwritten(path), err),
        ReplaceFault::OutOfMemory => RunError::Memory,
    }
}

/// Reports a failure, and returns it as the error of the run.
fn report_failure<E: Messages>(report: Message<'_>, err: &mut E) -> RunError
    ensures error { result ≡ RunError.Failed }
    ensures reported { TakesLine (E.taken err.old) (E.failures err.old) (report_line report.entry) (E.taken err.new) (E.failures err.new) }
{
    err.write_report(report);
    RunError::Failed
}
