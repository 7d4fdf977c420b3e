//! The command `tidy`, which compares each configuration file with its minimal file, or replaces it.
ghost use Rattle.std.specs.Prelude.{◌≡◌, ◌≢◌, ◌≤◌, ◌⊎◌, ◌++◌, [], List, ℕ, Option, false, map, option_map, IfOk, IfErr, IsErrOf, OnOk};
ghost use Rattle.std.specs.List.{list_all};
ghost use Rattle.std.specs.Str.{is_utf8};
ghost use Rattle.std.specs.Borrow.{Bor};
ghost use Rattle.kmin_lines.specs.Lists.{paths_in, is_one_line};
ghost use Rattle.kmin_lines.specs.between.Texts.{texts_of};
ghost use Rattle.kmin_options.specs.Jobs.{list_view, settings_view, tidy_job_view};
ghost use Rattle.kmin_report.specs.Reports.{ErrorLine};
ghost use Rattle.kmin_report.specs.StandardError.{TakesLine, TakesLines};
ghost use Rattle.kc_files.specs.TreeContents.{HasRisen};
ghost use Rattle.kmin_run.specs.TidyRuns.{IsGoneOver, AreListBytes, AreNamed, StopsAtList, PathsEnd, TidyEnds, is_ended_by_nul, options_of};
ghost use Rattle.kmin_inputs.specs.ListFiles.{malformed_line};
ghost use Rattle.kmin_report.specs.between.RunErrors.{status_of};

use crate::program::{HasState, Program};
use kc_value::{Sink, Source};
use kmin_disk::WriteDisk;
use kmin_inputs::{Files, read_list};
use kmin_lines::{ListFault, listed_paths};
use kmin_options::{PathList, Settings, TidyFlags, TidyJob};
use kmin_report::{Message, Messages, RunError, exit_status};
use kmin_tidy::{Tidier, TidyOptions, tidy_files};
use kmin_trees::job_tree;
use std::alloc::{AllocError, Global};

impl<F: Files, D: WriteDisk, I: Source, O: Sink, E: Messages> Program<F, D, I, O, E> {
    /// Tidies the files of the command on the disk, and then those that its list names, and returns the exit status: 2 a
    /// path in the list isn't UTF-8 or has a newline, 3 tree refused, 4 list too large, 5 list can't be read, 6 out of
    /// memory, and else the status of `tidy_files`. Where the list or the tree is refused, no configuration file is read.
    ///
    /// The list is read from `files`, or if its path is `-`, from `input`.
    pub fn tidy(&mut self, alloc: Global, tidy_job: &TidyJob<'_>) -> u8
        ensures status { result ≤ 6 }

        // The files are tidied as by `tidy_files`; or the list or the tree is refused, which is reported, and nothing
        // changes.
        ensures ends { (lines : List ErrorLine) × TidyEnds (F.surroundings self.old.files) (F.failures self.old.files) (F.failures self.new.files) (I.left self.old.input) (tidy_job_view tidy_job.now)
            (⟦<Self as HasState>⟧.state self.old).outputs (⟦<Self as HasState>⟧.state self.new).outputs lines result
            × TakesLines (E.taken self.old.err) (E.failures self.old.err) lines (E.taken self.new.err) (E.failures self.new.err) }

        // Without `--write` the disk doesn't change.
        ensures unasked { tidy_job.now.flags.write ≡ false → (D.disk self.new.disk).state ≡ (D.disk self.old.disk).state }

        // Where the list or the tree is refused, or memory runs out, nothing is written.
        ensures unwritten { result ≢ 0 → result ≢ 1 → result ≢ 4 → result ≢ 5 → O.taken self.new.out ≡ O.taken self.old.out }

        // On status 5 the list or an answer file couldn't be opened, or a read of one failed; or the files were gone over.
        ensures failed { result ≡ 5 → (HasRisen (F.failures self.old.files) (F.failures self.new.files) ⊎ HasRisen (I.failures self.old.input) (I.failures self.new.input))
            ⊎ IsGoneOver (⟦<Self as HasState>⟧.state self.old).outputs (⟦<Self as HasState>⟧.state self.new).outputs result }
    {
        let Program {
            files,
            input,
            err,
            ..
        } = self;
        let list = match list_bytes(alloc, tidy_job.list, files, input, err) {
            Ok(list) => list,
            Err(stop) => return exit_status(stop, err),
        };
        match all_paths(
            alloc,
            &tidy_job.files,
            &list,
            is_ended_by_nul(tidy_job.list),
        ) {
            Ok(paths) => self.tidy_paths(alloc, tidy_job, &paths),
            Err(ListFault::OutOfMemory) => exit_status(RunError::Memory, err),
            Err(ListFault::NotUtf8) => refuse_list(err),
            Err(ListFault::HasNewline) => refuse_list(err),
        }
    }

    /// Tidies the files of these paths over the tree of the command.
    fn tidy_paths(&mut self, alloc: Global, tidy_job: &TidyJob<'_>, paths: &[&str]) -> u8
        ensures status { result ≤ 6 }
        ensures ends { (lines : List ErrorLine) × PathsEnd (F.surroundings self.old.files) (F.failures self.old.files) (F.failures self.new.files) (settings_view tidy_job.now.settings) tidy_job.now.flags (texts_of paths.now)
            (⟦<Self as HasState>⟧.state self.old).outputs (⟦<Self as HasState>⟧.state self.new).outputs lines result
            × TakesLines (E.taken self.old.err) (E.failures self.old.err) lines (E.taken self.new.err) (E.failures self.new.err) }
        ensures unasked { tidy_job.now.flags.write ≡ false → (D.disk self.new.disk).state ≡ (D.disk self.old.disk).state }
        ensures unwritten { result ≢ 0 → result ≢ 1 → result ≢ 4 → result ≢ 5 → O.taken self.new.out ≡ O.taken self.old.out }
        ensures rising { F.failures self.old.files ≤ F.failures self.new.files }
        ensures failed { result ≡ 5 → HasRisen (F.failures self.old.files) (F.failures self.new.files) ⊎ IsGoneOver (⟦<Self as HasState>⟧.state self.old).outputs (⟦<Self as HasState>⟧.state self.new).outputs result }
    {
        match job_tree(alloc, &tidy_job.settings, &mut self.files, &mut self.err) {
            Ok(settled) => {
                let by = &Tidier {
                    alloc,
                    format: &tidy_job.settings.format,
                    options: options_of(&tidy_job.settings, tidy_job.flags),
                };
                let status = tidy_files(
                    by,
                    &settled,
                    paths,
                    &mut self.disk,
                    &mut self.out,
                    &mut self.err,
                );
                drop(settled);
                status
            }
            Err(stop) => exit_status(stop, &mut self.err),
        }
    }
}

/// Reports a list in which a path isn't UTF-8 or has a newline, or a file with a word that isn't UTF-8, and returns the exit
/// status.
pub(crate) fn refuse_list<E: Messages>(err: &mut E) -> u8
    ensures status { result ≡ 2 }
    ensures reported { TakesLine (E.taken err.old) (E.failures err.old) malformed_line (E.taken err.new) (E.failures err.new) }
{
    err.write_report(Message::RefusedWords("from: Malformed\n"));
    2
}

/// The options of `tidy_files` by those of the command.
fn options_of(settings: &Settings<'_>, flags: TidyFlags) -> TidyOptions
    ensures { result ≡ options_of (settings_view settings.now) flags }
{
    let TidyFlags { write, drop } = flags;
    TidyOptions {
        write,
        drop,
        strict: settings.strict,
        output_form: settings.output_form,
    }
}

/// Whether the paths of a list end with the byte 0 in place of a newline.
fn is_ended_by_nul(list: Option<PathList<'_>>) -> bool
    ensures { result ≡ is_ended_by_nul (option_map list_view list.entry) }
{
    match list {
        Some(list) => list.ended_by_nul,
        None => false,
    }
}

/// The paths of the command, and then those that a list of these bytes names.
fn all_paths<'a>(
    alloc: Global,
    paths: &[&'a str],
    list: &'a [u8],
    ended_by_nul: bool,
) -> Result<Vec<&'a str>, ListFault>
    ensures paths { IfOk result (λ all. map (λ (path : Bor (List ℕ)). path.now) all.items ≡ map (λ (path : Bor (List ℕ)). path.now) paths.now ++ paths_in ended_by_nul list.now) }
    ensures named { IfOk result (λ _. AreNamed (paths_in ended_by_nul list.now)) }
    ensures not_utf8 { IsErrOf result ListFault.NotUtf8 → list_all is_utf8 (paths_in ended_by_nul list.now) ≡ false }
    ensures has_newline { IsErrOf result ListFault.HasNewline → list_all is_one_line (paths_in ended_by_nul list.now) ≡ false }
{
    let listed = listed_paths(alloc, list, ended_by_nul)?;
    match joined(alloc, paths, &listed) {
        Ok(all) => Ok(all),
        Err(_) => Err(ListFault::OutOfMemory),
    }
}

/// The paths of two lists, one after the other.
fn joined<'a>(
    alloc: Global,
    paths: &[&'a str],
    others: &[&'a str],
) -> Result<Vec<&'a str>, AllocError>
    ensures { IfOk result (λ all. all.items ≡ paths.now ++ others.now) }
{
    let mut all = Vec::from_slice(alloc, paths)?;
    all.extend_from_slice(others)?;
    Ok(all)
}

/// The bytes of the list of a command, none if it has no list. Reports why the list can't be read.
fn list_bytes<F: Files, I: Source, E: Messages>(
    alloc: Global,
    list: Option<PathList<'_>>,
    files: &mut F,
    input: &mut I,
    err: &mut E,
) -> Result<Vec<u8>, RunError>
    ensures same { F.surroundings files.new ≡ F.surroundings files.old }
    ensures bytes { IfOk result (λ bytes. AreListBytes (F.surroundings files.old).content (I.left input.old) (option_map list_view list.entry) bytes.items) }
    ensures unreported { IfOk result (λ bytes. TakesLines (E.taken err.old) (E.failures err.old) [] (E.taken err.new) (E.failures err.new)) }
    ensures stopped { IfErr result (λ stop. (lines : List ErrorLine) × StopsAtList (F.surroundings files.old).content (I.left input.old) (option_map list_view list.entry) (status_of stop) lines × TakesLines (E.taken err.old) (E.failures err.old) lines (E.taken err.new) (E.failures err.new)) }
    ensures rising { F.failures files.old ≤ F.failures files.new }
    ensures unfailed { OnOk result (F.failures files.new ≡ F.failures files.old) }
    ensures failed { IfErr result (λ stop. status_of stop ≡ 5 → HasRisen (F.failures files.old) (F.failures files.new) ⊎ HasRisen (I.failures input.old) (I.failures input.new)) }
{
    match list {
        Some(list) => read_list(alloc, list.path, files, input, err),
        None => Ok(Vec::new(alloc)),
    }
}
