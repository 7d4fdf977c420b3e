//! The files of the words `@FILE` of a command line.
ghost use Rattle.std.specs.Prelude.{◌≡◌, ◌≤◌, ◌⊎◌, ◌++◌, [], List, ℕ, false, map, IfOk, IfErr, OnOk};
ghost use Rattle.std.specs.Borrow.{Bor};
ghost use Rattle.kc_files.specs.TextViews.{texts_of};
ghost use Rattle.kmin_lines.specs.WordFiles.{files_of};
ghost use Rattle.kmin_cli.specs.Inputs.{inputs_named};
ghost use Rattle.kmin_report.specs.Reports.{ErrorLine, last_lines};
ghost use Rattle.kmin_report.specs.StandardError.{TakesLines};
ghost use Rattle.kc_files.specs.TreeContents.{HasRisen};
ghost use Rattle.kmin_report.specs.between.RunErrors.{status_of};
ghost use Rattle.kmin_inputs.specs.WordFiles.{AreFilesRead, StopsAtWords, is_input_read_for};
ghost use Rattle.kmin_inputs.specs.between.ReadFiles.{StopsAmongLists};

use crate::files::Files;
use crate::list_files::read_list;
use kc_value::Source;
use kmin_cli::{NAMED_TWICE, inputs_named};
use kmin_lines::files_of;
use kmin_report::{Message, Messages, RunError, exit_status};
use std::alloc::Global;

/// The bytes of the files of words `@FILE`.
#[derive(Drop)]
pub struct WordFiles {
    /// The bytes of each file, in the order of the words.
    pub files: Vec<Vec<u8>>,
    /// Whether one of the files is standard input.
    pub is_input_read: bool,
}

/// Reads the files of the words `@FILE` before a `--`, in order. Reports why one can't be read, or that two of them are standard
/// input, and returns the exit status.
pub fn read_word_files<F: Files, I: Source, E: Messages>(
    alloc: Global,
    words: &[&str],
    files: &mut F,
    input: &mut I,
    err: &mut E,
) -> Result<WordFiles, u8>
    ensures same { F.surroundings files.new ≡ F.surroundings files.old }
    ensures read { IfOk result (λ read. AreFilesRead (F.surroundings files.old).content (I.left input.old) (files_of (map (λ (word : Bor (List ℕ)). word.now) words.now)) (texts_of read.files)) }
    ensures input { IfOk result (λ read. read.is_input_read ≡ is_input_read_for (map (λ (word : Bor (List ℕ)). word.now) words.now)) }
    ensures unreported { IfOk result (λ read. TakesLines (E.taken err.old) (E.failures err.old) [] (E.taken err.new) (E.failures err.new)) }
    ensures stopped { IfErr result (λ status. (lines : List ErrorLine) × StopsAtWords (F.surroundings files.old).content (I.left input.old) (map (λ (word : Bor (List ℕ)). word.now) words.now) status lines × TakesLines (E.taken err.old) (E.failures err.old) (lines ++ last_lines status) (E.taken err.new) (E.failures err.new)) }

    // Standard input is read only for a word that names it.
    ensures untouched { is_input_read_for (map (λ (word : Bor (List ℕ)). word.now) words.now) ≡ false → I.left input.new ≡ I.left input.old }
    ensures unfailed { OnOk result (F.failures files.new ≡ F.failures files.old) }
    ensures input_unfailed { OnOk result (I.failures input.new ≡ I.failures input.old) }

    // On status 5 a file couldn't be opened, or a read failed.
    ensures failed { IfErr result (λ status. status ≡ 5 → HasRisen (F.failures files.old) (F.failures files.new) ⊎ HasRisen (I.failures input.old) (I.failures input.new)) }
{
    let Ok(paths) = files_of(alloc, words) else {
        return Err(exit_status(RunError::Memory, err));
    };
    let inputs = inputs_named(&paths);
    if inputs > 1 {
        err.write_report(Message::RefusedWords(NAMED_TWICE));
        return Err(2);
    }
    match read_lists(alloc, &paths, files, input, err) {
        Ok(files) => Ok(WordFiles {
            files,
            is_input_read: inputs > 0,
        }),
        Err(stop) => Err(exit_status(stop, err)),
    }
}

/// Reads the files at these paths, of which at most one names standard input, in order. Reports why one can't be read.
fn read_lists<F: Files, I: Source, E: Messages>(
    alloc: Global,
    paths: &[&str],
    files: &mut F,
    input: &mut I,
    err: &mut E,
) -> Result<Vec<Vec<u8>>, RunError>
    requires { inputs_named (map (λ (path : Bor (List ℕ)). path.now) paths.now) ≤ 1 }
    ensures same { F.surroundings files.new ≡ F.surroundings files.old }
    ensures read { IfOk result (λ all. AreFilesRead (F.surroundings files.old).content (I.left input.old) (map (λ (path : Bor (List ℕ)). path.now) paths.now) (texts_of all)) }
    ensures unreported { IfOk result (λ all. TakesLines (E.taken err.old) (E.failures err.old) [] (E.taken err.new) (E.failures err.new)) }
    ensures stopped { IfErr result (λ stop. (lines : List ErrorLine) × StopsAmongLists (F.surroundings files.old).content (I.left input.old) (map (λ (path : Bor (List ℕ)). path.now) paths.now) (status_of stop) lines × TakesLines (E.taken err.old) (E.failures err.old) lines (E.taken err.new) (E.failures err.new)) }
    ensures untouched { inputs_named (map (λ (path : Bor (List ℕ)). path.now) paths.now) ≡ 0 → I.left input.new ≡ I.left input.old }
    ensures unfailed { OnOk result (F.failures files.new ≡ F.failures files.old) }
    ensures input_unfailed { OnOk result (I.failures input.new ≡ I.failures input.old) }
    ensures failed { IfErr result (λ stop. status_of stop ≡ 5 → HasRisen (F.failures files.old) (F.failures files.new) ⊎ HasRisen (I.failures input.old) (I.failures input.new)) }
{
    let mut all = Vec::new(alloc);
    for path in paths {
        let bytes = read_list(alloc, path, files, input, err)?;
        all.push(bytes)?;
    }
    Ok(all)
}
