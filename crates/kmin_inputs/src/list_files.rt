//! Files that are read whole before all others: the list of `tidy --from`, and those of the words `@FILE`.
ghost use Rattle.std.specs.Prelude.{◌≡◌, ◌≤◌, ◌⊎◌, [], List, ℕ, Some, false, bytes_eq, codes, IfOk, IfErr, OnOk};
ghost use Rattle.kc_value.specs.FileContents.{FileContent, OpensAs};
ghost use Rattle.kc_files.specs.TreeContents.{HasRisen};
ghost use Rattle.kmin_report.specs.Reports.{ErrorLine, fault_line};
ghost use Rattle.kmin_report.specs.StandardError.{TakesLine, TakesLines};
ghost use Rattle.kmin_report.specs.between.RunErrors.{status_of};
ghost use Rattle.kmin_inputs.specs.ListFiles.{IsListRead, StopsReadingList, list_content};

use crate::files::Files;
use kc_dotconfig_model::LoadKind;
use kc_value::{MAX_BLOCK_BYTES, MAX_LIST_BYTES, ReadBytes, ReadEnd, Source, read_up_to};
use kmin_report::{Message, Messages, RunError};
use std::alloc::Global;

/// The bytes of the file at a path, or for `-` of standard input. Reports why they can't be read.
pub fn read_list<F: Files, I: Source, E: Messages>(
    alloc: Global,
    path: &str,
    files: &mut F,
    input: &mut I,
    err: &mut E,
) -> Result<Vec<u8>, RunError>
    ensures same { F.surroundings files.new ≡ F.surroundings files.old }
    ensures read { IfOk result (λ bytes. IsListRead (list_content (F.surroundings files.old).content (I.left input.old) path.now) bytes.items) }
    ensures unreported { IfOk result (λ bytes. TakesLines (E.taken err.old) (E.failures err.old) [] (E.taken err.new) (E.failures err.new)) }
    ensures stopped { IfErr result (λ stop. (lines : List ErrorLine) × StopsReadingList (list_content (F.surroundings files.old).content (I.left input.old) path.now) path.now (status_of stop) lines × TakesLines (E.taken err.old) (E.failures err.old) lines (E.taken err.new) (E.failures err.new)) }

    // Only `-` reads standard input.
    ensures untouched { bytes_eq path.now (codes "-") ≡ false → I.left input.new ≡ I.left input.old }
    ensures rising { F.failures files.old ≤ F.failures files.new }
    ensures unfailed { OnOk result (F.failures files.new ≡ F.failures files.old) }
    ensures input_unfailed { OnOk result (I.failures input.new ≡ I.failures input.old) }
    ensures failed { IfErr result (λ stop. status_of stop ≡ 5 → HasRisen (F.failures files.old) (F.failures files.new) ⊎ HasRisen (I.failures input.old) (I.failures input.new)) }
{
    if path == "-" {
        return read_from(alloc, path, input, err);
    }
    match files.reader_for(path) {
        Some(mut reader) => {
            let bytes = read_from(alloc, path, &mut reader, err);
            files.close(reader);
            bytes
        }
        None => {
            report_list(path, LoadKind::Read, err);
            Err(RunError::Failed)
        }
    }
}

/// The bytes of a reader. Reports under `path` why they can't be read.
fn read_from<S: Source, E: Messages>(
    alloc: Global,
    path: &str,
    source: &mut S,
    err: &mut E,
) -> Result<Vec<u8>, RunError>
    ensures read { IfOk result (λ bytes. (content : FileContent) → OpensAs content (Some (S.left source.old)) → IsListRead content bytes.items) }
    ensures unreported { IfOk result (λ bytes. TakesLines (E.taken err.old) (E.failures err.old) [] (E.taken err.new) (E.failures err.new)) }
    ensures stopped { IfErr result (λ stop. (lines : List ErrorLine) × ((content : FileContent) → OpensAs content (Some (S.left source.old)) → StopsReadingList content path.now (status_of stop) lines) × TakesLines (E.taken err.old) (E.failures err.old) lines (E.taken err.new) (E.failures err.new)) }
    ensures unfailed { OnOk result (S.failures source.new ≡ S.failures source.old) }
    ensures failed { IfErr result (λ stop. status_of stop ≡ 5 → HasRisen (S.failures source.old) (S.failures source.new)) }
{
    let block = &mut [0; MAX_BLOCK_BYTES];
    let ReadBytes { bytes, end } = read_up_to(alloc, source, MAX_LIST_BYTES + 1, 0, block)?;
    match end {
        ReadEnd::AtEnd => Ok(bytes),
        ReadEnd::AtLimit => {
            report_list(path, LoadKind::TooLarge, err);
            Err(RunError::Configuration)
        }
        ReadEnd::AtFailure => {
            report_list(path, LoadKind::Read, err);
            Err(RunError::Failed)
        }
    }
}

/// Reports a fault of a list as a whole.
fn report_list<E: Messages>(path: &str, kind: LoadKind, err: &mut E)
    ensures { TakesLine (E.taken err.old) (E.failures err.old) (fault_line path.now 0 kind) (E.taken err.new) (E.failures err.new) }
{
    err.write_report(Message::FileFault {
        path,
        line: 0,
        kind,
    });
}
