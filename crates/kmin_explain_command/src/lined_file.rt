//! A configuration file with its last lines.
ghost use Rattle.std.specs.Prelude.{◌≡◌, ◌≢◌, ◌≤◌, ◌∷◌, [], List, ℕ, map, IfOk, IfErr};
ghost use Rattle.kc_value.specs.FileContents.{FileContent, AreKnownBytes};
ghost use Rattle.kc_rules.specs.between.SettledViews.{tree_of_settled};
ghost use Rattle.kc_dotconfig_model.specs.between.Formats.{file_format};
ghost use Rattle.kc_dotconfig.specs.Fragments.{FitsTree};
ghost use Rattle.kc_dotconfig_model.specs.between.Notices.{notice_pair};
ghost use Rattle.kc_files.specs.TreeContents.{HasRisen};
ghost use Rattle.kmin_outputs.specs.Stops.{StopsAmongFiles};
ghost use Rattle.kmin_outputs.specs.Strictness.{AllowsNotices};
ghost use Rattle.kmin_explain_command.specs.between.LinedFiles.{IsLinedFile};
ghost use Rattle.kmin_report.specs.Reports.{ErrorLine};
ghost use Rattle.kmin_report.specs.StandardError.{TakesLines};
ghost use Rattle.kmin_report.specs.between.RunErrors.{status_of};
ghost use Rattle.kmin_tidy.specs.checker.Readings.{IsAcceptedAs, IsFaulty, IsFragmentOf};

use kc_config_reasons::{FileLines, lines_of_file};
use kc_dotconfig::{Format, Fragment, LoadFault, LoadKind};
use kc_rules::Settled;
use kmin_inputs::Files;
use kmin_options::Settings;
use kmin_outputs::{allowed, report_load_fault};
use kmin_report::{Messages, RunError, report_notices};
use kmin_tidy::{AcceptedFile, read_source};
use std::alloc::Global;

/// The assignments of a configuration file, and its last lines.
#[derive(Drop)]
pub(crate) struct LinedFile {
    pub(crate) fragment: Fragment,
    pub(crate) lines: FileLines,
}

/// Reads a configuration file by its path. Reports its notices, or its fault. Under `strict` a file that has a notice is refused.
pub(crate) fn read_file<F: Files, E: Messages>(
    alloc: Global,
    settled: &Settled,
    settings: &Settings<'_>,
    path: &str,
    files: &mut F,
    err: &mut E,
) -> Result<LinedFile, RunError>
    ensures same { F.surroundings files.new ≡ F.surroundings files.old }
    ensures fits { IfOk result (λ f. FitsTree (tree_of_settled settled.now) f.fragment.assigns.items) }
    ensures lined { IfOk result (λ f. IsLinedFile ((F.surroundings files.old).content path.now) (file_format settings.now.format) (tree_of_settled settled.now) path.now f (E.taken err.old) (E.failures err.old) (E.taken err.new) (E.failures err.new)) }
    ensures allowed { IfOk result (λ f. AllowsNotices settings.now.strict (map notice_pair f.fragment.notices.items)) }
    ensures stopped { IfErr result (λ stop. (lines : List ErrorLine) × StopsAmongFiles (F.surroundings files.old).content (file_format settings.now.format) settings.now.strict (tree_of_settled settled.now) (path.now ∷ []) (status_of stop) lines × TakesLines (E.taken err.old) (E.failures err.old) lines (E.taken err.new) (E.failures err.new)) }
    ensures rising { F.failures files.old ≤ F.failures files.new }
    ensures failed { IfErr result (λ stop. status_of stop ≡ 5 → HasRisen (F.failures files.old) (F.failures files.new)) }
{
    match read_accepted(alloc, settled, &settings.format, path, files) {
        Ok(AcceptedFile { bytes, fragment }) => {
            noticed_file(alloc, settled, settings, path, &bytes, fragment, err)
        }
        Err(fault) => Err(report_load_fault(path, fault, err)),
    }
}

/// Reads the bytes of a configuration file by its path, with their assignments and notices.
fn read_accepted<F: Files>(
    alloc: Global,
    settled: &Settled,
    format: &Format,
    path: &str,
    files: &mut F,
) -> Result<AcceptedFile, LoadFault>
    ensures same { F.surroundings files.new ≡ F.surroundings files.old }
    ensures ok { IfOk result (IsAcceptedAs (file_format format.now) (tree_of_settled settled.now) ((F.surroundings files.old).content path.now)) }
    ensures fault { IfErr result (λ fault. IsFaulty (file_format format.now) (tree_of_settled settled.now) ((F.surroundings files.old).content path.now) fault.kind fault.line) }
    ensures rising { F.failures files.old ≤ F.failures files.new }
    ensures failed { IfErr result (λ fault. fault.kind ≡ LoadKind.Read → HasRisen (F.failures files.old) (F.failures files.new)) }
{
    match files.reader_for(path) {
        Some(mut reader) => {
            let size = files.size_of(&reader);
            let read = read_source(alloc, settled, format, &mut reader, size);
            files.close(reader);
            read
        }
        None => Err(LoadFault {
            line: 0,
            kind: LoadKind::Read,
        }),
    }
}

/// An accepted configuration file of these bytes, with its last lines. Reports its notices, for which `strict` refuses it.
fn noticed_file<E: Messages>(
    alloc: Global,
    settled: &Settled,
    settings: &Settings<'_>,
    path: &str,
    bytes: &[u8],
    fragment: Fragment,
    err: &mut E,
) -> Result<LinedFile, RunError>
    requires read { IsFragmentOf (file_format settings.now.format) (tree_of_settled settled.now) bytes.now fragment }
    ensures fits { IfOk result (λ f. FitsTree (tree_of_settled settled.now) f.fragment.assigns.items) }
    ensures lined { (content : FileContent) → AreKnownBytes content bytes.now → IfOk result (λ f. IsLinedFile content (file_format settings.now.format) (tree_of_settled settled.now) path.now f (E.taken err.old) (E.failures err.old) (E.taken err.new) (E.failures err.new)) }
    ensures allowed { IfOk result (λ f. AllowsNotices settings.now.strict (map notice_pair f.fragment.notices.items)) }
    ensures stopped { (content_of : List ℕ → FileContent) → AreKnownBytes (content_of path.now) bytes.now → IfErr result (λ stop. (lines : List ErrorLine) × StopsAmongFiles content_of (file_format settings.now.format) settings.now.strict (tree_of_settled settled.now) (path.now ∷ []) (status_of stop) lines × TakesLines (E.taken err.old) (E.failures err.old) lines (E.taken err.new) (E.failures err.new)) }
    ensures unfailed { IfErr result (λ stop. status_of stop ≢ 5) }
{
    report_notices(path, &fragment.notices, settled.tree(), err);
    let fragment = allowed(settings.strict, fragment)?;
    let lines = lines_of_file(alloc, settled, &settings.format, bytes)?;
    Ok(LinedFile { fragment, lines })
}
