//! Bundles: a tree, a line of just `%%` and a configuration.
ghost use Rattle.std.specs.Prelude.{◌≡◌, ◌≤◌, [], IfOk, IfErr, OnOk, ℕ, List, length};
ghost use Rattle.kmin_run.specs.Bundles.{IsBundle, ReadsToEnd};
ghost use Rattle.kmin_run.specs.BundleOutputs.{StopsOnBundle, bundle_line};
ghost use Rattle.kmin_report.specs.StandardError.{TakesLine, TakesLines};
ghost use Rattle.kc_files.specs.TreeContents.{HasRisen};
ghost use Rattle.kmin_report.specs.between.RunErrors.{status_of};
ghost use Rattle.kmin_report.specs.Reports.{ErrorLine};

use kc_dotconfig::LoadKind;
use kc_value::{MAX_BLOCK_BYTES, MAX_BUNDLE_BYTES, ReadBytes, ReadEnd, Source, read_up_to};
use kmin_lines::first_piece;
use kmin_report::{Message, Messages, RunError};
use std::alloc::Global;

/// The line that ends the tree.
const MARKER: &[u8] = b"%%";

/// Reads a bundle to its end. Reports a failed read, and a bundle of more than `MAX_BUNDLE_BYTES` bytes.
pub(crate) fn read_whole<S: Source, E: Messages>(
    alloc: Global,
    source: &mut S,
    err: &mut E,
) -> Result<Vec<u8>, RunError>
    ensures ok { IfOk result (λ text. ReadsToEnd (S.left source.old) (S.left source.new) text.items) }
    ensures within { IfOk result (λ text. length text.items ≤ MAX_BUNDLE_BYTES) }
    ensures unfailed { OnOk result (S.failures source.new ≡ S.failures source.old) }
    ensures unreported { OnOk result (TakesLines (E.taken err.old) (E.failures err.old) [] (E.taken err.new) (E.failures err.new)) }
    ensures failures { result ≡ Err RunError.Failed → HasRisen (S.failures source.old) (S.failures source.new) }
    ensures stopped { IfErr result (λ stop. (lines : List ErrorLine) × StopsOnBundle (S.left source.old) (S.left source.new) (status_of stop) lines × TakesLines (E.taken err.old) (E.failures err.old) lines (E.taken err.new) (E.failures err.new)) }
{
    let block = &mut [0; MAX_BLOCK_BYTES];
    let ReadBytes { bytes, end } = read_up_to(alloc, source, MAX_BUNDLE_BYTES + 1, 0, block)?;
    match end {
        ReadEnd::AtEnd => Ok(bytes),
        ReadEnd::AtLimit => {
            report_bundle(LoadKind::TooLarge, err);
            Err(RunError::Configuration)
        }
        ReadEnd::AtFailure => {
            report_bundle(LoadKind::Read, err);
            Err(RunError::Failed)
        }
    }
}

/// Reports a fault of a bundle as a whole.
fn report_bundle<E: Messages>(kind: LoadKind, err: &mut E)
    ensures { TakesLine (E.taken err.old) (E.failures err.old) (bundle_line kind) (E.taken err.new) (E.failures err.new) }
{
    let path = "bundle";
    err.write_report(Message::FileFault {
        path,
        line: 0,
        kind,
    });
}

/// The parts of a bundle: its tree, and its configuration.
pub(crate) fn split_bundle(bundle: &[u8]) -> (&[u8], &[u8])
    ensures { IsBundle bundle.now result.0.now result.1.now }
{
    let mut rest = bundle;
    while let Some((line, after)) = first_piece(rest, b'\n') {
        if line == MARKER {
            let (tree, _) = bundle.split_at(bundle.len() - rest.len());
            return (tree, after);
        }
        rest = after;
    }
    (bundle, rest)
}
