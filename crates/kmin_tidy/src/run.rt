//! A run over files, with what it writes.
ghost use Rattle.std.specs.Prelude.{◌≡◌, ◌∷◌, [], ℕ, List, false, IfOk, IfErr};
ghost use Rattle.std.specs.Io.KnownBytes.{Appends};
ghost use Rattle.kmin_tidy.specs.Options.{settings_of};
ghost use Rattle.kmin_tidy.specs.Runs.{paths_of};
ghost use Rattle.kmin_tidy.specs.Ends.{Ends};
ghost use Rattle.kmin_tidy.specs.Promises.{IsKeptOrLeft, AreTidy};
ghost use Rattle.kmin_report.specs.StandardError.{TakesLines};
ghost use Rattle.kmin_report.specs.Reports.{ErrorLine};
ghost use Rattle.kmin_tidy.specs.checker.ReportLines.{stop_line};
ghost use Rattle.kmin_tidy.specs.checker.Endings.{status_of_stop, IsWrittenOut};

use crate::options::Tidier;
use crate::report::report_stop;
use crate::stop::TidyStop;
use crate::whole_run::{RunResult, tidy_all};
use kc_rules::Settled;
use kc_value::Sink;
use kmin_disk::WriteDisk;
use kmin_report::{Messages, write_output};

/// Compares configuration files, each by itself, with their minimal files over the tree `settled`. Returns the exit status.
///
/// With `write` each file that isn't its own minimal file is replaced by it, whole or not at all; without it nothing on
/// the disk changes. A file that can't be read or isn't accepted is left as it is, and so is one with notices under
/// `strict`, and with `write` unless `drop` is given. The other files have no influence on what becomes of a file.
///
/// Standard output `out` has a line for each file that isn't minimal, with `write` for each that was replaced, in the order
/// of `paths`: `FILE: K out, L in`, `FILE: line ends` or `FILE: order`. It is written once, at the end, and not at all
/// where the run ends early. Standard error `err` has the notices of files, `FILE:LINE: KIND` for what isn't accepted,
/// `FILE: Write` for what isn't replaced, `NEWFILE: Left` for a new file that couldn't be removed, `output: Write` and
/// `out of memory`.
///
/// The status is 6 where memory ran out and 5 where a new file is left, which both end the run, and 5 where the output
/// can't be written. Else the first file that is refused or fails decides it: 4 where the file is refused for its bytes, 5
/// where it can't be read or replaced. Else it is 1 where a file isn't minimal and isn't replaced, and 0 otherwise.
pub fn tidy_files<D: WriteDisk, O: Sink, E: Messages>(
    by: &Tidier<'_>,
    settled: &Settled,
    paths: &[&str],
    disk: &mut D,
    out: &mut O,
    err: &mut E,
) -> u8
    ensures ends { (reports : List ErrorLine) × Ends (settings_of settled.now by.now.format.now by.now.options) (D.disk disk.old)
        (D.disk disk.new) (paths_of paths.now) (O.taken out.old) (O.taken out.new) (O.failures out.old)
        (O.failures out.new) reports result × TakesLines (E.taken err.old) (E.failures err.old) reports (E.taken err.new) (E.failures err.new) }

    // However the run ends, each place is as before, or its file was replaced by its minimal file, or a new file is
    // left there.
    ensures became { (place : List ℕ) → IsKeptOrLeft (settings_of settled.now by.now.format.now by.now.options) ((D.disk disk.old).state.history place)
        ((D.disk disk.new).state.history place) }

    ensures unasked { by.now.options.write ≡ false → (D.disk disk.new).state ≡ (D.disk disk.old).state }

    // A run over files that are minimal or refused, as after a first run, replaces nothing and writes no line.
    ensures again { AreTidy (settings_of settled.now by.now.format.now by.now.options) (D.disk disk.old).state (paths_of paths.now) → (D.disk disk.new).state ≡ (D.disk disk.old).state }
    ensures silent { AreTidy (settings_of settled.now by.now.format.now by.now.options) (D.disk disk.old).state (paths_of paths.now)
        → Appends (O.taken out.old) (O.taken out.new) [] }
{
    let ended = tidy_all(by, settled, paths, disk, err);
    finish(&ended, out, err)
}

/// Writes the text of a run, or reports why it ended early, and returns its status.
fn finish<O: Sink, E: Messages>(ended: &Result<RunResult, TidyStop>, out: &mut O, err: &mut E) -> u8
    ensures written { IfOk ended.now (λ tidied. (reports : List ErrorLine) × IsWrittenOut tidied (O.taken out.old) (O.taken out.new) (O.failures out.old)
        (O.failures out.new) reports result × TakesLines (E.taken err.old) (E.failures err.old) reports (E.taken err.new) (E.failures err.new)) }
    ensures stopped { IfErr ended.now (λ stop. (result ≡ status_of_stop stop) × (O.taken out.new ≡ O.taken out.old) × (O.failures out.new ≡ O.failures out.old)
        × TakesLines (E.taken err.old) (E.failures err.old) (stop_line stop ∷ []) (E.taken err.new) (E.failures err.new)) }
{
    match ended {
        Ok(tidied) => write_text(tidied, out, err),
        Err(stop) => end_early(stop, err),
    }
}

/// Writes the text of a run, and returns its status.
fn write_text<O: Sink, E: Messages>(tidied: &RunResult, out: &mut O, err: &mut E) -> u8
    ensures { (reports : List ErrorLine) × IsWrittenOut tidied.now (O.taken out.old) (O.taken out.new) (O.failures out.old)
        (O.failures out.new) reports result × TakesLines (E.taken err.old) (E.failures err.old) reports (E.taken err.new) (E.failures err.new) }
{
    match write_output(&tidied.text, out, err) {
        Ok(()) => tidied.status,
        Err(_) => 5,
    }
}

/// Reports why a run ends early, and returns its status.
fn end_early<E: Messages>(stop: &TidyStop, err: &mut E) -> u8
    ensures status { result ≡ status_of_stop stop.now }
    ensures reported { TakesLines (E.taken err.old) (E.failures err.old) (stop_line stop.now ∷ []) (E.taken err.new) (E.failures err.new) }
{
    report_stop(stop, err);
    match stop {
        TidyStop::Memory => 6,
        TidyStop::Left(_) => 5,
    }
}
