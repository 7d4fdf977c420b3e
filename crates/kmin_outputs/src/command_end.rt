//! The end of a command.
ghost use Rattle.std.specs.Prelude.{◌≡◌, ◌≢◌, ◌≤◌, ◌<◌, ◌⊎◌, ◌∷◌, [], ℕ, Ok, Err, length, take, IfOk};
ghost use Rattle.std.specs.Io.KnownBytes.{Appends};
ghost use Rattle.kc_files.specs.TreeContents.{HasRisen};
ghost use Rattle.kmin_outputs.specs.declared.verb_texts.JobOutput.{JobOutput as Output};
ghost use Rattle.kmin_report.specs.Reports.{last_lines, output_line};
ghost use Rattle.kmin_report.specs.StandardError.{TakesLines};
ghost use Rattle.kmin_report.specs.between.RunErrors.{status_of};
ghost use Rattle.kmin_report.specs.declared.run_error.RunError.{RunError as Stop};

use crate::verb_texts::JobOutput;
use kc_value::Sink;
use kmin_report::{Messages, RunError, exit_status, write_output};

/// Writes the output of a command, and returns its exit status; or the status of the error that left it without one. Reports a failed
/// write, and out of memory; every other error was reported before.
pub fn finish<O: Sink, E: Messages>(
    produced: Result<JobOutput, RunError>,
    out: &mut O,
    err: &mut E,
) -> u8
    requires { IfOk produced (λ output. output.status ≤ 1) }
    ensures status { result ≤ 6 }
    ensures accepted_words { result ≢ 2 }

    // On the statuses 0 and 1 exactly the output is written, and no write failed.
    ensures done { (result ≡ 0) ⊎ (result ≡ 1) → (output : Output) × (produced ≡ Ok output) × (result ≡ output.status) × Appends (O.taken out.old) (O.taken out.new) output.text.items × TakesLines (E.taken err.old) (E.failures err.old) [] (E.taken err.new) (E.failures err.new) }
    ensures unfailed { (result ≡ 0) ⊎ (result ≡ 1) → O.failures out.new ≡ O.failures out.old }

    // On every other status a write failed, or there is no output, and the last line of standard error says so.
    ensures stopped { (result ≢ 0) × (result ≢ 1)
        → ((output : Output) × (produced ≡ Ok output) × (result ≡ 5) × TakesLines (E.taken err.old) (E.failures err.old) (output_line ∷ []) (E.taken err.new) (E.failures err.new))
        ⊎ ((stop : Stop) × (produced ≡ Err stop) × (result ≡ status_of stop) × TakesLines (E.taken err.old) (E.failures err.old) (last_lines result) (E.taken err.new) (E.failures err.new)) }

    // On status 5 the writer took the first bytes of the output, or nothing.
    ensures part { result ≡ 5 → (O.taken out.new ≡ O.taken out.old) ⊎ ((output : Output) × (produced ≡ Ok output) × (written : ℕ) × (written < length output.text.items) × Appends (O.taken out.old) (O.taken out.new) (take written output.text.items)) }

    ensures unwritten { result ≢ 0 → result ≢ 1 → result ≢ 5 → O.taken out.new ≡ O.taken out.old }

    // On status 5 a write of the output failed, or there is none.
    ensures failed { result ≡ 5 → HasRisen (O.failures out.old) (O.failures out.new) ⊎ ((stop : Stop) × (produced ≡ Err stop) × (result ≡ status_of stop)) }
{
    match produced {
        Ok(output) => match write_output(&output.text, out, err) {
            Ok(()) => output.status,
            Err(_) => RunError::Failed.status(),
        },
        Err(stop) => exit_status(stop, err),
    }
}
