//! The output of a job, and the last line of a run that has none.
ghost use Rattle.std.specs.Prelude.{◌≡◌, ◌∷◌, [], ◌<◌, length, take, IfErr, OnOk, OnErr};
ghost use Rattle.std.specs.Io.KnownBytes.{Appends};
ghost use Rattle.kmin_report.specs.Reports.{last_lines, output_line};
ghost use Rattle.kmin_report.specs.StandardError.{TakesLines};
ghost use Rattle.kc_files.specs.TreeContents.{HasRisen};
ghost use Rattle.kmin_report.specs.between.RunErrors.{status_of};

use crate::message::Message;
use crate::messages::Messages;
use crate::run_error::RunError;
use kc_output::{WriteFault, write_out};
use kc_value::Sink;

/// Writes the output of a command to `out`. Reports a failed write to `err`.
pub fn write_output<O: Sink, E: Messages>(
    text: &[u8],
    out: &mut O,
    err: &mut E,
) -> Result<(), WriteFault>
    ensures whole { OnOk result (Appends (O.taken out.old) (O.taken out.new) text.now) }
    ensures unfailed { OnOk result (O.failures out.new ≡ O.failures out.old) }
    ensures unreported { OnOk result (TakesLines (E.taken err.old) (E.failures err.old) [] (E.taken err.new) (E.failures err.new)) }
    ensures part { IfErr result (λ fault. (fault.written < length text.now) × Appends (O.taken out.old) (O.taken out.new) (take fault.written text.now)) }
    ensures failures { OnErr result (HasRisen (O.failures out.old) (O.failures out.new)) }
    ensures reported { OnErr result (TakesLines (E.taken err.old) (E.failures err.old) (output_line ∷ []) (E.taken err.new) (E.failures err.new)) }
{
    match write_out(out, text) {
        Ok(()) => Ok(()),
        Err(fault) => {
            err.write_report(Message::OutputFault);
            Err(fault)
        }
    }
}

/// The exit status of a run that ended early. Reports out of memory; every other error was reported before.
pub fn exit_status<E: Messages>(stop: RunError, err: &mut E) -> u8
    ensures status { result ≡ status_of stop }
    ensures reported { TakesLines (E.taken err.old) (E.failures err.old) (last_lines result) (E.taken err.new) (E.failures err.new) }
{
    match stop {
        RunError::Memory => {
            err.write_report(Message::OutOfMemory);
            stop.status()
        }
        _ => stop.status(),
    }
}
