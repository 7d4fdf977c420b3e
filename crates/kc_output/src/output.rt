//! Writing a text out.
ghost use Rattle.std.specs.Prelude.{◌≡◌, ◌<◌, ◌≤◌, ◌+◌, ◌-◌, ◌^◌, length, take, IfErr, OnOk};
ghost use Rattle.std.specs.Io.KnownBytes.{Appends};

use kc_value::Sink;
use thiserror::Error;

/// A write failed or took nothing. Before it the first `written` bytes of the text went out, and no others.
#[derive(Clone, Copy, Debug, PartialEq, Eq, Error)]
#[error("Write after {written} bytes")]
pub struct WriteFault {
    pub written: usize,
}

/// Writes a text. At most one write fails or takes nothing; on an `Err` one did, and the writer took the first `written`
/// bytes and no others. Takes no memory.
pub fn write_out<W: Sink>(sink: &mut W, text: &[u8]) -> Result<(), WriteFault>
    ensures whole { OnOk result (Appends (W.taken sink.old) (W.taken sink.new) text.now) }
    ensures unfailed { OnOk result (W.failures sink.new ≡ W.failures sink.old) }
    ensures part { IfErr result (λ fault. (fault.written < length text.now) × Appends (W.taken sink.old) (W.taken sink.new) (take fault.written text.now)) }
    ensures failed { IfErr result (λ fault. W.failures sink.old < 2 ^ 64 - 1 → W.failures sink.old < W.failures sink.new) }
    ensures once { W.failures sink.new ≤ W.failures sink.old + 1 }
{
    let mut written = 0;
    while written < text.len() {
        match sink.write_some(&text[written..]) {
            Ok(0) => return Err(WriteFault { written }),
            Ok(count) => written += count,
            Err(_) => return Err(WriteFault { written }),
        }
    }
    Ok(())
}
