//! Standard error with plain lines.
ghost use Rattle.std.specs.Prelude.{◌≡◌};
ghost use Rattle.kmin_report.specs.PlainLines.{plain_bytes};

use crate::message::{Message, write_plain_line};
use crate::messages::Messages;
use kc_value::Sink;

/// Standard error that spells lines plainly, over a writer. It takes no memory.
#[derive(Drop)]
pub struct PlainMessages<W> {
    sink: W,
}

impl<W: Sink> PlainMessages<W> {
    /// Standard error over this writer.
    pub fn new(sink: W) -> PlainMessages<W>
        ensures taken { ⟦<PlainMessages<W> as Messages>⟧.taken result ≡ plain_bytes (W.taken sink) }
        ensures failures { ⟦<PlainMessages<W> as Messages>⟧.failures result ≡ W.failures sink }
    {
        PlainMessages { sink }
    }

    /// The writer.
    pub fn sink(&self) -> &W
        ensures taken { ⟦<PlainMessages<W> as Messages>⟧.taken self.now ≡ plain_bytes (W.taken result.now) }
        ensures failures { ⟦<PlainMessages<W> as Messages>⟧.failures self.now ≡ W.failures result.now }
    {
        &self.sink
    }
}

impl<W: Sink> Messages for PlainMessages<W> {
    ghost taken = { λ m. plain_bytes (W.taken m.sink) };

    ghost failures = { λ m. W.failures m.sink };

    fn write_report(&mut self, report: Message<'_>) {
        let _ = write_plain_line(&report, &mut self.sink);
    }
}
