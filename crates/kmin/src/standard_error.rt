//! Standard error.
ghost use Rattle.std.specs.Prelude.{None};
ghost use Rattle.kmin_texts.specs.KnownLines.{nothing_known};

use crate::line_files::SystemLines;
use kc_value::ToWrite;
use kmin_report::{Message, Messages};
use kmin_texts::{FormMessages, FormedMessages, Wording};
use std::alloc::{AllocError, Global};
use std::io::Write;

/// Standard error, plain until a form is set. It holds back the line for a failed write of standard output, which is the last line of a
/// run, until `end`.
#[derive(Drop)]
pub(crate) struct StandardError<'a, W> {
    messages: FormedMessages<ToWrite<W>, SystemLines<'a>>,
    holds_line: bool,
}

impl<'a, W: Write> StandardError<'a, W> {
    /// Wraps a writer, and holds nothing back yet.
    pub(crate) fn new(alloc: Global, inner: W, lines: SystemLines<'a>) -> StandardError<'a, W> {
        StandardError {
            messages: FormedMessages::new(alloc, ToWrite::new(inner), lines),
            holds_line: false,
        }
    }

    /// Writes the line that was held back, unless standard output is a closed pipe: then its reader wants no more, as `head`.
    pub(crate) fn end(&mut self, is_closed: bool) {
        if self.holds_line && !is_closed {
            self.messages.write_report(Message::OutputFault);
        }
    }
}

impl<'a, W: Write> Messages for StandardError<'a, W> {
    ghost taken = { λ s. record { spelling = (⟦<FormedMessages<ToWrite<W>, SystemLines<'a>> as Messages>⟧.taken s.messages).spelling; bytes = None } };

    ghost failures = { λ s. ⟦<FormedMessages<ToWrite<W>, SystemLines<'a>> as Messages>⟧.failures s.messages };

    fn write_report(&mut self, report: Message<'_>) {
        match report {
            Message::OutputFault => self.holds_line = true,
            _ => self.messages.write_report(report),
        }
    }
}

impl<'a, W: Write> FormMessages for StandardError<'a, W> {
    ghost known = { nothing_known };

    fn set_form(&mut self, wording: &Wording<'_>) -> Result<(), AllocError> {
        self.messages.set_form(wording)
    }
}
