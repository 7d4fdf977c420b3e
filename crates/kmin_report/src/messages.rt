//! Standard error, as the lines of reports are written to it.
ghost use Rattle.std.specs.Prelude.{ℕ};
ghost use Rattle.kmin_report.specs.StandardError.{SpelledBytes, TakesLine};
ghost use Rattle.kmin_report.specs.between.ReportLines.{report_line};

use crate::message::Message;

/// Standard error. Contracts see how it spells lines, the bytes that it took, if they are known, and how many of its writes failed.
pub trait Messages {
    /// The bytes that standard error took, if they are known, and how it spells lines.
    ghost taken: { Self → SpelledBytes };

    /// How many writes to standard error failed, up to 2^64 - 1.
    ghost failures: { Self → ℕ };

    /// Writes the line of a report, up to the first write that fails.
    fn write_report(&mut self, report: Message<'_>)
        ensures { TakesLine (taken self.old) (failures self.old) (report_line report.entry) (taken self.new) (failures self.new) };
}
