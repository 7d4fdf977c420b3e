//! Standard error whose lines are plain, or have a form that was set.
ghost use Rattle.std.specs.Prelude.{◌≡◌};
ghost use Rattle.kmin_report.specs.PlainLines.{plain_bytes};
ghost use Rattle.kmin_report.specs.StandardError.{TakesLine};
ghost use Rattle.kmin_report.specs.between.ReportLines.{report_line};
ghost use Rattle.kmin_texts.specs.Spellings.{in_form};
ghost use Rattle.kmin_texts.specs.between.Wordings.{asked_by, kept_spelling};

use crate::form_messages::{FormMessages, Wording};
use crate::line_files::LineFiles;
use crate::worded_lines::WordedReport;
use kc_dotconfig_model::Prefix;
use kc_output::write_out;
use kc_tokens::Language;
use kc_value::Sink;
use kmin_messages::Form;
use kmin_report::{Message, Messages, write_plain_line};
use std::alloc::{AllocError, Global};

/// A wording that is kept.
#[derive(Drop)]
struct KeptWording {
    form: Form,
    root: String,
    language: Language,
    prefix: Prefix,
}

/// Standard error over a writer. Its lines are plain until a form is set; then the texts of messages show what these files have. Where
/// memory runs out for a text the message has none, and where it runs out for that the line is plain. The texts of the first unknown
/// symbols have the nearest name of the tree, and those that were looked for are counted.
#[derive(Drop)]
pub struct FormedMessages<W, L> {
    alloc: Global,
    sink: W,
    files: L,
    wording: Option<KeptWording>,
    unknown: u32,
}

impl<W: Sink, L: LineFiles> FormedMessages<W, L> {
    /// Standard error with plain lines.
    pub fn new(alloc: Global, sink: W, files: L) -> FormedMessages<W, L>
        ensures taken { ⟦<FormedMessages<W, L> as Messages>⟧.taken result ≡ plain_bytes (W.taken sink) }
        ensures failures { ⟦<FormedMessages<W, L> as Messages>⟧.failures result ≡ W.failures sink }
    {
        FormedMessages {
            alloc,
            sink,
            files,
            wording: None,
            unknown: 0,
        }
    }
}

impl<W: Sink, L: LineFiles> Messages for FormedMessages<W, L> {
    ghost taken = { λ m. record { spelling = kept_spelling m.wording L.known; bytes = W.taken m.sink } };

    ghost failures = { λ m. W.failures m.sink };

    fn write_report(&mut self, report: Message<'_>) {
        match &self.wording {
            None => {
                let _ = write_plain_line(&report, &mut self.sink);
            }
            Some(kept) => {
                let wording = Wording {
                    form: kept.form,
                    root: &kept.root,
                    language: kept.language,
                    prefix: &kept.prefix,
                };
                let worded = WordedReport {
                    alloc: self.alloc,
                    wording: &wording,
                    report: &report,
                };
                write_formed(&worded, &mut self.files, &mut self.unknown, &mut self.sink);
            }
        }
    }
}

impl<W: Sink, L: LineFiles> FormMessages for FormedMessages<W, L> {
    ghost known = { L.known };

    fn set_form(&mut self, wording: &Wording<'_>) -> Result<(), AllocError> {
        let root = String::from_str(self.alloc, wording.root)?;
        self.wording = Some(KeptWording {
            form: wording.form,
            root,
            language: wording.language,
            prefix: *wording.prefix,
        });
        Ok(())
    }
}

/// Writes the line of a report in a form, up to the first write that fails.
fn write_formed<W: Sink, L: LineFiles>(
    worded: &WordedReport<'_>,
    files: &mut L,
    unknown: &mut u32,
    sink: &mut W,
)
    ensures { TakesLine (in_form (asked_by worded.now.wording.now) L.known (plain_bytes (W.taken sink.old))) (W.failures sink.old) (report_line worded.now.report.now)
        (in_form (asked_by worded.now.wording.now) L.known (plain_bytes (W.taken sink.new))) (W.failures sink.new) }
{
    match worded.line(files, unknown) {
        Ok(line) => {
            let _ = write_out(sink, &line);
        }
        Err(_) => {
            let _ = write_plain_line(worded.report, sink);
        }
    }
}
