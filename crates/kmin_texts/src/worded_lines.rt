//! The lines of reports in a form, with what the files that they are about say.
ghost use Rattle.std.specs.Prelude.{◌≡◌, IfOk};
ghost use Rattle.kmin_report.specs.between.ReportLines.{report_line};
ghost use Rattle.kmin_texts.specs.KnownLines.{KnownLines};
ghost use Rattle.kmin_texts.specs.LineDetails.{of_cycle};
ghost use Rattle.kmin_details.specs.between.Details.{line_detail};
ghost use Rattle.kmin_texts.specs.between.Wordings.{IsDetailOf, IsSpelled, asked_by};

use crate::fault_details::fault_detail;
use crate::form_messages::Wording;
use crate::joined_names::spaced;
use crate::line_files::LineFiles;
use crate::notice_details::notice_at;
use kc_tree::Tree;
use kmin_details::{Detail, line_in};
use kmin_faults::{cycle_steps, unit_names};
use kmin_report::Message;
use std::alloc::{AllocError, Global};

/// A report whose line is written in the form of a wording.
#[derive(Drop)]
pub(crate) struct WordedReport<'a> {
    pub(crate) alloc: Global,
    pub(crate) wording: &'a Wording<'a>,
    pub(crate) report: &'a Message<'a>,
}

impl WordedReport<'_> {
    /// Its line, with the detail that the file it is about gives; without it where memory runs out for that. `unknown` counts the
    /// unknown symbols of which a name was looked for. An `Err` means that memory ran out for both.
    pub(crate) fn line<L: LineFiles>(
        &self,
        files: &mut L,
        unknown: &mut u32,
    ) -> Result<Vec<u8>, AllocError>
        ensures { IfOk result (λ line. IsSpelled (asked_by self.now.wording.now) L.known (report_line self.now.report.now) line.items) }
    {
        match self.detailed_line(files, unknown) {
            Ok(line) => Ok(line),
            Err(_) => self.line_with(Detail::Nothing),
        }
    }

    /// Its line, with the detail that its text, or the file that it is about, gives.
    fn detailed_line<L: LineFiles>(
        &self,
        files: &mut L,
        unknown: &mut u32,
    ) -> Result<Vec<u8>, AllocError>
        ensures { IfOk result (λ line. IsSpelled (asked_by self.now.wording.now) L.known (report_line self.now.report.now) line.items) }
    {
        match self.report {
            Message::MacroNotice(notice) => {
                self.line_with(Detail::Expansion(notice.text.as_slice()))
            }
            Message::Cycle { tree, units, .. } => self.cycle_line(tree, units),
            Message::Notice {
                path,
                line,
                kind,
                tree,
            } => {
                let reread = files.named_line(self.alloc, path, *line)?;
                let prefix = self.wording.prefix;
                let detail = notice_at(self.alloc, prefix, *kind, tree, &reread, unknown)?;
                self.line_with(detail)
            }
            _ => {
                let detail = fault_detail(self.alloc, self.wording, self.report, files)?;
                self.line_with(detail.as_detail())
            }
        }
    }

    /// The line of a cycle of units of a tree, with its steps; with the names of its units alone where a step isn't found.
    fn cycle_line(&self, tree: &Tree, units: &[u32]) -> Result<Vec<u8>, AllocError>
        ensures { (known : KnownLines) → IsDetailOf (asked_by self.now.wording.now) known (report_line self.now.report.now) (of_cycle tree.now.tree units.now)
            → IfOk result (λ line. IsSpelled (asked_by self.now.wording.now) known (report_line self.now.report.now) line.items) }
    {
        let names = unit_names(self.alloc, tree, units)?;
        match cycle_steps(self.alloc, tree, units, &names)? {
            Some(steps) => self.line_with(Detail::Cycle(&steps)),
            None => {
                let words = spaced(self.alloc, &names)?;
                self.line_with(Detail::Words(&words))
            }
        }
    }

    /// Its line, with this detail.
    fn line_with(&self, detail: Detail<'_>) -> Result<Vec<u8>, AllocError>
        ensures { (known : KnownLines) → IsDetailOf (asked_by self.now.wording.now) known (report_line self.now.report.now) (line_detail detail.entry)
            → IfOk result (λ line. IsSpelled (asked_by self.now.wording.now) known (report_line self.now.report.now) line.items) }
    {
        let root = self.wording.root.as_bytes();
        line_in(self.alloc, self.wording.form, root, self.report, detail)
    }
}
