//! The lines of reports, in the forms that have more than the plain line.
ghost use Rattle.std.specs.Prelude.{◌≡◌, ◌∷◌, ◌++◌, ℕ, Some, option_map, IfOk};
ghost use Rattle.std.specs.Global.{Vec};
ghost use Rattle.kmin_messages.specs.ShownTexts.{shown};
ghost use Rattle.kmin_messages.specs.between.MessageViews.{bytes_of};
ghost use Rattle.kmin_details.specs.between.Details.{detail_names, detail_text};
ghost use Rattle.kmin_details.specs.ReportMessages.{file_of, kind_of, line_in, number_of, severity_of};
ghost use Rattle.kmin_report.specs.between.ReportLines.{report_line};

use crate::details::Detail;
use crate::message_lines::{MessageParts, message_line};
use kmin_messages::{Form, Severity};
use kmin_report::Message;
use std::alloc::{AllocError, Global};

/// The line of a report in a form, with this detail. A file of a tree is named by its path with the root in front. Words that are
/// refused are in each form as they are.
pub fn line_in(
    alloc: Global,
    form: Form,
    root: &[u8],
    report: &Message<'_>,
    detail: Detail<'_>,
) -> Result<Vec<u8>, AllocError>
    ensures { IfOk result (λ line. line.items ≡ line_in form root.now (report_line report.now) (shown (detail_text detail.entry)) (detail_names detail.entry)) }
{
    if let Message::RefusedWords(message) = report {
        return Vec::from_slice(alloc, message.as_bytes());
    }
    let file = file_of(alloc, root, report)?;
    let parts = MessageParts {
        kind: kind_of(report),
        severity: severity_of(report),
        file: borrowed(&file),
        line: number_of(report),
        detail,
    };
    message_line(alloc, form, &parts)
}

/// A path, borrowed.
fn borrowed(file: &Option<Vec<u8>>) -> Option<&[u8]>
    ensures { bytes_of result ≡ option_map (λ (path : Vec ℕ). path.items) file.now }
{
    match file {
        Some(path) => Some(path.as_slice()),
        None => None,
    }
}

/// The name of the kind of a report.
fn kind_of(report: &Message<'_>) -> &'static str
    ensures { result.now ≡ kind_of (report_line report.now) }
{
    match report {
        Message::TreeFault { kind, .. } => kind.name(),
        Message::Cycle { .. } => "Cycle",
        Message::FileFault { kind, .. } => kind.name(),
        Message::Notice { kind, .. } => kind.name(),
        Message::AnswersFault { kind, .. } => kind.name(),
        Message::MacroNotice(notice) => notice.kind.name(),
        Message::MacroFault { fault, .. } => fault.kind.name(),
        Message::OutputFault | Message::Unwritten(_) => "Write",
        Message::NotRegular(_) => "NotRegular",
        Message::Left(_) => "Left",
        Message::OutOfMemory => "OutOfMemory",
        Message::RefusedWords(_) => "",
    }
}

/// The severity of a report.
fn severity_of(report: &Message<'_>) -> Severity
    ensures { result ≡ severity_of (report_line report.now) }
{
    match report {
        Message::Notice { .. } | Message::MacroNotice(_) => Severity::Warning,
        _ => Severity::Error,
    }
}

/// The number of the line of a report in its file; 0 where it is of no line.
fn number_of(report: &Message<'_>) -> u32
    ensures { result ≡ number_of (report_line report.now) }
{
    match report {
        Message::TreeFault { line, .. }
        | Message::Cycle { line, .. }
        | Message::FileFault { line, .. }
        | Message::Notice { line, .. }
        | Message::AnswersFault { line, .. } => *line,
        Message::MacroNotice(notice) => notice.line,
        Message::MacroFault { fault, .. } => fault.line,
        _ => 0,
    }
}

/// The path of the file of a report, if it is of one; of a file of a tree it has the root in front.
fn file_of(alloc: Global, root: &[u8], report: &Message<'_>) -> Result<Option<Vec<u8>>, AllocError>
    ensures { IfOk result (λ file. option_map (λ (path : Vec ℕ). path.items) file ≡ file_of root.now (report_line report.now)) }
{
    match report {
        Message::TreeFault { path, .. } | Message::Cycle { path, .. } => below(alloc, root, path),
        Message::MacroNotice(notice) => below(alloc, root, notice.file.as_slice()),
        Message::MacroFault { fault, .. } => below(alloc, root, fault.file.as_slice()),
        Message::FileFault { path, .. }
        | Message::Notice { path, .. }
        | Message::AnswersFault { path, .. }
        | Message::NotRegular(path)
        | Message::Unwritten(path)
        | Message::Left(path) => Ok(Some(Vec::from_slice(alloc, path.as_bytes())?)),
        Message::OutputFault | Message::OutOfMemory | Message::RefusedWords(_) => Ok(None),
    }
}

/// The path of a file of a tree, with the root in front.
fn below(alloc: Global, root: &[u8], path: &[u8]) -> Result<Option<Vec<u8>>, AllocError>
    ensures { IfOk result (λ file. option_map (λ (path : Vec ℕ). path.items) file ≡ Some (root.now ++ 47 ∷ path.now)) }
{
    let mut whole = Vec::with_capacity(alloc, root.len())?;
    whole.extend_from_slice(root)?;
    whole.push(b'/')?;
    whole.extend_from_slice(path)?;
    Ok(Some(whole))
}
