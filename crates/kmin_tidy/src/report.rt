//! The lines of standard error.
ghost use Rattle.std.specs.Prelude.{◌≡◌};
ghost use Rattle.kmin_report.specs.between.ReportLines.{report_line};
ghost use Rattle.kmin_report.specs.StandardError.{TakesLine, TakesLines};
ghost use Rattle.kmin_tidy.specs.checker.ReportLines.{problem_line, problem_lines, report_lines, stop_line};

use crate::outcome::FileOutcome;
use crate::stop::TidyStop;
use kc_dotconfig::{LoadFault, Notice};
use kc_tree::Tree;
use kmin_report::{Message, Messages, report_notices};

/// Why a file isn't read or replaced.
#[derive(Clone, Copy, Debug, PartialEq, Eq)]
pub(crate) enum Problem {
    /// The file can't be read, or isn't a configuration file.
    Fault(LoadFault),
    /// The file is a link, a folder, a pipe or a device.
    NotRegular,
    /// The file couldn't be replaced, or its folder couldn't be synced after it.
    Write,
}

/// The notices, the problem and the outcome of a file.
#[derive(Drop)]
pub(crate) struct FileReport {
    pub(crate) notices: Vec<Notice>,
    pub(crate) problem: Option<Problem>,
    pub(crate) outcome: FileOutcome,
}

/// Writes the lines of a file's report: its notices, and then its problem.
pub(crate) fn report_file<E: Messages>(path: &str, report: &FileReport, tree: &Tree, err: &mut E)
    ensures { TakesLines (E.taken err.old) (E.failures err.old) (report_lines tree.now.tree path.now report.now) (E.taken err.new) (E.failures err.new) }
{
    report_notices(path, &report.notices, tree, err);
    report_problem(path, report.problem, err);
}

/// Writes the problem of a file, if it has one.
fn report_problem<E: Messages>(path: &str, problem: Option<Problem>, err: &mut E)
    ensures { TakesLines (E.taken err.old) (E.failures err.old) (problem_lines path.now problem) (E.taken err.new) (E.failures err.new) }
{
    match problem {
        Some(problem) => err.write_report(report_of(path, problem)),
        None => {}
    }
}

/// The report of a problem.
fn report_of(path: &str, problem: Problem) -> Message<'_>
    ensures { report_line result ≡ problem_line path.now problem }
{
    match problem {
        Problem::Fault(LoadFault { line, kind }) => Message::FileFault { path, line, kind },
        Problem::NotRegular => Message::NotRegular(path),
        Problem::Write => Message::Unwritten(path),
    }
}

/// Writes the last line of standard error of a run that ends early: the reason.
pub(crate) fn report_stop<E: Messages>(stop: &TidyStop, err: &mut E)
    ensures { TakesLine (E.taken err.old) (E.failures err.old) (stop_line stop.now) (E.taken err.new) (E.failures err.new) }
{
    match stop {
        TidyStop::Memory => err.write_report(Message::OutOfMemory),
        TidyStop::Left(new_path) => err.write_report(Message::Left(new_path)),
    }
}
