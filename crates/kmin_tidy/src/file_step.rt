//! One file of a run: it is read, compared with its minimal file, and replaced under the option `--write`.
ghost use Rattle.std.specs.Prelude.{◌≡◌, ◌≢◌, ◌⊎◌, ◌++◌, [], ℕ, List, map, take, true, false, Some, None, IfOk, IfErr, OnOk, if◌then◌else◌};
ghost use Rattle.kc_dotconfig_model.specs.between.Formats.{file_format};
ghost use Rattle.kc_rules.specs.between.SettledViews.{profile_of, tree_of_settled};
ghost use Rattle.kc_dotconfig_model.specs.OtherChoices.{other_choices_of};
ghost use Rattle.kc_config.specs.ConfigStates.{tree_in, IsSolved};
ghost use Rattle.kc_minimal_model.specs.CanonicalText.{IsCanonicalText};
ghost use Rattle.kc_dotconfig.specs.Fragments.{FitsTree, users_of};
ghost use Rattle.kc_dotconfig_model.specs.between.Notices.{notice_pair};
ghost use Rattle.kmin_disk.specs.Contents.{IsOfKind, readable, special};
ghost use Rattle.kmin_disk.specs.Disks.{content_at};
ghost use Rattle.kmin_disk.specs.declared.kind.FileKind.TheVariants.{NotRegular};
ghost use Rattle.kmin_tidy.specs.Options.{settings_of, refuses_notices};
ghost use Rattle.kmin_tidy.specs.MinimalFiles.{MayBeRead};
ghost use Rattle.kmin_tidy.specs.Steps.{Step};
ghost use Rattle.kmin_tidy.specs.checker.Readings.{IsAcceptedAs, places_noted};
ghost use Rattle.kmin_tidy.specs.checker.ReportLines.{report_lines};
ghost use Rattle.kmin_tidy.specs.checker.FileResults.{IsRewritten, IsWritten, StopsWrite, StopsRewrite, StopsFile};
ghost use Rattle.kmin_tidy.specs.checker.FileReports.{IsRefusedAs, IsFailedBy, IsStoppedBy};

use crate::accepted_file::{AcceptedFile, read_file};
use crate::file_lines::push_file_line;
use crate::options::{Tidier, TidyOptions};
use crate::outcome::FileOutcome;
use crate::report::{FileReport, Problem};
use crate::stop::TidyStop;
use kc_config::Config;
use kc_dotconfig::{ChoiceLine, Fragment, LoadFault, LoadKind, Notice, NoticeKind};
use kc_minimal::{add_lines, minimal_text, other_choices};
use kmin_disk::{FileKind, ReadDisk, ReplaceFault, WriteDisk, replace};
use std::alloc::{AllocError, Global};

/// Tidies one file and returns its report. If it isn't minimal, it is replaced if `by.options.write` is set, and its line of standard
/// output is appended to `text` unless that fails. The files before it have no influence.
pub(crate) fn tidy_file<D: WriteDisk>(
    by: &Tidier<'_>,
    config: &mut Config<'_>,
    path: &str,
    disk: &mut D,
    text: &mut Vec<u8>,
) -> Result<FileReport, TidyStop>
    ensures settled { config.new.system ≡ config.old.system }
    ensures step { IfOk result (λ report. (line : List ℕ) × (text.new.items ≡ text.old.items ++ line)
        × Step (settings_of config.old.system by.now.format.now by.now.options) (D.disk disk.old)
        (D.disk disk.new) path.now line (report_lines (tree_of_settled config.old.system) path.now report) report.outcome) }
    ensures stopped { IfErr result (StopsFile (settings_of config.old.system by.now.format.now by.now.options) (D.disk disk.old) (D.disk disk.new) path.now) }
{
    if is_refused_unread(by.options, path, disk) {
        return Ok(report_of_problem(by.alloc, Problem::NotRegular, FileOutcome::Failed));
    }
    match read_file(by.alloc, config.settled(), by.format, path, disk) {
        Ok(file) => tidy_accepted(by, config, path, file, disk, text),
        Err(fault) => report_fault(by.alloc, fault),
    }
}

/// Whether a file is refused before it is read: where files are replaced, and it is a link, a folder, a pipe or a device.
fn is_refused_unread<D: ReadDisk>(options: TidyOptions, path: &str, disk: &D) -> bool
    ensures refused { result ≡ true → (options.write ≡ true) × IsOfKind (content_at (D.disk disk.now).state path.now) NotRegular }
    ensures may { result ≡ false → options.write ≡ true → content_at (D.disk disk.now).state path.now ≢ Some special }
{
    if options.write {
        is_not_regular(path, disk)
    } else {
        false
    }
}

/// Whether a path leads to a link, a folder, a pipe or a device.
fn is_not_regular<D: ReadDisk>(path: &str, disk: &D) -> bool
    ensures known { result ≡ true → IsOfKind (content_at (D.disk disk.now).state path.now) NotRegular }
    ensures other { result ≡ false → content_at (D.disk disk.now).state path.now ≢ Some special }
{
    match disk.kind(path) {
        FileKind::NotRegular => true,
        _ => false,
    }
}

/// The report of a file with a problem and without notices.
fn report_of_problem(alloc: Global, problem: Problem, outcome: FileOutcome) -> FileReport
    ensures notices { result.notices.items ≡ [] }
    ensures problem { result.problem ≡ Some problem }
    ensures outcome { result.outcome ≡ outcome }
{
    FileReport {
        notices: Vec::new(alloc),
        problem: Some(problem),
        outcome,
    }
}

/// The report of a file that can't be read or isn't accepted.
fn report_fault(alloc: Global, fault: LoadFault) -> Result<FileReport, TidyStop>
    ensures refused { IfOk result (IsRefusedAs fault) }
    ensures stopped { IfErr result (λ stop. stop ≡ TidyStop.Memory) }
{
    match fault.kind {
        LoadKind::OutOfMemory => Err(TidyStop::Memory),
        LoadKind::Read => Ok(report_of_problem(alloc, Problem::Fault(fault), FileOutcome::Failed)),
        _ => Ok(report_of_problem(alloc, Problem::Fault(fault), FileOutcome::Refused)),
    }
}

/// Tidies a file that was read and accepted.
fn tidy_accepted<D: WriteDisk>(
    by: &Tidier<'_>,
    config: &mut Config<'_>,
    path: &str,
    file: AcceptedFile,
    disk: &mut D,
    text: &mut Vec<u8>,
) -> Result<FileReport, TidyStop>
    requires may { MayBeRead (settings_of config.old.system by.now.format.now by.now.options) (D.disk disk.old).state path.now }
    requires accepted { IsAcceptedAs (file_format by.now.format.now) (tree_in config.old) (readable (content_at (D.disk disk.old).state path.now)) file }
    ensures settled { config.new.system ≡ config.old.system }
    ensures step { IfOk result (λ report. (line : List ℕ) × (text.new.items ≡ text.old.items ++ line)
        × Step (settings_of config.old.system by.now.format.now by.now.options) (D.disk disk.old)
        (D.disk disk.new) path.now line (report_lines (tree_of_settled config.old.system) path.now report) report.outcome) }
    ensures stopped { IfErr result (StopsFile (settings_of config.old.system by.now.format.now by.now.options) (D.disk disk.old) (D.disk disk.new) path.now) }
{
    let AcceptedFile { bytes, fragment } = file;
    if is_refused_for(by.options, &fragment.notices) {
        let Fragment { notices, .. } = fragment;
        return Ok(report_of_notices(notices));
    }
    let notices = solve(by.alloc, config, fragment)?;
    if is_refused_for(by.options, &notices) {
        return Ok(report_of_notices(notices));
    }
    let end = tidy_allowed(by, config, path, &bytes, disk, text)?;
    Ok(report_of_end(notices, end))
}

/// Gives a configuration the user values of one fragment alone, and returns the notices of the fragment's lines, and after them those
/// on choices.
fn solve(
    alloc: Global,
    config: &mut Config<'_>,
    fragment: Fragment,
) -> Result<Vec<Notice>, AllocError>
    requires fits { FitsTree (tree_in config.old) fragment.assigns.items }
    ensures settled { config.new.system ≡ config.old.system }
    ensures users { OnOk result (config.new.users ≡ users_of (tree_in config.old) fragment.assigns.items) }
    ensures solved { IsSolved config.new }
    ensures notices { IfOk result (λ notices. map notice_pair notices.items ≡ map notice_pair fragment.notices.items
        ++ places_noted (other_choices_of (tree_in config.new) config.new.values (map (λ l. (0, l)) fragment.chosen.items))) }
{
    config.replace(&fragment)?;
    let Fragment {
        notices,
        chosen,
        ..
    } = fragment;
    with_choices(alloc, config, notices, &chosen)
}

/// The notices of a file's lines, and after them those on choices by the values of a configuration, from the lines of members.
fn with_choices(
    alloc: Global,
    config: &Config<'_>,
    noted: Vec<Notice>,
    chosen: &[ChoiceLine],
) -> Result<Vec<Notice>, AllocError>
    ensures { IfOk result (λ notices. map notice_pair notices.items ≡ map notice_pair noted.items
        ++ places_noted (other_choices_of (tree_in config.now) config.now.values (map (λ l. (0, l)) chosen.now))) }
{
    let mut lines = Vec::new(alloc);
    add_lines(&mut lines, 0, chosen)?;
    let places = other_choices(alloc, config.settled(), config.values(), &lines)?;
    push_choices(noted, &places)
}

/// Appends the notices on choices at these places.
fn push_choices(noted: Vec<Notice>, places: &[(usize, u32)]) -> Result<Vec<Notice>, AllocError>
    ensures { IfOk result (λ notices. map notice_pair notices.items ≡ map notice_pair noted.items ++ places_noted places.now) }
{
    let mut notices = noted;
    for place in places {
        let (_file, line) = *place;
        let kind = NoticeKind::OtherChoice;
        notices.push(Notice { line, kind })?;
    }
    Ok(notices)
}

/// Compares a file of these bytes, which isn't refused, with the minimal file of the values that it gives, and tidies it.
fn tidy_allowed<D: WriteDisk>(
    by: &Tidier<'_>,
    config: &Config<'_>,
    path: &str,
    bytes: &[u8],
    disk: &mut D,
    text: &mut Vec<u8>,
) -> Result<FileEnd, TidyStop>
    ensures rewritten { IfOk result (λ end. (line : List ℕ) × (text.new.items ≡ text.old.items ++ line) × (minimal_bytes : List ℕ)
        × IsCanonicalText (file_format by.now.format.now) (profile_of config.now.system) (tree_in config.now) config.now.values minimal_bytes
        × IsRewritten by.now.options.output_form by.now.options.write (D.disk disk.old) (D.disk disk.new) path.now bytes.now minimal_bytes line end) }
    ensures stopped { IfErr result (λ stop. ((stop ≡ TidyStop.Memory) × (D.disk disk.new ≡ D.disk disk.old)) ⊎ ((minimal_bytes : List ℕ)
        × IsCanonicalText (file_format by.now.format.now) (profile_of config.now.system) (tree_in config.now) config.now.values minimal_bytes
        × StopsRewrite by.now.options.write (D.disk disk.old) (D.disk disk.new) path.now bytes.now minimal_bytes stop)) }
{
    let minimal_bytes = minimal_text(by.alloc, config, by.format)?;
    rewrite(by, path, bytes, &minimal_bytes, disk, text)
}

/// Whether a file with these notices is refused for them.
fn is_refused_for(options: TidyOptions, notices: &[Notice]) -> bool
    ensures refused { result ≡ true → (refuses_notices options ≡ true) × (notices.now ≢ []) }
    ensures allowed { result ≡ false → refuses_notices options ≡ true → notices.now ≡ [] }
{
    if options.refuses_notices() {
        !notices.is_empty()
    } else {
        false
    }
}

/// The report of a file that is refused for its notices.
fn report_of_notices(notices: Vec<Notice>) -> FileReport
    ensures notices { result.notices.items ≡ notices.items }
    ensures problem { result.problem ≡ None }
    ensures outcome { result.outcome ≡ FileOutcome.Refused }
{
    FileReport {
        notices,
        problem: None,
        outcome: FileOutcome::Refused,
    }
}

/// The outcome of a file whose minimal file is known, its problem if it couldn't be replaced, and whether it was replaced.
#[derive(Clone, Copy)]
pub(crate) struct FileEnd {
    problem: Option<Problem>,
    outcome: FileOutcome,
    is_replaced: bool,
}

/// The report of a file whose minimal file is known.
fn report_of_end(notices: Vec<Notice>, end: FileEnd) -> FileReport
    ensures notices { result.notices.items ≡ notices.items }
    ensures problem { result.problem ≡ end.problem }
    ensures outcome { result.outcome ≡ end.outcome }
{
    let FileEnd {
        problem,
        outcome,
        ..
    } = end;
    FileReport {
        notices,
        problem,
        outcome,
    }
}

/// Compares a file with its minimal file. Where they differ, replaces the file if `by.options.write` is set, and appends the file's line
/// to `text` unless that fails.
fn rewrite<D: WriteDisk>(
    by: &Tidier<'_>,
    path: &str,
    bytes: &[u8],
    minimal_bytes: &[u8],
    disk: &mut D,
    text: &mut Vec<u8>,
) -> Result<FileEnd, TidyStop>
    ensures rewritten { IfOk result (λ end. (line : List ℕ) × (text.new.items ≡ text.old.items ++ line)
        × IsRewritten by.now.options.output_form by.now.options.write (D.disk disk.old) (D.disk disk.new) path.now bytes.now minimal_bytes.now line end) }
    ensures stopped { IfErr result (StopsRewrite by.now.options.write (D.disk disk.old) (D.disk disk.new) path.now bytes.now minimal_bytes.now) }
{
    if minimal_bytes == bytes {
        return Ok(FileEnd {
            problem: None,
            outcome: FileOutcome::Minimal,
            is_replaced: false,
        });
    }
    let start = text.len();
    push_file_line(
        by.alloc,
        disk.seed(),
        by.options.output_form,
        path,
        bytes,
        minimal_bytes,
        text,
    )?;
    if by.options.write {
        write_listed(by.alloc, path, minimal_bytes, disk, text, start)
    } else {
        Ok(FileEnd {
            problem: None,
            outcome: FileOutcome::NotMinimal,
            is_replaced: false,
        })
    }
}

/// Replaces a file by its minimal file. Unless it is replaced, its line, which `text` has from the byte `start` on, is taken back.
fn write_listed<D: WriteDisk>(
    alloc: Global,
    path: &str,
    minimal_bytes: &[u8],
    disk: &mut D,
    text: &mut Vec<u8>,
    start: usize,
) -> Result<FileEnd, TidyStop>
    ensures written { IfOk result (IsWritten (D.disk disk.old) (D.disk disk.new) path.now minimal_bytes.now) }
    ensures listed { IfOk result (λ end. text.new.items ≡ (if end.is_replaced then text.old.items else take start text.old.items)) }
    ensures stopped { IfErr result (StopsWrite (D.disk disk.old) (D.disk disk.new) path.now) }
{
    let end = write_file(alloc, path, minimal_bytes, disk)?;
    if !end.is_replaced {
        text.truncate(start);
    }
    Ok(end)
}

/// Replaces a file by its minimal file.
fn write_file<D: WriteDisk>(
    alloc: Global,
    path: &str,
    minimal_bytes: &[u8],
    disk: &mut D,
) -> Result<FileEnd, TidyStop>
    ensures written { IfOk result (IsWritten (D.disk disk.old) (D.disk disk.new) path.now minimal_bytes.now) }
    ensures stopped { IfErr result (StopsWrite (D.disk disk.old) (D.disk disk.new) path.now) }
{
    match replace(alloc, disk, path, minimal_bytes) {
        Ok(()) => Ok(FileEnd {
            problem: None,
            outcome: FileOutcome::Minimal,
            is_replaced: true,
        }),
        Err(fault) => end_of_fault(fault),
    }
}

/// The outcome of a file that couldn't be replaced, or not for good; or the end of the run.
fn end_of_fault(fault: ReplaceFault) -> Result<FileEnd, TidyStop>
    ensures failed { IfOk result (IsFailedBy fault) }
    ensures stopped { IfErr result (IsStoppedBy fault) }
{
    match fault {
        ReplaceFault::OutOfMemory => Err(TidyStop::Memory),
        ReplaceFault::Left(new_path) => Err(TidyStop::Left(new_path)),
        ReplaceFault::NotRegular => Ok(not_written(false)),
        ReplaceFault::Unchanged => Ok(not_written(false)),
        ReplaceFault::NamesTaken => Ok(not_written(false)),
        ReplaceFault::FolderNotSynced => Ok(not_written(true)),
    }
}

/// The outcome of a file that couldn't be replaced, or not for good.
fn not_written(is_replaced: bool) -> FileEnd
    ensures problem { result.problem ≡ Some Problem.Write }
    ensures outcome { result.outcome ≡ FileOutcome.Failed }
    ensures replaced { result.is_replaced ≡ is_replaced }
{
    FileEnd {
        problem: Some(Problem::Write),
        outcome: FileOutcome::Failed,
        is_replaced,
    }
}
