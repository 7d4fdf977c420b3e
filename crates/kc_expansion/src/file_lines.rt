//! The lines of a file that is read, one after another.
ghost use Rattle.std.specs.Prelude.{◌≡◌, ◌<◌, ◌≤◌, ◌+◌, ◌||◌, not, nat_lt, false, length, drop, List, ℕ, IfOk};
ghost use Rattle.std.specs.Str.{is_utf8};
ghost use Rattle.std.specs.Cow.{cow_slice_items};
ghost use Rattle.kc_macros_model.specs.Worlds.{returned};
ghost use Rattle.kc_macros_model.specs.ReadingStates.{ReadingState, progress, written_line};
ghost use Rattle.kc_macros_model.specs.TreeExpansion.{SourceReader, short_line};
ghost use Rattle.kc_macros.specs.Runs.{place_of, ends};
ghost use Rattle.kc_files.specs.TreeContents.{TreeContents};
ghost use Rattle.kc_files.specs.between.KnownFiles.{KnownFiles};
ghost use Rattle.kc_expansion.specs.between.Reads.{FileRun, file_run, Reads};
ghost use Rattle.kc_expansion.specs.checker.FileLines.{IsFileLine, line_of_file, LineRead, LineMet};
ghost use Rattle.kc_expansion.specs.checker.ProgramSteps.{Leads};
ghost use Rattle.kc_expansion.specs.checker.ReadingViews.{with_lines, IsWrittenTo};

use super::copied_lines::copied_line;
use super::line_places::{LineStart, after_help, is_continued_at, write_over};
use super::line_steps::{LineState, LineStep, NewLine, SourceLine, line_step, short_line};
use super::written_file::WrittenFile;
use kc_lines::{LogicalLine, logical_at};
use kc_macros::{Place, Stop};
use kc_value::{MAX_TEXT_BYTES, MAX_TREE_BYTES};
use std::alloc::{AllocError, Global};
use std::borrow::CowSlice;

/// A logical line of a file: its bytes, and where the next line begins.
#[derive(Drop)]
pub(crate) struct FileLine<'a> {
    pub text: CowSlice<'a, u8>,
    pub after: LineStart,
}

/// A line of a file that sources files: its place for faults, what it sources, and the line in the file.
#[derive(Drop)]
pub(crate) struct SourceHere<'a> {
    pub at: Place<'a>,
    pub source: SourceLine,
    pub line: FileLine<'a>,
}

/// What became of a line of a file: it was passed, with its help text, up to this place; or its files have to be read first.
#[derive(Drop)]
pub(crate) enum LineHere<'a> {
    Passed(LineStart),
    Sources(SourceHere<'a>),
}

/// The logical line that begins at a place. An `Err` means out of memory.
fn line_at(alloc: Global, bytes: &[u8], start: LineStart) -> Result<FileLine<'_>, AllocError>
    requires there { start.at < length bytes.now }
    requires small { length bytes.now ≤ MAX_TREE_BYTES }
    requires few { start.number ≤ start.at + 1 }
    ensures { IfOk result (λ line. IsFileLine bytes.now start line) }
{
    let LogicalLine { text, next, lines } = logical_at(alloc, bytes, start.at)?;
    let after = LineStart {
        at: next,
        number: start.number + lines as u32,
    };
    Ok(FileLine { text, after })
}

/// Writes the new text of a line over the line; returns the place after it and after the help text that follows it.
fn put_line(
    out: &mut WrittenFile,
    bytes: &[u8],
    start: LineStart,
    line: &FileLine<'_>,
    new: &NewLine,
) -> Result<LineStart, Stop>
    requires small { length bytes.now ≤ MAX_TREE_BYTES }
    requires written { IsWrittenTo bytes.now start out.old }
    requires line { IsFileLine bytes.now start line.now }
    ensures { (a b : FileRun) (sub : SourceReader) (file : List ℕ) (s t : ReadingState) → Reads a b (line_of_file sub file bytes.now start (cow_slice_items line.now.text) s) (ends (returned (written_line new.now.text.items new.now.begins_help t)))
        → LineRead a b sub file bytes.now start s out.old t out.new result }
{
    write_over(out, bytes, start.at, line.after.at, &line.text, &new.text)?;
    Ok(after_help(bytes, line.after, new.begins_help))
}

/// Writes the text of a line whose files were read over the line; returns the place after it.
pub(crate) fn put_source(
    alloc: Global,
    out: &mut WrittenFile,
    bytes: &[u8],
    start: LineStart,
    here: &SourceHere<'_>,
    text: Vec<u8>,
) -> Result<LineStart, Stop>
    requires small { length bytes.now ≤ MAX_TREE_BYTES }
    requires written { IsWrittenTo bytes.now start out.old }
    requires line { IsFileLine bytes.now start here.now.line }
    ensures { (a b : FileRun) (sub : SourceReader) (file : List ℕ) (s t : ReadingState) → Leads a (line_of_file sub file bytes.now start (cow_slice_items here.now.line.text) s) b (short_line (place_of here.now.at) false (progress text.items t))
        → LineRead a b sub file bytes.now start s out.old t out.new result }
{
    let new = short_line(alloc, here.at, text, false)?;
    put_line(out, bytes, start, &here.line, &new)
}

/// Writes a line that may change, unless files have to be read first.
fn changed_line<'a>(
    state: &mut LineState<'_>,
    file: &'a [u8],
    bytes: &[u8],
    start: LineStart,
    line: FileLine<'a>,
    out: &mut WrittenFile,
) -> Result<LineHere<'a>, Stop>
    requires small { length bytes.now ≤ MAX_TREE_BYTES }
    requires written { IsWrittenTo bytes.now start out.old }
    requires line { IsFileLine bytes.now start line }
    requires may_change { (nat_lt MAX_TEXT_BYTES (length (cow_slice_items line.text)) || not (is_utf8 (cow_slice_items line.text))) ≡ false }
    ensures { (contents : TreeContents) (known : KnownFiles) (sub : SourceReader) (s : ReadingState)
        → LineMet (file_run contents known state.old.run) (file_run contents known state.new.run) sub file.now bytes.now start (with_lines state.old s) out.old (with_lines state.new s) out.new result }
{
    let at = Place {
        file,
        line: start.number,
    };
    let joined = is_continued_at(bytes, start.at);
    match line_step(state, at, joined, &line.text)? {
        LineStep::Written(new) => {
            let next = put_line(out, bytes, start, &line, &new)?;
            Ok(LineHere::Passed(next))
        }
        LineStep::Sources(source) => Ok(LineHere::Sources(SourceHere { at, source, line })),
    }
}

/// Writes the logical line at a place of a file, unless files have to be read first.
#[inline(always)]
pub(crate) fn line_here<'a>(
    state: &mut LineState<'_>,
    file: &'a [u8],
    bytes: &'a [u8],
    start: LineStart,
    out: &mut WrittenFile,
) -> Result<LineHere<'a>, Stop>
    requires there { start.at < length bytes.now }
    requires small { length bytes.now ≤ MAX_TREE_BYTES }
    requires written { IsWrittenTo bytes.now start out.old }
    ensures { (contents : TreeContents) (known : KnownFiles) (sub : SourceReader) (s : ReadingState)
        → LineMet (file_run contents known state.old.run) (file_run contents known state.new.run) sub file.now bytes.now start (with_lines state.old s) out.old (with_lines state.new s) out.new result }
{
    let line = line_at(state.run.alloc(), bytes, start)?;
    if let Some(begins_help) = copied_line(&line.text) {
        return Ok(LineHere::Passed(after_help(bytes, line.after, begins_help)));
    }
    changed_line(state, file, bytes, start, line, out)
}
