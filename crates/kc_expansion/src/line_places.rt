//! The places of the lines of a file, and the lines that are replaced.
ghost use Rattle.std.specs.Prelude.{true, ◌≡◌, ◌<◌, ◌≤◌, ◌+◌, ◌-◌, ◌++◌, ℕ, ◌==◌, length, count_by, drop, take, OnOk};
ghost use Rattle.kc_tree_model.specs.LogicalLines.{physical_lines, split_at_newlines};
ghost use Rattle.kc_macros_model.specs.TreeExpansion.{lines_written};
ghost use Rattle.kc_expansion.specs.checker.LineViews.{is_first_continued, IsHelpPassed};
ghost use Rattle.kc_expansion.specs.checker.WrittenViews.{text_up_to};

use super::written_file::WrittenFile;
use kc_lines::{help_at, physical_at};
use kc_value::MAX_TREE_BYTES;
use std::alloc::AllocError;

/// Where a line of a file begins: its place in the bytes, counted from 0, and its number, counted from 1.
#[derive(Clone, Copy)]
pub(crate) struct LineStart {
    pub at: usize,
    pub number: u32,
}

/// Whether the physical line that begins at a place is continued on the next one: it ends in a backslash and a newline.
pub(crate) fn is_continued_at(bytes: &[u8], at: usize) -> bool
    requires there { at < length bytes.now }
    ensures value { result ≡ is_first_continued (physical_lines (drop at bytes.now)) }
{
    let line = physical_at(bytes, at);
    line.ended && line.end > at && bytes[line.end - 1] == b'\\'
}

/// The place after the help text that begins at a place.
fn after_help_text(bytes: &[u8], after: LineStart) -> LineStart
    requires within { after.at ≤ length bytes.now }
    requires small { length bytes.now ≤ MAX_TREE_BYTES }
    requires few { after.number ≤ after.at + 1 }
    ensures passed { IsHelpPassed bytes.now after true result }
{
    let help = help_at(bytes, after.at);
    LineStart {
        at: help.next,
        number: after.number + help.lines as u32,
    }
}

/// The place after the help text that follows a line, or the place `after` the line where none follows.
pub(crate) fn after_help(bytes: &[u8], after: LineStart, begins_help: bool) -> LineStart
    requires within { after.at ≤ length bytes.now }
    requires small { length bytes.now ≤ MAX_TREE_BYTES }
    requires few { after.number ≤ after.at + 1 }
    ensures passed { IsHelpPassed bytes.now after begins_help result }
{
    if begins_help {
        return after_help_text(bytes, after);
    }
    after
}

/// How many newlines a text has.
fn newline_count(text: &[u8]) -> usize
    ensures { result ≡ count_by (λ c. c == 10) text.now }
{
    text.iter().filter(|byte| **byte == b'\n').count()
}

/// Replaces the logical line between two places by the text `new` and as many newlines as the line has; where `new` is the
/// line's joined text `text`, the line's bytes stay as they are.
///
/// # Errors
///
/// Memory runs out.
pub(crate) fn write_over(
    out: &mut WrittenFile,
    bytes: &[u8],
    at: usize,
    next: usize,
    text: &[u8],
    new: &[u8],
) -> Result<(), AllocError>
    requires original { out.old.original.value.items ≡ bytes.now }
    requires copied { out.old.copied ≤ at }
    requires order { at < next }
    requires within { next ≤ length bytes.now }
    ensures original { OnOk result (out.new.original.value.items ≡ bytes.now) }
    ensures copied { OnOk result (out.new.copied ≤ next) }
    ensures text { OnOk result ((lines : ℕ) → split_at_newlines (drop next bytes.now) ≡ drop lines (split_at_newlines (drop at bytes.now))
        → text_up_to out.new next ≡ text_up_to out.old at ++ lines_written (take lines (split_at_newlines (drop at bytes.now))) text.now new.now) }
{
    if new == text {
        return Ok(());
    }
    out.replace(at, next, new, newline_count(&bytes[at..next]))
}
