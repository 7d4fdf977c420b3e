//! Reading the files of a tree.
ghost use Rattle.std.specs.Prelude.{◌<◌, ◌≤◌, ◌+◌, ◌-◌, ◌^◌, List, length, drop, IfOk, Ok};
ghost use Rattle.kc_tree_model.specs.Blocks.{Group};
ghost use Rattle.kc_tree_model.specs.LogicalLines.{physical_lines, help_line_count};
ghost use Rattle.kc_tree_model.specs.TreeReading.{read_file};
ghost use Rattle.kc_parser.specs.checker.StateViews.{Describes, file_source_of};
ghost use Rattle.kc_parser.specs.checker.Steps.{ReturnsHelpRead, indented, ReturnsSourceRead, ReturnsOneRead, IsForward, ReturnsReadOfFile};

use super::fault::fault_or_out_of_memory;
use super::line::read_logical;
use super::sources::{close_source, end_of_file, open_source};
use super::state::{Position, ReaderState, SourceFile, SourceFiles, Step};
use super::text::text_between;
use kc_lines::{first_columns, is_of_help, logical_at, physical_at};
use kc_tokens::Token;
use kc_tree_model::TreeFault;
use kc_value::Text;

/// Reads the lines of a help text that is indented so far; returns the place after it, and its number of lines.
fn read_indented(
    file: SourceFile<'_>,
    at: usize,
    number: u32,
    columns: usize,
) -> Result<(usize, u32), TreeFault>
    requires within { at ≤ length file.bytes.now }
    requires few { number ≤ at + 1 }
    requires small { length file.bytes.now < 2 ^ 31 }
    ensures read { ReturnsHelpRead file.entry.number file.entry.bytes.now at number (indented columns file.entry.bytes.now at) result }
{
    let mut begin = at;
    let mut lines = 0;
    'help: while begin < file.bytes.len() {
        let line = physical_at(file.bytes, begin);
        if !is_of_help(&file.bytes[begin..line.end], columns) {
            return Ok((begin, lines));
        }
        if let Err(kind) = text_between(file, begin, line.end) {
            return Err(TreeFault::at_line(file.number, number + lines, kind));
        }
        begin = line.next;
        lines += 1;
    }
    Ok((begin, lines))
}

/// Reads the lines of a help text; returns the place after it, and its number of lines.
fn read_help(file: SourceFile<'_>, at: usize, number: u32) -> Result<(usize, u32), TreeFault>
    requires within { at ≤ length file.bytes.now }
    requires few { number ≤ at + 1 }
    requires small { length file.bytes.now < 2 ^ 31 }
    ensures read { ReturnsHelpRead file.entry.number file.entry.bytes.now at number (help_line_count (physical_lines (drop at file.entry.bytes.now))) result }
{
    let columns = first_columns(file.bytes, at);
    if columns == 0 {
        return Ok((at, 0));
    }
    read_indented(file, at, number, columns)
}

/// Reads the file of a `source` and its end; `depth` is the number of files that may be open within each other.
#[cycle(files)]
fn read_sourced(
    read: &mut ReaderState,
    from: SourceFiles<'_>,
    depth: usize,
    at: Position,
    path: Text,
) -> Result<(), TreeFault>
    ensures { (before : List Group) → Describes (file_source_of from.entry) read.old before
        → ReturnsSourceRead (file_source_of from.entry) (read_file depth (file_source_of from.entry)) at.file at.line path before read.new result }
{
    let sourced = open_source(read, from, at, path)?;
    read_open_file(read, from, depth, sourced)?;
    close_source(read, from, at)
}

/// Reads a logical line with its help text or its sourced file; returns the place after it, and the number of lines.
#[cycle(files)]
fn read_statement<'a>(
    read: &mut ReaderState,
    from: SourceFiles<'_>,
    depth: usize,
    file: SourceFile<'a>,
    found: &mut Vec<Token<'a>>,
    at: usize,
    number: u32,
) -> Result<(usize, u32), TreeFault>
    requires here { at < length file.bytes.now }
    requires few { number ≤ at + 1 }
    requires small { length file.bytes.now < 2 ^ 31 }
    ensures bounds { IfOk result (λ p. IsForward file.entry.bytes.now at p.0 p.1) }
    ensures read { (before : List Group) → Describes (file_source_of from.entry) read.old before
        → ReturnsOneRead (file_source_of from.entry) (read_file depth (file_source_of from.entry)) file.entry.number file.entry.bytes.now at number before read.new result }
{
    let Ok(line) = logical_at(read.alloc, file.bytes, at) else {
        return Err(TreeFault::out_of_memory());
    };
    let next = line.next;
    let lines = line.lines as u32;
    match read_logical(read, from, file, number, at, &line.text, found) {
        Err(kind) => Err(fault_or_out_of_memory(file.number, number, kind)),
        Ok(Step::Next) => Ok((next, lines)),
        Ok(Step::Help) => {
            let (end, more) = read_help(file, next, number + lines)?;
            Ok((end, lines + more))
        }
        Ok(Step::Source(path)) => {
            let here = Position {
                file: file.number,
                line: number,
            };
            read_sourced(read, from, depth, here, path)?;
            Ok((next, lines))
        }
    }
}

/// Reads a file and all that it sources, and appends their statements to the listing; `depth` is the number of files that
/// may be open within each other, this one among them.
#[cycle(files)]
pub(crate) fn read_open_file(
    read: &mut ReaderState,
    from: SourceFiles<'_>,
    depth: usize,
    file: SourceFile<'_>,
) -> Result<(), TreeFault>
    requires small { length file.bytes.now < 2 ^ 31 }
    ensures read { (before : List Group) → Describes (file_source_of from.entry) read.old before
        → ReturnsReadOfFile (file_source_of from.entry) depth file.entry before read.new result }
{
    if depth == 0 {
        return Ok(());
    }
    let mut found = Vec::new(read.alloc);
    let mut at = 0;
    let mut number = 1;
    'lines: while at < file.bytes.len() {
        let (next, lines) = read_statement(read, from, depth - 1, file, &mut found, at, number)?;
        at = next;
        number += lines;
    }
    end_of_file(read, from, file.number)
}
