//! The reading of a tree: a sourced file is read at its `source` line.
ghost use Rattle.std.specs.Prelude.{◌≡◌, ◌<◌, ◌≤◌, Some, length, drop};
ghost use Rattle.kc_tree_model.specs.LogicalLines.{split_at_newlines};
ghost use Rattle.kc_macros_model.specs.ReadingStates.{progress};
ghost use Rattle.kc_macros_model.specs.TreeExpansion.{one_file, file_list, path_read, source_followed, list_read, lines_read};
ghost use Rattle.kc_macros.specs.Runs.{place_of, end_of};
ghost use Rattle.kc_macro_forms.specs.between.WrittenTokens.{tokens_of};
ghost use Rattle.kc_macro_forms.specs.between.LineFormViews.{source_sort_of};
ghost use Rattle.kc_files.specs.TextViews.{items_of};
ghost use Rattle.kc_expansion.specs.between.Reads.{Reads};
ghost use Rattle.kc_expansion.specs.checker.FileLines.{LineRead};
ghost use Rattle.kc_expansion.specs.checker.ReadingViews.{state_of, file_run_of, reader_of, lines_left, IsWrittenTo};
ghost use Rattle.kc_expansion.specs.checker.WrittenViews.{text_up_to};

use super::file_lines::{LineHere, line_here, put_source};
use super::line_places::LineStart;
use super::line_steps::SourceLine;
use super::open_files::OpenFiles;
use super::source_lines::push_source_line;
use super::source_paths::paths_to_read;
use super::source_reads::{file_to_read, keep_list, keep_text, list_to_read};
use super::tree_expander::TreeExpander;
use super::written_file::WrittenFile;
use kc_files::{TreeFiles, has_bracket, list_name, path_meant};
use kc_macro_forms::{SourceSort, line_bytes, source_line};
use kc_macros::{Place, Stop, with_innermost};
use kc_value::{MAX_OPEN_FILES, MAX_TREE_BYTES};
use std::rc::Rc;

/// Reads the file of a path with all that it sources; returns the key of its expanded text.
#[cycle(reading)]
fn read_source<F: TreeFiles>(
    reading: &mut TreeExpander<'_>,
    files: &mut F,
    opened: &OpenFiles<'_>,
    at: Place<'_>,
    path: &[u8],
) -> Result<Vec<u8>, Stop>
    requires few { length opened.now.paths.now ≤ MAX_OPEN_FILES }
    ensures reads { Reads (file_run_of (F.contents files.old) reading.old) (file_run_of (F.contents files.new) reading.new) (reader_of opened.now (place_of at.entry) (one_file path.now) (state_of reading.old)) (end_of (λ key. progress key.items (state_of reading.new)) result) }
{
    let bytes = file_to_read(reading, files, opened, at, path)?;
    let paths = with_innermost(reading.alloc, path, opened.paths)?;
    let inner = OpenFiles {
        root: opened.root,
        paths: &paths,
    };
    let text = read_lines(reading, files, &inner, path, bytes)?;
    keep_text(reading, opened.root, path, text)
}

/// Reads the files of a list; returns the key of the list's text, whose lines source them.
#[cycle(reading)]
fn read_list<F: TreeFiles>(
    reading: &mut TreeExpander<'_>,
    files: &mut F,
    opened: &OpenFiles<'_>,
    at: Place<'_>,
    name: &[u8],
    paths: &[Vec<u8>],
) -> Result<Vec<u8>, Stop>
    requires few { length opened.now.paths.now ≤ MAX_OPEN_FILES }
    ensures reads { Reads (file_run_of (F.contents files.old) reading.old) (file_run_of (F.contents files.new) reading.new) (reader_of opened.now (place_of at.entry) (file_list name.now (items_of paths.now)) (state_of reading.old)) (end_of (λ key. progress key.items (state_of reading.new)) result) }
{
    list_to_read(reading, opened, at, name)?;
    let open_paths = with_innermost(reading.alloc, name, opened.paths)?;
    let inner = OpenFiles {
        root: opened.root,
        paths: &open_paths,
    };
    let text = list_lines(reading, files, &inner, at, paths)?;
    keep_list(reading, opened.root, name, text)
}

/// Reads files in order; returns a `source` line of the key of each.
#[cycle(reading)]
fn list_lines<F: TreeFiles>(
    reading: &mut TreeExpander<'_>,
    files: &mut F,
    opened: &OpenFiles<'_>,
    at: Place<'_>,
    paths: &[Vec<u8>],
) -> Result<Vec<u8>, Stop>
    requires few { length opened.now.paths.now ≤ MAX_OPEN_FILES }
    ensures reads { Reads (file_run_of (F.contents files.old) reading.old) (file_run_of (F.contents files.new) reading.new) (list_read (reader_of opened.now) (place_of at.entry) (items_of paths.now) (state_of reading.old)) (end_of (λ text. progress text.items (state_of reading.new)) result) }
{
    let mut text = Vec::new(reading.alloc);
    'paths: for path in paths {
        let key = read_source(reading, files, opened, at, path)?;
        push_source_line(&mut text, &key)?;
    }
    Ok(text)
}

/// Reads the file or the files that a `source` of this path and sort means; returns the key of the expanded text.
#[cycle(reading)]
fn read_path<F: TreeFiles>(
    reading: &mut TreeExpander<'_>,
    files: &mut F,
    opened: &OpenFiles<'_>,
    at: Place<'_>,
    sort: SourceSort,
    path: &[u8],
) -> Result<Vec<u8>, Stop>
    requires few { length opened.now.paths.now ≤ MAX_OPEN_FILES }
    ensures reads { Reads (file_run_of (F.contents files.old) reading.old) (file_run_of (F.contents files.new) reading.new) (path_read (reader_of opened.now) (place_of at.entry) (source_sort_of sort) path.now (state_of reading.old)) (end_of (λ key. progress key.items (state_of reading.new)) result) }
{
    match paths_to_read(reading, files, at, sort, path)? {
        Some(paths) => {
            let name = list_name(reading.alloc, at)?;
            read_list(reading, files, opened, at, &name, &paths)
        }
        None => read_source(reading, files, opened, at, path),
    }
}

/// Follows a `source` line; returns the line that sources the expanded text instead. A line whose path has a `[` stays.
#[cycle(reading)]
fn follow_source<F: TreeFiles>(
    reading: &mut TreeExpander<'_>,
    files: &mut F,
    opened: &OpenFiles<'_>,
    at: Place<'_>,
    line: &SourceLine,
) -> Result<Vec<u8>, Stop>
    requires few { length opened.now.paths.now ≤ MAX_OPEN_FILES }
    ensures reads { Reads (file_run_of (F.contents files.old) reading.old) (file_run_of (F.contents files.new) reading.new) (source_followed (reader_of opened.now) (place_of at.entry) (tokens_of line.now.tokens.items) (source_sort_of line.now.sort) (Some line.now.given.items) (state_of reading.old)) (end_of (λ text. progress text.items (state_of reading.new)) result) }
{
    let path = path_meant(reading.alloc, line.sort.relative, at.file, &line.given)?;
    if has_bracket(&path) {
        return Ok(line_bytes(reading.alloc, &line.tokens)?);
    }
    let key = read_path(reading, files, opened, at, line.sort, &path)?;
    Ok(source_line(reading.alloc, &line.tokens, &line.given, &key)?)
}

/// Writes the logical line at a place; returns the place after it and after the help text that follows it.
#[cycle(reading)]
fn next_line<F: TreeFiles>(
    reading: &mut TreeExpander<'_>,
    files: &mut F,
    opened: &OpenFiles<'_>,
    file: &[u8],
    bytes: &[u8],
    start: LineStart,
    out: &mut WrittenFile,
) -> Result<LineStart, Stop>
    requires few { length opened.now.paths.now ≤ MAX_OPEN_FILES }
    requires there { start.at < length bytes.now }
    requires small { length bytes.now ≤ MAX_TREE_BYTES }
    requires written { IsWrittenTo bytes.now start out.old }
    ensures { LineRead (file_run_of (F.contents files.old) reading.old) (file_run_of (F.contents files.new) reading.new) (reader_of opened.now) file.now bytes.now start (state_of reading.old) out.old (state_of reading.new) out.new result }
{
    match line_here(&mut reading.lines, file, bytes, start, out)? {
        LineHere::Passed(next) => Ok(next),
        LineHere::Sources(here) => {
            let text = follow_source(reading, files, opened, here.at, &here.source)?;
            put_source(reading.alloc, out, bytes, start, &here, text)
        }
    }
}

/// Reads the lines of a file with these bytes, and all files that the lines source; returns the expanded text of the file.
#[cycle(reading)]
pub(crate) fn read_lines<F: TreeFiles>(
    reading: &mut TreeExpander<'_>,
    files: &mut F,
    opened: &OpenFiles<'_>,
    file: &[u8],
    bytes: Rc<Vec<u8>>,
) -> Result<Rc<Vec<u8>>, Stop>
    requires few { length opened.now.paths.now ≤ MAX_OPEN_FILES }
    requires small { length bytes.value.items ≤ MAX_TREE_BYTES }
    ensures reads { Reads (file_run_of (F.contents files.old) reading.old) (file_run_of (F.contents files.new) reading.new) (lines_read (reader_of opened.now) file.now 0 1 (split_at_newlines bytes.value.items) (state_of reading.old)) (end_of (λ text. progress text.value.items (state_of reading.new)) result) }
{
    let mut out = WrittenFile::new(reading.alloc, bytes.clone()?);
    let mut start = LineStart { at: 0, number: 1 };
    'lines: while start.at < bytes.len() {
        start = next_line(reading, files, opened, file, &bytes, start, &mut out)?;
    }
    Ok(out.finish()?)
}
