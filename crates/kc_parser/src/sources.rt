//! The files of `source`s.
ghost use Rattle.std.specs.Prelude.{◌≡◌, ◌<◌, ◌≤◌, ◌+◌, ◌^◌, ◌||◌, List, length, bytes_eq, IfOk};
ghost use Rattle.std.specs.List.{list_any};
ghost use Rattle.kc_tree_model.specs.Blocks.{Group};
ghost use Rattle.kc_parser.specs.checker.StateViews.{Describes, file_source_of};
ghost use Rattle.kc_parser.specs.checker.OpenBlockViews.{is_file_of};
ghost use Rattle.kc_parser.specs.checker.Steps.{AppendsSource, IsAfter, found_size, kinds_for, ReturnsEndRead, ReturnsSourceFile, ReturnsFile};

use super::append::push_group;
use super::fault::fault_or_out_of_memory;
use super::listing::GroupHead;
use super::open_blocks::{enclosing_choice, innermost, is_path_open, open_file_count};
use super::state::{Position, ReaderState, SourceFile, SourceFiles};
use super::text::whole_text;
use kc_tree_model::{SourceKinds, TREE_KINDS, TreeFault, TreeKind, source_fault};
use kc_value::{MAX_FILES, MAX_TREE_BYTES, Text};

/// The file of a path. An absent file is `MissingFile` or read as empty; a file whose number doesn't fit 32 bits is
/// out of memory.
pub(crate) fn file_of<'a>(from: SourceFiles<'a>, path: &str) -> Result<SourceFile<'a>, TreeKind>
    ensures { ReturnsFile (file_source_of from.entry) path.now result }
{
    let Ok(number) = u32::try_from(from.texts.number_of(path)) else {
        return Err(TreeKind::OutOfMemory);
    };
    match from.texts.get(path) {
        Some(bytes) => Ok(SourceFile {
            number,
            bytes,
            text: whole_text(bytes),
        }),
        None if from.absent_is_empty => Ok(SourceFile {
            number,
            bytes: b"",
            text: "",
        }),
        None => Err(TreeKind::MissingFile),
    }
}

/// Whether a file is open.
fn is_open(read: &ReaderState, from: SourceFiles<'_>, path: &str) -> bool
    ensures { result ≡ (bytes_eq from.entry.root.now path.now || list_any (is_file_of read.now.listing.texts.items path.now) read.now.stack.items) }
{
    from.root == path || is_path_open(&read.stack, &read.listing.texts, path)
}

/// How many bytes a file has, 0 if it isn't found.
fn size_of(found: &Result<SourceFile<'_>, TreeKind>) -> usize
    ensures { result ≡ found_size found.now }
{
    match found {
        Ok(file) => file.bytes.len(),
        Err(_) => 0,
    }
}

/// The kinds of faults of a `source`; if its file isn't found, that is the fault of `file_of`, which may be out of memory.
fn kinds_for(found: &Result<SourceFile<'_>, TreeKind>) -> SourceKinds<TreeKind>
    ensures { result ≡ kinds_for found.now }
{
    match found {
        Ok(_) => TREE_KINDS,
        Err(kind) => SourceKinds {
            missing_file: *kind,
            ..TREE_KINDS
        },
    }
}

/// The file that a `source` may read here.
fn sourced<'a>(
    read: &ReaderState,
    from: SourceFiles<'a>,
    path: &str,
) -> Result<SourceFile<'a>, TreeKind>
    ensures few { IfOk result (λ o. read.now.files < MAX_FILES) }
    ensures small { IfOk result (λ o. read.now.bytes + length o.bytes.now ≤ MAX_TREE_BYTES) }
    ensures sourced { (before : List Group) → Describes (file_source_of from.entry) read.now before
        → ReturnsSourceFile (file_source_of from.entry) path.now before result }
{
    let found = file_of(from, path);
    match source_fault(
        &kinds_for(&found),
        is_open(read, from, path),
        found.is_ok(),
        open_file_count(&read.stack) + 1,
        read.files,
        read.bytes,
        size_of(&found),
    ) {
        Some(kind) => Err(kind),
        None => found,
    }
}

/// Appends a `source`, and returns the file of its path, or the fault of the `source`.
pub(crate) fn open_source<'a>(
    read: &mut ReaderState,
    from: SourceFiles<'a>,
    at: Position,
    path: Text,
) -> Result<SourceFile<'a>, TreeFault>
    ensures small { IfOk result (λ o. length o.bytes.now < 2 ^ 31) }
    ensures sourced { (before : List Group) → Describes (file_source_of from.entry) read.old before
        → AppendsSource (file_source_of from.entry) at.file at.line path before read.new result }
{
    let found = sourced(read, from, path.as_str());
    let Ok(place) = read.push_text(path) else {
        return Err(TreeFault::out_of_memory());
    };
    let choice = enclosing_choice(&read.stack);
    match found {
        Ok(opened) => match read.push_source(at, place, opened.bytes.len()) {
            Ok(()) => Ok(opened),
            Err(_) => Err(TreeFault::out_of_memory()),
        },
        Err(kind) => match push_group(&mut read.listing, at, GroupHead::Source(place), choice) {
            Ok(()) => Err(fault_or_out_of_memory(at.file, at.line, kind)),
            Err(_) => Err(TreeFault::out_of_memory()),
        },
    }
}

/// Appends the end of a sourced file.
pub(crate) fn close_source(
    read: &mut ReaderState,
    from: SourceFiles<'_>,
    at: Position,
) -> Result<(), TreeFault>
    ensures { (before : List Group) → Describes (file_source_of from.entry) read.old before → IsAfter (file_source_of from.entry) at.file at.line before read.new result }
{
    match read.push_end(at, GroupHead::FileEnd) {
        Ok(()) => Ok(()),
        Err(_) => Err(TreeFault::out_of_memory()),
    }
}

/// Checks the end of a file: `Unclosed`, at the line of the innermost open block, if a block is still open in the file.
pub(crate) fn end_of_file(
    read: &ReaderState,
    from: SourceFiles<'_>,
    file: u32,
) -> Result<(), TreeFault>
    ensures { (before : List Group) → Describes (file_source_of from.entry) read.now before → ReturnsEndRead file before result }
{
    match innermost(&read.stack) {
        Some((_, line)) => Err(TreeFault::at_line(file, line, TreeKind::Unclosed)),
        None => Ok(()),
    }
}
