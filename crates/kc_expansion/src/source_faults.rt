//! Faults of `source` lines.
ghost use Rattle.std.specs.Prelude.{◌≡◌, bytes_eq, IfOk, IfErr};
ghost use Rattle.std.specs.List.{list_any};
ghost use Rattle.kc_files.specs.checker.FileViews.{file_of};
ghost use Rattle.kc_macros.specs.between.SliceTexts.{texts_of_slices};
ghost use Rattle.kc_expansion.specs.checker.ReadingViews.{MayBeRead, MayNotBeRead};
ghost use Rattle.kc_expansion.specs.checker.Sizes.{size_read};

use super::read_counts::ReadCounts;
use kc_files::FileRead;
use kc_macros::is_text;
use kc_macros_model::{MACRO_KINDS, MacroKind};
use kc_tree_model::source_fault;
use kc_value::MAX_FILE_BYTES;
use std::rc::Rc;

/// Whether the file of a path is open.
fn is_open(open_files: &[&[u8]], path: &[u8]) -> bool
    ensures { result ≡ list_any (λ o. bytes_eq o.now path.now) open_files.now }
{
    open_files.iter().any(|other| is_text(other, path))
}

/// How many bytes a file has, None if it can't be read; `MAX_FILE_BYTES` for any size above the limit.
fn size_of(read: &FileRead) -> Option<usize>
    ensures { result ≡ size_read (file_of read.now) }
{
    match read {
        FileRead::Missing => None,
        FileRead::Unreadable => None,
        FileRead::Whole(bytes) => Some(bytes.len()),
        FileRead::TooLong => Some(MAX_FILE_BYTES),
    }
}

/// The bytes of a file or a list of files that a `source` line reads, unless they may not be read; `open_files` are the paths of
/// the files that are open within each other, the last one first.
///
/// # Errors
///
/// The fault of a file that is open already, is missing or can't be read, or of the limit that it passes.
pub(crate) fn bytes_to_read(
    open_files: &[&[u8]],
    counts: ReadCounts,
    path: &[u8],
    read: FileRead,
) -> Result<Rc<Vec<u8>>, MacroKind>
    ensures ok { IfOk result (λ b. MayBeRead (texts_of_slices open_files.now) counts path.now (file_of read) b.value.items) }
    ensures err { IfErr result (λ kind. MayNotBeRead (texts_of_slices open_files.now) counts path.now (file_of read) kind) }
{
    let size = size_of(&read);
    if let Some(kind) = source_fault(
        &MACRO_KINDS,
        is_open(open_files, path),
        size.is_some(),
        open_files.len(),
        counts.files,
        counts.bytes,
        size.unwrap_or(0),
    ) {
        return Err(kind);
    }
    match read {
        FileRead::Whole(bytes) => Ok(bytes),
        FileRead::Missing | FileRead::Unreadable | FileRead::TooLong => unreachable!(),
    }
}
