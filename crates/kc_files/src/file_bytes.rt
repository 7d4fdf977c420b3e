//! The bytes of a file, as far as they are read.
ghost use Rattle.std.specs.Prelude.{◌≡◌, ◌⊎◌, ◌≤◌, IfOk, IfNone, IfSome, length};
ghost use Rattle.std.specs.Io.KnownBytes.{Consumes, IsAtEnd};
ghost use Rattle.kc_value.specs.FileContents.{content_of_reader};
ghost use Rattle.kc_files.specs.between.KnownFiles.{MatchFile};
ghost use Rattle.kc_files.specs.checker.FileViews.{file_of};
ghost use Rattle.kc_files.specs.TreeContents.{HasRisen, StaysKnown};

use super::files::{FileStop, TreeFiles};
use kc_value::{MAX_BLOCK_BYTES, MAX_FILE_BYTES, ReadBytes, ReadEnd, Source, read_up_to};
use std::alloc::{AllocError, Global};
use std::rc::Rc;

/// The result of reading a file: it is missing, is there and can't be read, has these bytes, or has more bytes than may be read.
#[derive(Drop)]
pub enum FileRead {
    Missing,
    Unreadable,
    Whole(Rc<Vec<u8>>),
    TooLong,
}

/// All bytes of a reader, or the first `MAX_FILE_BYTES` of more; `None` where a read fails. Memory is taken for `capacity` bytes at once,
/// and `block` is read into, which may serve for many files, since to clear it anew takes an instruction for each of its bytes.
pub fn read_front<S: Source>(
    alloc: Global,
    source: &mut S,
    capacity: usize,
    block: &mut [u8; MAX_BLOCK_BYTES],
) -> Result<Option<Vec<u8>>, AllocError>
    ensures bytes { IfOk result (λ found. IfSome found (λ bytes. Consumes (S.left source.old) (S.left source.new) bytes.items × (length bytes.items ≤ MAX_FILE_BYTES) × ((length bytes.items ≡ MAX_FILE_BYTES) ⊎ IsAtEnd (S.left source.new)))) }
    ensures failed { IfOk result (λ found. IfNone found (HasRisen (S.failures source.old) (S.failures source.new))) }
{
    let ReadBytes { bytes, end } = read_up_to(alloc, source, MAX_FILE_BYTES, capacity, block)?;
    match end {
        ReadEnd::AtEnd | ReadEnd::AtLimit => Ok(Some(bytes)),
        ReadEnd::AtFailure => Ok(None),
    }
}

/// The result of reading the file of a reader; where a read fails, the file is unreadable.
fn read_bytes<S: Source>(
    alloc: Global,
    source: &mut S,
    capacity: usize,
    block: &mut [u8; MAX_BLOCK_BYTES],
) -> Result<FileRead, AllocError>
    ensures { IfOk result (λ read. MatchFile (content_of_reader (S.left source.old)) (S.failures source.old) (S.failures source.new) (file_of read)) }
{
    match read_front(alloc, source, capacity, block)? {
        None => Ok(FileRead::Unreadable),
        Some(bytes) if bytes.len() < MAX_FILE_BYTES => Ok(FileRead::Whole(Rc::new(alloc, bytes)?)),
        Some(_) => Ok(FileRead::TooLong),
    }
}

/// The result of reading an open file, which is closed.
fn read_opened<F: TreeFiles>(
    alloc: Global,
    files: &mut F,
    mut reader: F::File,
    block: &mut [u8; MAX_BLOCK_BYTES],
) -> Result<FileRead, AllocError>
    requires unread { F.File.Source.failures reader ≡ 0 }
    ensures same { StaysKnown (F.contents files.old) (F.contents files.new) }
    ensures matched { IfOk result (λ read. MatchFile (content_of_reader (F.File.Source.left reader)) (F.contents files.old).failures (F.contents files.new).failures (file_of read)) }
{
    let capacity = files.size_of(&reader).min(MAX_FILE_BYTES);
    let read = read_bytes(alloc, &mut reader, capacity, block);
    files.close(reader);
    read
}

/// Opens the file of a path, and reads it block by block into `block`. What fails is counted.
///
/// # Errors
///
/// Memory runs out.
pub(crate) fn read_file<F: TreeFiles>(
    alloc: Global,
    files: &mut F,
    path: &[u8],
    block: &mut [u8; MAX_BLOCK_BYTES],
) -> Result<FileRead, AllocError>
    ensures same { StaysKnown (F.contents files.old) (F.contents files.new) }
    ensures matched { IfOk result (λ read. MatchFile ((F.contents files.old).file path.now) (F.contents files.old).failures (F.contents files.new).failures (file_of read)) }
{
    match files.open(alloc, path) {
        Ok(Some(reader)) => read_opened(alloc, files, reader, block),
        Ok(None) => Ok(FileRead::Missing),
        Err(FileStop::Failed) => Ok(FileRead::Unreadable),
        Err(FileStop::OutOfMemory) => Err(AllocError),
    }
}
