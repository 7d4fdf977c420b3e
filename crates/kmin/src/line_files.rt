//! The files that messages are about, as they are on the system.
ghost use Rattle.kmin_texts.specs.KnownLines.{nothing_known};

use kc_value::{FromRead, MAX_BLOCK_BYTES, MAX_FILE_BYTES, ReadEnd, read_up_to};
use kmin_details::Unreadable;
use kmin_disk::says_absent;
use kmin_texts::{LineFiles, Reread, after_lines, line_at};
use std::alloc::{AllocError, Global};
use std::fs;
use std::fs::File;
use std::io::ErrorKind;

/// The lines of files of the system. The file that was read last is kept, since its next notice is about a later line.
#[derive(Drop)]
pub(crate) struct SystemLines<'a> {
    runtime: &'a HostRuntime,
    kept: Option<KeptFile>,
}

/// A file that was read, whether its words may be shown, and the line that was found last: its number and the bytes from it on.
#[derive(Drop)]
struct KeptFile {
    path: String,
    is_shown: bool,
    bytes: Vec<u8>,
    number: u32,
    rest: usize,
}

impl<'a> SystemLines<'a> {
    /// The lines of files of the system, of which none is read yet.
    pub(crate) fn new(runtime: &'a HostRuntime) -> SystemLines<'a> {
        SystemLines {
            runtime,
            kept: None,
        }
    }

    /// A line of the file at a path, whose words may be shown if it is below `folder`.
    fn line(
        &mut self,
        alloc: Global,
        folder: &str,
        path: &str,
        number: u32,
    ) -> Result<Reread, AllocError> {
        if !self.keeps(path, number) {
            match read_again(self.runtime, alloc, folder, path)? {
                Ok(file) => self.kept = Some(file),
                Err(why) => return Ok(Reread::Unread(why)),
            }
        }
        match &mut self.kept {
            Some(file) => file.line(alloc, number),
            None => Ok(Reread::NoLine),
        }
    }

    /// Whether the file at a path is kept, and this line isn't before the one that was found last.
    fn keeps(&self, path: &str, number: u32) -> bool {
        match &self.kept {
            Some(file) => file.path.as_str() == path && file.number <= number,
            None => false,
        }
    }
}

impl KeptFile {
    /// The line with this number, from the line that was found last on.
    fn line(&mut self, alloc: Global, number: u32) -> Result<Reread, AllocError> {
        let rest = last_bytes(&self.bytes, self.rest);
        if number < self.number {
            return Ok(Reread::NoLine);
        }
        let rest = after_lines(rest, number - self.number);
        let Some(line) = line_at(rest, 1) else {
            return Ok(Reread::NoLine);
        };
        let line = Vec::from_slice(alloc, line)?;
        let count = rest.len();
        self.number = number;
        self.rest = count;
        if self.is_shown {
            return Ok(Reread::Shown(line));
        }
        Ok(Reread::Hidden(line))
    }
}

/// The last `count` bytes, or all where there are fewer.
fn last_bytes(bytes: &[u8], count: usize) -> &[u8] {
    &bytes[bytes.len() - count.min(bytes.len())..]
}

impl LineFiles for SystemLines<'_> {
    ghost known = { nothing_known };

    fn tree_line(
        &mut self,
        alloc: Global,
        root: &str,
        path: &[u8],
        number: u32,
    ) -> Result<Reread, AllocError> {
        let path = path_below(alloc, root, path)?;
        self.line(alloc, root, &path, number)
    }

    fn named_line(&mut self, alloc: Global, path: &str, number: u32) -> Result<Reread, AllocError> {
        self.line(alloc, ".", path, number)
    }

    fn why_unread(
        &mut self,
        alloc: Global,
        root: &str,
        path: &[u8],
    ) -> Result<Option<Unreadable>, AllocError> {
        let path = path_below(alloc, root, path)?;
        match read_again(self.runtime, alloc, root, &path)? {
            Ok(_) => Ok(None),
            Err(why) => Ok(Some(why)),
        }
    }
}

/// A path below a folder, with U+FFFD in place of what isn't UTF-8 in it.
fn path_below(alloc: Global, folder: &str, path: &[u8]) -> Result<String, AllocError> {
    let path = String::from_utf8_lossy(alloc, path)?;
    [folder, "/", path.as_str()].concat(alloc)
}

/// The regular file at a path, read once more, or why it can't be read.
fn read_again(
    runtime: &HostRuntime,
    alloc: Global,
    folder: &str,
    path: &str,
) -> Result<Result<KeptFile, Unreadable>, AllocError> {
    if let Err(why) = check_regular(runtime, path) {
        return Ok(Err(why));
    }
    let file = match File::open(runtime, path) {
        Ok(file) => file,
        Err(error) => return Ok(Err(reason(error.kind()))),
    };
    let block = &mut [0; MAX_BLOCK_BYTES];
    let read = read_up_to(alloc, &mut FromRead::new(file), MAX_FILE_BYTES, 0, block)?;
    if read.end == ReadEnd::AtFailure {
        return Ok(Err(Unreadable::FailedRead));
    }
    let rest = read.bytes.len();
    Ok(Ok(KeptFile {
        path: String::from_str(alloc, path)?,
        is_shown: is_below(runtime, folder, path),
        bytes: read.bytes,
        number: 1,
        rest,
    }))
}

/// Checks that a path leads to a regular file. This opens nothing, so it doesn't wait at a pipe.
fn check_regular(runtime: &HostRuntime, path: &str) -> Result<(), Unreadable> {
    match fs::metadata(runtime, path) {
        Ok(metadata) if metadata.is_file() => Ok(()),
        Ok(metadata) if metadata.is_dir() => Err(Unreadable::Folder),
        Ok(_) => Err(Unreadable::FailedRead),
        Err(error) => Err(reason(error.kind())),
    }
}

/// Why a file can't be read, by the error of the system.
fn reason(kind: ErrorKind) -> Unreadable {
    match kind {
        ErrorKind::PermissionDenied => Unreadable::NoPermission,
        ErrorKind::IsADirectory => Unreadable::Folder,
        kind if says_absent(kind) => Unreadable::NotThere,
        _ => Unreadable::FailedRead,
    }
}

/// Whether the real path of a file is below that of a folder. Where one of them isn't known, it isn't.
fn is_below(runtime: &HostRuntime, folder: &str, path: &str) -> bool {
    let (Ok(folder), Ok(path)) = (
        fs::canonicalize(runtime, folder),
        fs::canonicalize(runtime, path),
    ) else {
        return false;
    };
    path.starts_with(&folder)
}
