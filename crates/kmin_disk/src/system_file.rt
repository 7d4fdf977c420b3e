//! An open file of the system.
ghost use Rattle.std.specs.Prelude.{◌≡◌, IfOk, IfSome};

use kc_value::{Failed, FromRead, Source};
use std::fs;
use std::fs::{File, Metadata};
use std::io::ErrorKind;

/// An open file, how many bytes it had then or just before, and how many of its reads failed.
#[derive(Drop)]
pub struct SystemFile {
    reader: FromRead<File>,
    size: usize,
}

impl Source for SystemFile {
    ghost left = { λ file. ⟦<FromRead<File> as Source>⟧.left file.reader };

    ghost failures = { λ file. ⟦<FromRead<File> as Source>⟧.failures file.reader };

    fn read_some(&mut self, buf: &mut [u8]) -> Result<usize, Failed> {
        self.reader.read_some(buf)
    }
}

impl SystemFile {
    /// A reader of the file at a path; `None` if it can't be opened.
    pub(crate) fn open(runtime: &HostRuntime, path: &str) -> Option<SystemFile>
        ensures { IfSome result (λ file. ⟦<SystemFile as Source>⟧.failures file ≡ 0) }
    {
        let file = File::open(runtime, path).ok()?;
        let size = size_now(&file);
        Some(SystemFile::of(file, size))
    }

    /// A reader of the regular file at a path; `None` where none is there.
    pub(crate) fn open_regular(
        runtime: &HostRuntime,
        path: &str,
    ) -> Result<Option<SystemFile>, Failed>
        ensures { IfOk result (λ reader. IfSome reader (λ file. ⟦<SystemFile as Source>⟧.failures file ≡ 0)) }
    {
        let Some(size) = regular_size(runtime, path)? else {
            return Ok(None);
        };
        match File::open(runtime, path) {
            Ok(file) => Ok(Some(SystemFile::of(file, size))),
            Err(_) => Err(Failed),
        }
    }

    /// A reader of an open file that has this many bytes, from its first byte on.
    fn of(file: File, size: usize) -> SystemFile
        ensures { ⟦<SystemFile as Source>⟧.failures result ≡ 0 }
    {
        SystemFile {
            reader: FromRead::new(file),
            size,
        }
    }

    /// How many bytes the file had when it was opened or just before; 0 if the system didn't give it.
    pub(crate) fn size(&self) -> usize {
        self.size
    }

    /// How many reads of the file failed, up to 2^64 - 1.
    pub(crate) fn failed_reads(&self) -> u64
        ensures { result ≡ ⟦<SystemFile as Source>⟧.failures self.now }
    {
        self.reader.failed_reads()
    }
}

/// The number of bytes that the system gives for a file.
fn byte_count(metadata: &Metadata) -> usize {
    usize::try_from(metadata.len()).unwrap_or(usize::MAX)
}

/// The number of bytes of a file; 0 if the system doesn't give it.
fn size_now(file: &File) -> usize {
    match file.metadata() {
        Ok(metadata) => byte_count(&metadata),
        Err(_) => 0,
    }
}

/// The number of bytes of the regular file at a path; `None` where none is there. This opens nothing, so it doesn't wait at a
/// pipe.
fn regular_size(runtime: &HostRuntime, path: &str) -> Result<Option<usize>, Failed> {
    match fs::metadata(runtime, path) {
        Ok(metadata) if metadata.is_file() => Ok(Some(byte_count(&metadata))),
        Ok(_) => Ok(None),
        Err(error) if says_absent(error.kind()) => Ok(None),
        Err(_) => Err(Failed),
    }
}

/// Whether an error of the system says that nothing is at a path: no such name, a name that no file can have, a file where
/// a folder would have to be, or links that lead back to themselves. Any other error leaves open what is there.
pub fn says_absent(kind: ErrorKind) -> bool {
    match kind {
        ErrorKind::NotFound
        | ErrorKind::NotADirectory
        | ErrorKind::FilesystemLoop
        | ErrorKind::InvalidFilename
        | ErrorKind::InvalidInput => true,
        _ => false,
    }
}
