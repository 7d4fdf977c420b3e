//! The files of the system.
ghost use Rattle.std.specs.Prelude.{◌≡◌, ◌-◌, ◌^◌, min, None};
ghost use Rattle.kc_value.specs.FileContents.{unknown};

use kc_value::{Failed, Seed};
use kmin_disk::{ReadDisk, SystemDisk, SystemFile, says_absent};
use kmin_run::{FileStop, Files};
use std::alloc::{AllocError, Global};
use std::env::VarError;
use std::fs::DirEntry;
use std::io::ErrorKind;
use std::random::RandomSource;
use std::{env, fs, io};

/// The files and the environment of the system, of which contracts know nothing but how many calls on files failed. Paths
/// and names are hashed by a seed of this run's own.
#[derive(Drop)]
pub(crate) struct SystemFiles<'a> {
    runtime: &'a HostRuntime,
    disk: SystemDisk<'a>,
}

impl<'a> SystemFiles<'a> {
    /// The files and the environment of the system, with a new seed and no failed call so far.
    pub(crate) fn new(runtime: &'a HostRuntime) -> SystemFiles<'a>
        ensures { ⟦<SystemFiles<'a> as Files>⟧.failures result ≡ 0 }
    {
        SystemFiles {
            runtime,
            disk: SystemDisk::new(runtime, new_seed(runtime)),
        }
    }
}

/// A seed of random bytes, or the fixed seed if the system gives none.
pub(crate) fn new_seed(runtime: &HostRuntime) -> Seed {
    let mut first = [0; 8];
    let mut second = [0; 8];
    if runtime.fill_bytes(&mut first).is_err() || runtime.fill_bytes(&mut second).is_err() {
        return Seed::fixed();
    }
    Seed::of(u64::from_le_bytes(first), u64::from_le_bytes(second))
}

/// The stop for an error of the system while a folder is listed.
fn stop_of(kind: ErrorKind) -> FileStop {
    if kind == ErrorKind::OutOfMemory {
        return FileStop::OutOfMemory;
    }
    FileStop::Failed
}

/// The name of an entry of a folder; `None` for one that isn't UTF-8.
fn name_of(alloc: Global, entry: io::Result<DirEntry>) -> Result<Option<Vec<u8>>, FileStop> {
    match entry {
        Ok(entry) => Ok(Some(Vec::from_slice(alloc, entry.file_name().as_bytes())?)),
        Err(error) if error.kind() == ErrorKind::InvalidFilename => Ok(None),
        Err(error) => Err(stop_of(error.kind())),
    }
}

/// The names in a folder that are UTF-8; `None` if there are more than `most`. What isn't there has no names.
fn names_listed(
    runtime: &HostRuntime,
    alloc: Global,
    folder: &str,
    most: usize,
) -> Result<Option<Vec<Vec<u8>>>, FileStop> {
    let mut names = Vec::new(alloc);
    let entries = match fs::read_dir(runtime, folder) {
        Ok(entries) => entries,
        Err(error) if says_absent(error.kind()) => return Ok(Some(names)),
        Err(error) => return Err(stop_of(error.kind())),
    };
    for entry in entries {
        let Some(name) = name_of(alloc, entry)? else {
            continue;
        };
        if names.len() == most {
            return Ok(None);
        }
        if names.push(name).is_err() {
            return Err(FileStop::OutOfMemory);
        }
    }
    Ok(Some(names))
}

impl<'a> Files for SystemFiles<'a> {
    type File = SystemFile;

    ghost surroundings = { λ _. record { content = λ _. unknown; regular = λ _. unknown; names = λ _. None; variable = λ _. None } };

    // the disk's own count, which doesn't pass this limit either
    ghost failures = { λ files. min (⟦<SystemDisk<'a> as ReadDisk>⟧.disk files.disk).failures (2 ^ 64 - 1) };

    fn seed(&self) -> Seed {
        self.disk.seed()
    }

    fn reader_for(&mut self, path: &str) -> Option<SystemFile> {
        self.disk.open(path)
    }

    fn reader_if_there(&mut self, path: &str) -> Option<SystemFile> {
        self.disk.open_if_there(path)
    }

    fn close(&mut self, file: SystemFile) {
        self.disk.close(file);
    }

    fn regular_reader_for(&mut self, path: &str) -> Result<Option<SystemFile>, Failed> {
        self.disk.open_regular(path)
    }

    fn names_in(
        &mut self,
        alloc: Global,
        folder: &str,
        most: usize,
    ) -> Result<Option<Vec<Vec<u8>>>, FileStop> {
        match names_listed(self.runtime, alloc, folder, most) {
            Err(FileStop::Failed) => {
                let _ = self.disk.count_failure();
                Err(FileStop::Failed)
            }
            listed => listed,
        }
    }

    fn variable(&mut self, _alloc: Global, name: &str) -> Result<Option<String>, AllocError> {
        match env::var(self.runtime, name) {
            Ok(value) => Ok(Some(value)),
            Err(VarError::OutOfMemory) => Err(AllocError),
            Err(VarError::NotPresent | VarError::NotUnicode) => Ok(None),
        }
    }

    fn size_of(&self, file: &SystemFile) -> usize {
        self.disk.size_of(file)
    }
}
