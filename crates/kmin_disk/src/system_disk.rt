//! The disk of the system.
ghost use Rattle.std.specs.Prelude.{◌≡◌, IfOk, IfSome};
ghost use Rattle.kc_value.specs.Streams.{failures_after_read, one_failure_more};
ghost use Rattle.kmin_disk.specs.SystemDisks.{unknown_state, system_draft};

use crate::disk::{ReadDisk, WriteDisk};
use crate::fault::CreateFault;
use crate::kind::FileKind;
use crate::system_file::SystemFile;
use crate::system_new_file::{SystemNewFile, SystemRename};
use kc_value::{Failed, Seed, Source};
use std::fs;
use std::io::ErrorKind;

/// The disk of the system. Contracts know nothing of its files but what the calls on a new one show.
#[derive(Drop)]
pub struct SystemDisk<'a> {
    runtime: &'a HostRuntime,
    seed: Seed,
    failed: u64,
}

impl<'a> SystemDisk<'a> {
    /// The disk of the system, with no failed call so far. The names of its new files depend on `seed`.
    pub fn new(runtime: &'a HostRuntime, seed: Seed) -> SystemDisk<'a>
        ensures { (⟦<SystemDisk<'a> as ReadDisk>⟧.disk result).failures ≡ 0 }
    {
        SystemDisk {
            runtime,
            seed,
            failed: 0,
        }
    }

    /// Counts a failed call.
    pub fn count_failure(&mut self) -> Failed
        ensures { (⟦<SystemDisk<'a> as ReadDisk>⟧.disk self.new).failures ≡ one_failure_more (⟦<SystemDisk<'a> as ReadDisk>⟧.disk self.old).failures }
    {
        self.failed = self.failed.saturating_add(1);
        Failed
    }

    /// A reader of the regular file at a path, or at the end of its links; `None` where none is there. This opens nothing else, so
    /// it doesn't wait at a pipe.
    ///
    /// # Errors
    ///
    /// A file is there, and can't be opened, which counts as a failure.
    pub fn open_regular(&mut self, path: &str) -> Result<Option<SystemFile>, Failed>
        ensures unread { IfOk result (λ reader. IfSome reader (λ file. ⟦<SystemFile as Source>⟧.failures file ≡ 0)) }
        ensures failures { (⟦<SystemDisk<'a> as ReadDisk>⟧.disk self.new).failures ≡ failures_after_read (⟦<SystemDisk<'a> as ReadDisk>⟧.disk self.old).failures result }
    {
        match SystemFile::open_regular(self.runtime, path) {
            Ok(file) => Ok(file),
            Err(_) => Err(self.count_failure()),
        }
    }
}

impl ReadDisk for SystemDisk<'_> {
    type File = SystemFile;

    ghost disk = { λ disk. record { state = unknown_state; failures = disk.failed } };

    fn seed(&self) -> Seed {
        self.seed
    }

    fn kind(&self, path: &str) -> FileKind {
        match fs::symlink_metadata(self.runtime, path) {
            Ok(metadata) if metadata.is_file() => FileKind::Regular,
            Ok(_) => FileKind::NotRegular,
            Err(_) => FileKind::Missing,
        }
    }

    fn open(&mut self, path: &str) -> Option<SystemFile> {
        let file = SystemFile::open(self.runtime, path);
        if file.is_none() {
            let _ = self.count_failure();
        }
        file
    }

    fn open_if_there(&self, path: &str) -> Option<SystemFile> {
        SystemFile::open(self.runtime, path)
    }

    fn close(&mut self, file: SystemFile) {
        self.failed = self.failed.saturating_add(file.failed_reads());
    }

    fn size_of(&self, file: &SystemFile) -> usize {
        file.size()
    }
}

impl WriteDisk for SystemDisk<'_> {
    type NewFile = SystemNewFile;

    type Renamed = SystemRename;

    ghost draft = { system_draft };

    fn create(&mut self, path: &str, new_path: &str) -> Result<SystemNewFile, CreateFault> {
        if new_path == path {
            return Err(CreateFault::Taken);
        }
        match SystemNewFile::create(self.runtime, path, new_path) {
            Ok(new) => Ok(new),
            Err(fault) if fault.kind() == ErrorKind::AlreadyExists => Err(CreateFault::Taken),
            Err(_) => {
                let _ = self.count_failure();
                Err(CreateFault::Failed)
            }
        }
    }

    fn write_some(&mut self, new: &mut SystemNewFile, bytes: &[u8]) -> Result<usize, Failed> {
        match new.write(bytes) {
            Ok(count) => {
                if count == 0 && !bytes.is_empty() {
                    let _ = self.count_failure();
                }
                Ok(count)
            }
            Err(_) => Err(self.count_failure()),
        }
    }

    fn sync(&mut self, new: &mut SystemNewFile) -> Result<(), Failed> {
        match new.finish() {
            Ok(()) => Ok(()),
            Err(_) => Err(self.count_failure()),
        }
    }

    fn rename(&mut self, new: SystemNewFile) -> Result<SystemRename, SystemNewFile> {
        match new.rename(self.runtime) {
            Ok(renamed) => Ok(renamed),
            Err(back) => {
                let _ = self.count_failure();
                Err(back)
            }
        }
    }

    fn sync_folder(&mut self, renamed: SystemRename) -> Result<(), Failed> {
        match renamed.sync_folder(self.runtime) {
            Ok(()) => Ok(()),
            Err(_) => Err(self.count_failure()),
        }
    }

    fn remove(&mut self, new: SystemNewFile) -> Result<(), Failed> {
        match new.remove(self.runtime) {
            Ok(()) => Ok(()),
            Err(_) => Err(self.count_failure()),
        }
    }
}
