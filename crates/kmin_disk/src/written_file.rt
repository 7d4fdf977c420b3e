//! A file of the system that is being written, and what is known of it by the calls that were made on it.
ghost use Rattle.std.specs.Prelude.{◌≡◌, Some, None, false, true, IfOk, OnOk};
ghost use Rattle.std.specs.Io.{WritesAtMost};
ghost use Rattle.std.specs.Fs.{metadata_mode};

use std::fs::{File, Metadata, OpenOptions, Permissions};
use std::io;
use std::io::Write;
use std::os::unix::fs::{MetadataExt, OpenOptionsExt, PermissionsExt, fchown};

/// The owner and the group of a file.
#[derive(Clone, Copy, PartialEq, Eq)]
pub(crate) struct Owner {
    pub(crate) user: u32,
    pub(crate) group: u32,
}

/// The owner, the group and the mode of a file.
#[derive(Clone, Copy)]
pub(crate) struct Rights {
    pub(crate) owner: Owner,
    pub(crate) mode: u32,
}

/// A file of the system that is being written. Its owner, group and mode are known where a call read or set them, and it is
/// synced where nothing was written or set after the last sync.
#[derive(Drop)]
pub(crate) struct WrittenFile {
    file: File,
    owner: Option<Owner>,
    mode: Option<u32>,
    synced: bool,
}

/// The owner and the group that the system gives of a file.
fn owner_of(metadata: &Metadata) -> Owner {
    Owner {
        user: metadata.uid(),
        group: metadata.gid(),
    }
}

impl Rights {
    /// The owner, the group and the mode that the system gives of a file.
    pub(crate) fn of(metadata: &Metadata) -> Rights
        ensures mode { result.mode ≡ metadata_mode metadata.now }
    {
        Rights {
            owner: owner_of(metadata),
            mode: metadata.mode(),
        }
    }
}

/// Each method but `create` makes one call of the system on the file, and notes what is known after it. That the call is made
/// can't be stated; `tests/check_replacements` shows it.
impl WrittenFile {
    /// Makes an empty file of this mode, less the bits that the system takes off, at a path where nothing is.
    pub(crate) fn create(runtime: &HostRuntime, path: &str, mode: u32) -> io::Result<WrittenFile>
        ensures unsynced { IfOk result (λ file. file.synced ≡ false) }
    {
        let file = OpenOptions::new()
            .write(true)
            .create_new(true)
            .mode(mode)
            .open(runtime, path)?;
        Ok(WrittenFile {
            file,
            owner: None,
            mode: None,
            synced: false,
        })
    }

    /// Writes some bytes from the front of `bytes` at the end.
    pub(crate) fn write(&mut self, bytes: &[u8]) -> io::Result<usize>
        ensures bound { WritesAtMost result bytes.now }
        ensures unsynced { self.new.synced ≡ false }
    {
        self.synced = false;
        self.file.write(bytes)
    }

    /// The owner and the group.
    pub(crate) fn owner(&mut self) -> io::Result<Owner>
        ensures known { IfOk result (λ owner. self.new.owner ≡ Some owner) }
    {
        let owner = owner_of(&self.file.metadata()?);
        self.owner = Some(owner);
        Ok(owner)
    }

    /// Gives the file an owner and a group. The system may take bits off the mode.
    pub(crate) fn set_owner(&mut self, owner: Owner) -> io::Result<()>
        ensures known { OnOk result (self.new.owner ≡ Some owner) }
        ensures mode { self.new.mode ≡ None }
        ensures unsynced { self.new.synced ≡ false }
    {
        self.owner = None;
        self.mode = None;
        self.synced = false;
        fchown(&self.file, Some(owner.user), Some(owner.group))?;
        self.owner = Some(owner);
        Ok(())
    }

    /// Gives the file a mode.
    pub(crate) fn set_mode(&mut self, mode: u32) -> io::Result<()>
        ensures known { OnOk result (self.new.mode ≡ Some mode) }
        ensures owner { self.new.owner ≡ self.old.owner }
        ensures unsynced { self.new.synced ≡ false }
    {
        self.mode = None;
        self.synced = false;
        self.file.set_permissions(Permissions::from_mode(mode))?;
        self.mode = Some(mode);
        Ok(())
    }

    /// Waits until all that was written and set lasts.
    pub(crate) fn sync_all(&mut self) -> io::Result<()>
        ensures synced { OnOk result (self.new.synced ≡ true) }
        ensures owner { self.new.owner ≡ self.old.owner }
        ensures mode { self.new.mode ≡ self.old.mode }
    {
        self.file.sync_all()?;
        self.synced = true;
        Ok(())
    }
}
