//! A new file on the disk of the system, from its creation to its renaming.
ghost use Rattle.std.specs.Prelude.{◌≡◌, Some, false, true, string_bytes, IfOk, IfErr, OnOk};
ghost use Rattle.std.specs.Io.{WritesAtMost};
ghost use Rattle.kmin_disk.specs.SystemDisks.{HasRights, HasPaths, is_finished, folder_of};

use crate::written_file::{Rights, WrittenFile};
use std::fs::{File, Metadata};
use std::io::ErrorKind;
use std::path::Path;
use std::{fs, io};

/// A new file on the disk of the system, and the owner, the group and the mode of the file that it is to replace, if there is
/// one.
#[derive(Drop)]
pub struct SystemNewFile {
    file: WrittenFile,
    path: String,
    target: String,
    rights: Option<Rights>,
}

/// A rename on the disk of the system whose folder isn't synced yet.
pub struct SystemRename {
    target: String,
}

/// A folder of the system that was synced.
#[derive(Drop)]
struct SyncedFolder<'a> {
    path: &'a str,
}

/// The metadata of the regular file at a path; `None` if there is no file, and an error for any other kind of file.
fn regular_file(runtime: &HostRuntime, path: &str) -> io::Result<Option<Metadata>> {
    match fs::symlink_metadata(runtime, path) {
        Ok(old) if old.is_file() => Ok(Some(old)),
        Ok(_) => Err(io::Error::from(ErrorKind::InvalidInput)),
        Err(fault) if fault.kind() == ErrorKind::NotFound => Ok(None),
        Err(fault) => Err(fault),
    }
}

/// Gives a file an owner, a group and a mode.
fn give_rights(file: &mut WrittenFile, rights: Rights) -> io::Result<()>
    ensures { OnOk result (HasRights file.new rights) }
{
    if file.owner()? != rights.owner {
        file.set_owner(rights.owner)?;
    }
    file.set_mode(rights.mode)
}

impl SystemNewFile {
    /// Makes an empty new file. If it is to replace another file, only this user can read it yet.
    pub(crate) fn create(
        runtime: &HostRuntime,
        path: &str,
        new_path: &str,
    ) -> io::Result<SystemNewFile>
        ensures paths { IfOk result (λ new. HasPaths new new_path.now path.now) }
        ensures unfinished { IfOk result (λ new. is_finished new ≡ false) }
    {
        let rights = regular_file(runtime, path)?.map(|old| Rights::of(&old));
        let mode = if rights.is_some() { 0o600 } else { 0o666 };
        let target = String::from_str(runtime.alloc(), path)?;
        let own = String::from_str(runtime.alloc(), new_path)?;
        Ok(SystemNewFile {
            file: WrittenFile::create(runtime, new_path, mode)?,
            path: own,
            target,
            rights,
        })
    }

    /// Writes some bytes from the front of `bytes` at the end of the file.
    pub(crate) fn write(&mut self, bytes: &[u8]) -> io::Result<usize>
        ensures bound { WritesAtMost result bytes.now }
        ensures paths { HasPaths self.new (string_bytes self.old.path) (string_bytes self.old.target) }
        ensures unfinished { is_finished self.new ≡ false }
    {
        self.file.write(bytes)
    }

    /// Gives the file the owner, the group and the mode of the file that it is to replace, if there is one, and waits until
    /// all of it lasts.
    pub(crate) fn finish(&mut self) -> io::Result<()>
        ensures finished { OnOk result (is_finished self.new ≡ true) }
        ensures paths { HasPaths self.new (string_bytes self.old.path) (string_bytes self.old.target) }
    {
        if let Some(rights) = self.rights {
            give_rights(&mut self.file, rights)?;
        }
        self.file.sync_all()
    }

    /// Renames the file over the one that it is to replace. Where that fails it is returned.
    pub(crate) fn rename(self, runtime: &HostRuntime) -> Result<SystemRename, SystemNewFile>
        ensures renamed { IfOk result (λ renamed. string_bytes renamed.target ≡ string_bytes self.target) }
        ensures returned { IfErr result (λ back. back ≡ self) }
    {
        match fs::rename(runtime, &self.path, &self.target) {
            Ok(()) => Ok(SystemRename {
                target: self.target,
            }),
            Err(_) => Err(self),
        }
    }

    /// Removes the file.
    pub(crate) fn remove(self, runtime: &HostRuntime) -> io::Result<()> {
        fs::remove_file(runtime, &self.path)
    }
}

impl SystemRename {
    /// Waits until the rename lasts: syncs the folder in which it was done.
    pub(crate) fn sync_folder(self, runtime: &HostRuntime) -> io::Result<()> {
        let done = match self.synced_folder(runtime) {
            Ok(_) => Ok(()),
            Err(fault) => Err(fault),
        };
        let SystemRename { target } = self;
        drop(target);
        done
    }

    /// Syncs the folder in which the rename was done.
    fn synced_folder(&self, runtime: &HostRuntime) -> io::Result<SyncedFolder<'_>>
        ensures own { IfOk result (λ folder. folder.path.now ≡ folder_of (string_bytes self.now.target)) }
    {
        sync_folder(runtime, folder_of(&self.target))
    }
}

/// The folder in which the last name of a path is.
fn folder_of(path: &str) -> &str
    ensures { result.now ≡ folder_of path.now }
{
    let folder = match Path::new(path).parent() {
        Some(folder) => folder.as_str(),
        None => "",
    };
    if folder.is_empty() { "." } else { folder }
}

/// Syncs the folder at a path.
fn sync_folder<'a>(runtime: &HostRuntime, path: &'a str) -> io::Result<SyncedFolder<'a>>
    ensures { IfOk result (λ folder. folder.path.now ≡ path.now) }
{
    File::open(runtime, path)?.sync_all()?;
    Ok(SyncedFolder { path })
}
