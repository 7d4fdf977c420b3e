//! Replacing a file, whole or not at all.
ghost use Rattle.std.specs.Prelude.{◌≡◌, ◌≢◌, true, string_bytes, IfOk, OnOk, IfErr, OnErr, IsErrOf, Some, Err};
ghost use Rattle.kc_value.specs.Streams.{failures_after_read};
ghost use Rattle.kmin_disk.specs.Contents.{IsOfKind, special};
ghost use Rattle.kmin_disk.specs.Disks.{Replaces, content_at};
ghost use Rattle.kmin_disk.specs.NewFiles.{Creates, IsNewPath, IsSameDraft, Takes};
ghost use Rattle.kmin_disk.specs.Failures.{failures_after_replace};
ghost use Rattle.kmin_disk.specs.Replacements.{FaultLeaves, FillsAndRenames, HasTakenName, IsBeforeNewFile};

use crate::disk::WriteDisk;
use crate::fault::{CreateFault, ReplaceFault};
use crate::kind::FileKind;
use crate::new_path::new_path;
use kc_value::{Failed, MAX_NEW_NAMES};
use std::alloc::Global;

/// Replaces the file at a path by a new file of these bytes, whole or not at all. Where no file is, one is made.
///
/// The new file is written and synced in the same folder, then renamed over the old one, and the folder is synced. It
/// replaces a file of equal bytes too. A link, a folder, a pipe or a device at the end of the path is refused.
pub fn replace<D: WriteDisk>(
    alloc: Global,
    disk: &mut D,
    path: &str,
    bytes: &[u8],
) -> Result<(), ReplaceFault>
    // The old bytes are at the path up to some moment, and from then on the new ones.
    ensures ok { OnOk result (Replaces (D.disk disk.old).state (D.disk disk.new).state path.now bytes.now) }
    ensures err { IfErr result (FaultLeaves (D.disk disk.old).state (D.disk disk.new).state path.now bytes.now) }

    // No call failed where the result is `Ok`, and one or two did at a fault of the disk.
    ensures failures { (D.disk disk.new).failures ≡ failures_after_replace (D.disk disk.old).failures result }

    ensures not_regular { IsErrOf result ReplaceFault.NotRegular → IsOfKind (content_at (D.disk disk.old).state path.now) FileKind.NotRegular }
    ensures refused { content_at (D.disk disk.old).state path.now ≡ Some special → IsErrOf result ReplaceFault.NotRegular }
    ensures names_taken { IsErrOf result ReplaceFault.NamesTaken → HasTakenName (D.disk disk.old).state path.now }
{
    if disk.kind(path) == FileKind::NotRegular {
        return Err(ReplaceFault::NotRegular);
    }
    let (new, new_path) = create_beside(alloc, disk, path)?;
    match fill_and_rename(disk, new, bytes) {
        Ok(renamed) => match disk.sync_folder(renamed) {
            Ok(()) => Ok(()),
            Err(Failed) => Err(ReplaceFault::FolderNotSynced),
        },
        Err(new) => match disk.remove(new) {
            Ok(()) => Err(ReplaceFault::Unchanged),
            Err(Failed) => Err(ReplaceFault::Left(new_path)),
        },
    }
}

/// Makes a new file in the folder of a path, and returns it with its own path.
fn create_beside<D: WriteDisk>(
    alloc: Global,
    disk: &mut D,
    path: &str,
) -> Result<(D::NewFile, String), ReplaceFault>
    ensures made { IfOk result (λ new. Creates (D.disk disk.old).state (D.disk disk.new).state path.now (string_bytes new.1) (D.draft new.0)) }
    ensures path { IfOk result (λ new. IsNewPath path.now (string_bytes new.1)) }
    ensures err { OnErr result ((D.disk disk.new).state ≡ (D.disk disk.old).state) }
    ensures fault { IfErr result IsBeforeNewFile }
    ensures failures { (D.disk disk.new).failures ≡ failures_after_replace (D.disk disk.old).failures result }
    ensures names_taken { IsErrOf result ReplaceFault.NamesTaken → HasTakenName (D.disk disk.old).state path.now }
{
    for attempt in 0..MAX_NEW_NAMES {
        let Ok(new_path) = new_path(alloc, disk.seed(), path, attempt) else {
            return Err(ReplaceFault::OutOfMemory);
        };
        match disk.create(path, &new_path) {
            Ok(new) => return Ok((new, new_path)),
            Err(CreateFault::Taken) => {}
            Err(CreateFault::Failed) => return Err(ReplaceFault::Unchanged),
        }
    }
    Err(ReplaceFault::NamesTaken)
}

/// Writes all bytes to a new file, and syncs it.
fn fill<D: WriteDisk>(disk: &mut D, new: &mut D::NewFile, bytes: &[u8]) -> Result<(), Failed>
    ensures taken { OnOk result (Takes (D.draft new.old) (D.draft new.new) bytes.now) }
    ensures synced { OnOk result ((D.draft new.new).synced ≡ true) }
    ensures err { OnErr result (IsSameDraft (D.draft new.old) (D.draft new.new)) }
    ensures same { (D.disk disk.new).state ≡ (D.disk disk.old).state }
    ensures failures { (D.disk disk.new).failures ≡ failures_after_read (D.disk disk.old).failures result }
{
    write_all(disk, new, bytes)?;
    disk.sync(new)
}

/// Writes all bytes to a new file. A write that takes none is a failure.
fn write_all<D: WriteDisk>(disk: &mut D, new: &mut D::NewFile, bytes: &[u8]) -> Result<(), Failed>
    ensures taken { OnOk result (Takes (D.draft new.old) (D.draft new.new) bytes.now) }
    ensures err { OnErr result (IsSameDraft (D.draft new.old) (D.draft new.new)) }
    ensures same { (D.disk disk.new).state ≡ (D.disk disk.old).state }
    ensures failures { (D.disk disk.new).failures ≡ failures_after_read (D.disk disk.old).failures result }
{
    let mut written = 0;
    while written < bytes.len() {
        match disk.write_some(new, &bytes[written..]) {
            Ok(0) => return Err(Failed),
            Ok(count) => written += count,
            Err(fault) => return Err(fault),
        }
    }
    Ok(())
}

/// Writes all bytes to a new file, syncs it and renames it. Where a call fails the new file is returned.
fn fill_and_rename<D: WriteDisk>(
    disk: &mut D,
    mut new: D::NewFile,
    bytes: &[u8],
) -> Result<D::Renamed, D::NewFile>
    ensures renamed { OnOk result (FillsAndRenames (D.disk disk.old).state (D.disk disk.new).state (D.draft new) bytes.now) }
    ensures returned { IfErr result (λ back. IsSameDraft (D.draft new) (D.draft back)) }
    ensures err { OnErr result ((D.disk disk.new).state ≡ (D.disk disk.old).state) }
    ensures failures { (D.disk disk.new).failures ≡ failures_after_read (D.disk disk.old).failures result }
{
    match fill(disk, &mut new, bytes) {
        Ok(()) => disk.rename(new),
        Err(Failed) => Err(new),
    }
}
