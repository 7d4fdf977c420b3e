//! The traits of a disk: reading its files, and replacing them.
ghost use Rattle.std.specs.Prelude.{◌≡◌, true, false, take, option_map, IfOk, OnOk, OnErr, IfErr, IfSome, IsErrOf};
ghost use Rattle.std.specs.Io.{WritesAtMost};
ghost use Rattle.kc_value.specs.Streams.{failures_after_read, failures_after_write};
ghost use Rattle.kc_value.specs.FileContents.{OpensAs};
ghost use Rattle.kmin_disk.specs.Contents.{IsOfKind, readable};
ghost use Rattle.kmin_disk.specs.Disks.{Disk, content_at};
ghost use Rattle.kmin_disk.specs.NewFiles.{Draft, Creates, IsTaken, Takes, IsSynced, IsSameDraft, Renames, Removes};
ghost use Rattle.kmin_disk.specs.Failures.{failures_after_open, failures_after_close, failures_after_create};
ghost use Rattle.kmin_disk.specs.declared.fault.CreateFault.TheVariants.{Taken};

use crate::fault::CreateFault;
use crate::kind::FileKind;
use kc_value::{Failed, Seed, Source};

/// A disk whose files can be read. No method changes a file.
pub trait ReadDisk {
    /// The reader of an open file.
    type File: Source + Drop;

    /// What is known of the disk: its names in folders and their histories, and how many calls failed.
    ghost disk: { Self → Disk };

    /// The seed of this run. Names of new files are made from it.
    fn seed(&self) -> Seed;

    /// The kind of the file at a path, which is not opened. A link at the end of the path isn't followed.
    fn kind(&self, path: &str) -> FileKind
        ensures { IsOfKind (content_at (disk self.now).state path.now) result };

    /// A reader of the bytes of the file at a path; `None` if it can't be opened, which counts as a failure, so that opening changes
    /// the disk. A link at the
    /// end of the path is followed.
    fn open(&mut self, path: &str) -> Option<Self::File>
        ensures opens { OpensAs (readable (content_at (disk self.old).state path.now)) (option_map Self.File.Source.left result) }
        ensures unread { IfSome result (λ file. Self.File.Source.failures file ≡ 0) }
        ensures same { (disk self.new).state ≡ (disk self.old).state }
        ensures failures { (disk self.new).failures ≡ failures_after_open (disk self.old).failures result };

    /// A reader as that of `open`; but where the file can't be opened, that counts as no failure.
    fn open_if_there(&self, path: &str) -> Option<Self::File>
        ensures opens { OpensAs (readable (content_at (disk self.now).state path.now)) (option_map Self.File.Source.left result) }
        ensures unread { IfSome result (λ file. Self.File.Source.failures file ≡ 0) };

    /// Closes a file, and counts its reads that failed.
    fn close(&mut self, file: Self::File)
        ensures same { (disk self.new).state ≡ (disk self.old).state }
        ensures failures { (disk self.new).failures ≡ failures_after_close (disk self.old).failures (Self.File.Source.failures file) };

    /// How many bytes an open file is likely to have, and 0 where that isn't known.
    fn size_of(&self, _file: &Self::File) -> usize {
        0
    }
}

/// A disk whose files can be replaced: a new file is written in the folder of the old one, and renamed over it.
///
/// No contract can show that a real disk behaves like its `disk`: that a rename is done at once or not at all, that
/// synced bytes last, and that nobody else changes the files meanwhile.
pub trait WriteDisk: ReadDisk {
    /// A new file that hasn't been renamed yet.
    type NewFile: Drop;

    /// A rename that may not last yet. It can't be dropped: `sync_folder` takes it.
    type Renamed;

    /// The paths and the bytes of a new file, as far as they are known, and whether the bytes are synced.
    ghost draft: { Self.NewFile → Draft };

    /// Makes an empty new file at `new_path`, where nothing is, that is to replace the file at `path`. Only its owner
    /// can read it yet; where no file is at `path`, it has the mode of any file that a program makes.
    fn create(&mut self, path: &str, new_path: &str) -> Result<Self::NewFile, CreateFault>
        ensures made { IfOk result (λ new. Creates (Self.disk self.old).state (Self.disk self.new).state path.now new_path.now (draft new)) }
        ensures err { OnErr result ((Self.disk self.new).state ≡ (Self.disk self.old).state) }
        ensures name_taken { IsErrOf result Taken → IsTaken (Self.disk self.old).state path.now new_path.now }
        ensures failures { (Self.disk self.new).failures ≡ failures_after_create (Self.disk self.old).failures result };

    /// Writes some bytes from the front of `bytes` at the end of a new file.
    fn write_some(&mut self, new: &mut Self::NewFile, bytes: &[u8]) -> Result<usize, Failed>
        ensures bound { WritesAtMost result bytes.now }
        ensures taken { IfOk result (λ count. Takes (draft new.old) (draft new.new) (take count bytes.now)) }
        ensures unsynced { (draft new.new).synced ≡ false }
        ensures err { OnErr result (IsSameDraft (draft new.old) (draft new.new)) }
        ensures same { (Self.disk self.new).state ≡ (Self.disk self.old).state }
        ensures failures { (Self.disk self.new).failures ≡ failures_after_write (Self.disk self.old).failures result bytes.now };

    /// Gives a new file the owner and the mode of the file that it is to replace, if there is one, and waits until its
    /// bytes last.
    fn sync(&mut self, new: &mut Self::NewFile) -> Result<(), Failed>
        ensures synced { OnOk result (IsSynced (draft new.old) (draft new.new)) }
        ensures err { OnErr result (IsSameDraft (draft new.old) (draft new.new)) }
        ensures same { (Self.disk self.new).state ≡ (Self.disk self.old).state }
        ensures failures { (Self.disk self.new).failures ≡ failures_after_read (Self.disk self.old).failures result };

    /// Renames a new file over the one that it is to replace. Where that fails the new file is returned.
    fn rename(&mut self, new: Self::NewFile) -> Result<Self::Renamed, Self::NewFile>
        requires synced { (draft new).synced ≡ true }
        ensures renamed { OnOk result (Renames (Self.disk self.old).state (Self.disk self.new).state (draft new)) }
        ensures returned { IfErr result (λ back. draft back ≡ draft new) }
        ensures err { OnErr result ((Self.disk self.new).state ≡ (Self.disk self.old).state) }
        ensures failures { (Self.disk self.new).failures ≡ failures_after_read (Self.disk self.old).failures result };

    /// Waits until a rename lasts: syncs the folder in which it was done.
    fn sync_folder(&mut self, renamed: Self::Renamed) -> Result<(), Failed>
        ensures same { (Self.disk self.new).state ≡ (Self.disk self.old).state }
        ensures failures { (Self.disk self.new).failures ≡ failures_after_read (Self.disk self.old).failures result };

    /// Removes a new file.
    fn remove(&mut self, new: Self::NewFile) -> Result<(), Failed>
        ensures removed { OnOk result (Removes (Self.disk self.old).state (Self.disk self.new).state (draft new)) }
        ensures err { OnErr result ((Self.disk self.new).state ≡ (Self.disk self.old).state) }
        ensures failures { (Self.disk self.new).failures ≡ failures_after_read (Self.disk self.old).failures result };
}
