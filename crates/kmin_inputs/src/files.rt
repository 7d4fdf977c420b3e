//! The files that a job names, the folders of its tree, and the environment.
ghost use Rattle.std.specs.Prelude.{◌≡◌, ◌≢◌, ◌<◌, ◌≤◌, ℕ, IfOk, IfErr, OnOk, OnErr, IfSome, IfNone, OnSome, option_map, string_bytes};
ghost use Rattle.kc_value.specs.FileContents.{OpensAs, absent};
ghost use Rattle.kc_files.specs.TextViews.{texts_of};
ghost use Rattle.kc_files.specs.declared.files.FileStop.TheVariants.{Failed as ListFailed};
ghost use Rattle.kc_files.specs.TreeContents.{ListsAs, HasRisen};
ghost use Rattle.kmin_inputs.specs.FileContents.{Surroundings, MatchVariable};

use kc_files::FileStop;
use kc_value::{Failed, Seed, Source};
use std::alloc::{AllocError, Global};

/// The surroundings of a job that can be read: files by their paths, folders, and variables of the environment.
pub trait Files {
    /// The reader of an open file.
    type File: Source + Drop;

    /// All that is known of the files, the folders and the environment.
    ghost surroundings: { Self → Surroundings };

    /// How many calls of `reader_for` gave no reader, how many of `regular_reader_for` and `names_in` failed, and how many reads of
    /// files failed that were closed by `close`, up to 2^64 - 1.
    ghost failures: { Self → ℕ };

    /// The seed by which the paths and names of a tree are hashed; it has no influence on any result.
    fn seed(&self) -> Seed;

    /// A reader of the bytes of the file at a path; `None` if it can't be opened, which counts as a failure.
    fn reader_for(&mut self, path: &str) -> Option<Self::File>
        ensures same { surroundings self.new ≡ surroundings self.old }
        ensures opens { OpensAs ((surroundings self.old).content path.now) (option_map Self.File.Source.left result) }
        ensures unread { IfSome result (λ reader. Self.File.Source.failures reader ≡ 0) }
        ensures rising { failures self.old ≤ failures self.new }
        ensures failed { IfNone result (HasRisen (failures self.old) (failures self.new)) }
        ensures unfailed { OnSome result (failures self.new ≡ failures self.old) };

    /// A reader as that of `reader_for`; but where the file can't be opened, that counts as no failure.
    fn reader_if_there(&mut self, path: &str) -> Option<Self::File>
        ensures same { surroundings self.new ≡ surroundings self.old }
        ensures opens { OpensAs ((surroundings self.old).content path.now) (option_map Self.File.Source.left result) }
        ensures unread { IfSome result (λ reader. Self.File.Source.failures reader ≡ 0) }
        ensures uncounted { failures self.new ≡ failures self.old };

    /// Closes a file, and counts its reads that failed.
    fn close(&mut self, file: Self::File)
        ensures same { surroundings self.new ≡ surroundings self.old }
        ensures rising { failures self.old ≤ failures self.new }
        ensures failed { 0 < Self.File.Source.failures file → HasRisen (failures self.old) (failures self.new) }
        ensures unfailed { Self.File.Source.failures file ≡ 0 → failures self.new ≡ failures self.old };

    /// A reader of the bytes of the regular file at a path, or at the end of its links; `None` where nothing is there, and
    /// for a folder, a pipe or a device.
    ///
    /// # Errors
    ///
    /// A file is there, and can't be opened, which counts as a failure.
    fn regular_reader_for(&mut self, path: &str) -> Result<Option<Self::File>, Failed>
        ensures same { surroundings self.new ≡ surroundings self.old }
        ensures opens { IfOk result (λ reader. OpensAs ((surroundings self.old).regular path.now) (option_map Self.File.Source.left reader)) }
        ensures unread { IfOk result (λ reader. IfSome reader (λ file. Self.File.Source.failures file ≡ 0)) }
        ensures there { OnErr result ((surroundings self.old).regular path.now ≢ absent) }
        ensures rising { failures self.old ≤ failures self.new }
        ensures failed { OnErr result (HasRisen (failures self.old) (failures self.new)) }
        ensures unfailed { OnOk result (failures self.new ≡ failures self.old) };

    /// The names in a folder in any order, without those that aren't UTF-8; `None` if there are more than `most`. What
    /// isn't there, or is no folder, has no names.
    ///
    /// # Errors
    ///
    /// A folder is there, and can't be listed, which counts as a failure; or memory ran out.
    fn names_in(
        &mut self,
        alloc: Global,
        folder: &str,
        most: usize,
    ) -> Result<Option<Vec<Vec<u8>>>, FileStop>
        ensures same { surroundings self.new ≡ surroundings self.old }
        ensures lists { IfOk result (λ names. ListsAs ((surroundings self.old).names folder.now) most (option_map texts_of names)) }
        ensures rising { failures self.old ≤ failures self.new }
        ensures failed { IfErr result (λ stop. stop ≡ ListFailed → HasRisen (failures self.old) (failures self.new)) }
        ensures unfailed { OnOk result (failures self.new ≡ failures self.old) };

    /// The value of a variable of the environment; `None` if it isn't set, or its value isn't UTF-8.
    ///
    /// # Errors
    ///
    /// Memory ran out.
    fn variable(&mut self, alloc: Global, name: &str) -> Result<Option<String>, AllocError>
        ensures same { surroundings self.new ≡ surroundings self.old }
        ensures value { IfOk result (λ value. MatchVariable ((surroundings self.old).variable name.now) (option_map string_bytes value)) }
        ensures uncounted { failures self.new ≡ failures self.old };

    /// The likely number of bytes of an open file, 0 if it isn't known; it has no influence on any result.
    fn size_of(&self, _file: &Self::File) -> usize {
        0
    }
}
