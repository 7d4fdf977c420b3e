//! The files and folders of a tree.
ghost use Rattle.std.specs.Prelude.{◌≡◌, ◌≢◌, ◌<◌, IfOk, IfErr, IfSome, option_map};
ghost use Rattle.kc_files.specs.TextViews.{texts_of};
ghost use Rattle.kc_files.specs.declared.files.FileStop.TheVariants.{Failed};
ghost use Rattle.kc_value.specs.FileContents.{OpensAs, absent};
ghost use Rattle.kc_files.specs.TreeContents.{TreeContents, StaysKnown, HasRisen, ListsAs};

use kc_value::{Seed, Source};
use std::alloc::{AllocError, Global};

/// Why a file isn't opened, or a folder isn't listed: the system fails, or memory runs out.
#[derive(Drop)]
pub enum FileStop {
    Failed,
    OutOfMemory,
}

impl From<AllocError> for FileStop {
    ghost use Rattle.std.specs.Prelude.{◌≡◌};
    ghost use Rattle.kc_files.specs.declared.files.FileStop.TheVariants.{OutOfMemory};

    ghost from_gives = { λ _ e. e ≡ OutOfMemory };

    fn from(_error: AllocError) -> FileStop {
        FileStop::OutOfMemory
    }
}

/// Opens the files of a tree and lists its folders, by their paths below its root.
pub trait TreeFiles {
    /// The reader of an open file.
    type File: Source + Drop;

    /// The known contents of each path and each folder, and how many calls failed.
    ghost contents: { Self → TreeContents };

    /// The seed by which paths and names are hashed; no result depends on it.
    fn seed(&self) -> Seed;

    /// A reader of the bytes of a regular file, also of one that a link leads to; `None` where there is none.
    ///
    /// # Errors
    ///
    /// A file that is there can't be opened, which counts as a failure, or memory runs out.
    fn open(&mut self, alloc: Global, path: &[u8]) -> Result<Option<Self::File>, FileStop>
        ensures same { StaysKnown (contents self.old) (contents self.new) }
        ensures opens { IfOk result (λ reader. OpensAs ((contents self.old).file path.now) (option_map Self.File.Source.left reader)) }
        ensures unread { IfOk result (λ reader. IfSome reader (λ file. Self.File.Source.failures file ≡ 0)) }
        ensures there { IfErr result (λ stop. stop ≡ Failed → (contents self.old).file path.now ≢ absent) }
        ensures failed { IfErr result (λ stop. stop ≡ Failed → HasRisen (contents self.old).failures (contents self.new).failures) };

    /// Closes a file, and counts its reads that failed.
    fn close(&mut self, file: Self::File)
        ensures same { StaysKnown (contents self.old) (contents self.new) }
        ensures failed { 0 < Self.File.Source.failures file → HasRisen (contents self.old).failures (contents self.new).failures };

    /// How many bytes an open file is likely to have, and 0 where that isn't known; no result depends on it.
    fn size_of(&self, _file: &Self::File) -> usize {
        0
    }

    /// The names in a folder, whose path is empty or ends in a slash; `None` where there are more than `most`. What isn't there,
    /// or is no folder, has no names.
    ///
    /// # Errors
    ///
    /// A folder that is there can't be listed, which counts as a failure, or memory runs out.
    fn names_in(
        &mut self,
        alloc: Global,
        folder: &[u8],
        most: usize,
    ) -> Result<Option<Vec<Vec<u8>>>, FileStop>
        ensures same { StaysKnown (contents self.old) (contents self.new) }
        ensures lists { IfOk result (λ names. ListsAs ((contents self.old).folder folder.now) most (option_map texts_of names)) }
        ensures failed { IfErr result (λ stop. stop ≡ Failed → HasRisen (contents self.old).failures (contents self.new).failures) };
}
