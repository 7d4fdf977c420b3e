//! The store of the files and folders of a tree: each path is opened at most once, and each folder listed at most once.
ghost use Rattle.std.specs.Prelude.{◌≡◌, [], ◌≢◌, None, Some, IfOk, IfErr};
ghost use Rattle.kc_tree_model.specs.Keywords.{keyword_in_table};
ghost use Rattle.kc_files.specs.between.KnownFiles.{names, is_there, Grows};
ghost use Rattle.kc_files.specs.checker.FileViews.{file_of, known_of};
ghost use Rattle.kc_files.specs.checker.PatternRuns.{StopsAtFolder};
ghost use Rattle.kc_files.specs.TextViews.{items_of};
ghost use Rattle.kc_files.specs.TreeContents.{StaysKnown};

use super::file_bytes::{FileRead, read_file};
use super::files::TreeFiles;
use super::folder_names::{FolderRead, list_folder};
use super::path_table::PathTable;
use super::patterns::PatternStop;
use kc_value::{MAX_BLOCK_BYTES, Seed};
use std::alloc::{AllocError, Global};
use std::rc::Rc;

/// The store of a reading of a tree: the files that were read, the folders that were listed, and a buffer for the bytes that are
/// read at once.
#[derive(Drop)]
pub struct FileCache {
    files: PathTable<FileRead>,
    folders: PathTable<FolderRead>,
    block: [u8; MAX_BLOCK_BYTES],
}

/// The result of reading a file once more; its bytes are shared.
fn shared(read: &FileRead) -> Result<FileRead, AllocError>
    ensures { IfOk result (λ copy. file_of copy ≡ file_of read.now) }
{
    match read {
        FileRead::Missing => Ok(FileRead::Missing),
        FileRead::Unreadable => Ok(FileRead::Unreadable),
        FileRead::Whole(bytes) => Ok(FileRead::Whole(bytes.clone()?)),
        FileRead::TooLong => Ok(FileRead::TooLong),
    }
}

/// Whether a file is there, also one that can't be read, by the result of reading it.
pub(crate) fn is_there(read: &FileRead) -> bool
    ensures { result ≡ is_there (file_of read.now) }
{
    match read {
        FileRead::Missing => false,
        FileRead::Unreadable => true,
        FileRead::Whole(_) => true,
        FileRead::TooLong => true,
    }
}

impl FileCache {
    /// A store without files and folders; `seed` will hash their paths.
    pub fn new(alloc: Global, seed: Seed) -> FileCache
        ensures files { result.files ≡ [] }
        ensures folders { result.folders ≡ [] }
    {
        FileCache {
            files: PathTable::new(alloc, seed),
            folders: PathTable::new(alloc, seed),
            block: [0; MAX_BLOCK_BYTES],
        }
    }

    /// The result of reading the file of a path, which is opened only the first time.
    ///
    /// # Errors
    ///
    /// Memory runs out.
    pub fn file<F: TreeFiles>(
        &mut self,
        alloc: Global,
        files: &mut F,
        path: &[u8],
    ) -> Result<FileRead, AllocError>
        ensures same { StaysKnown (F.contents files.old) (F.contents files.new) }
        ensures grows { Grows (F.contents files.old) (F.contents files.new) (known_of self.old) (known_of self.new) }
        ensures read { IfOk result (λ read. keyword_in_table (known_of self.new).files path.now ≡ Some (file_of read)) }
        ensures once { keyword_in_table (known_of self.old).files path.now ≢ None → files.new ≡ files.old }
    {
        if let Some(read) = self.files.get(path) {
            return shared(read);
        }
        let read = read_file(alloc, files, path, &mut self.block)?;
        let kept = shared(&read)?;
        self.files.insert(path, kept)?;
        Ok(read)
    }

    /// Lists a folder, unless it was listed before; its path is empty or ends in a slash.
    ///
    /// # Errors
    ///
    /// Memory runs out.
    pub(crate) fn list<F: TreeFiles>(
        &mut self,
        alloc: Global,
        files: &mut F,
        folder: &[u8],
    ) -> Result<(), AllocError>
        ensures same { StaysKnown (F.contents files.old) (F.contents files.new) }
        ensures grows { Grows (F.contents files.old) (F.contents files.new) (known_of self.old) (known_of self.new) }
        ensures listed { IfOk result (λ _. keyword_in_table (known_of self.new).folders folder.now ≢ None) }
        ensures once { keyword_in_table (known_of self.old).folders folder.now ≢ None → files.new ≡ files.old }
    {
        if self.folders.get(folder).is_some() {
            return Ok(());
        }
        let read = list_folder(alloc, files, folder)?;
        self.folders.insert(folder, read)
    }

    /// The names in a folder that was listed.
    ///
    /// # Errors
    ///
    /// The folder has more names than may be listed, or it is there and can't be listed.
    pub(crate) fn names_in(&self, folder: &[u8]) -> Result<&[Vec<u8>], PatternStop>
        requires listed { keyword_in_table (known_of self.now).folders folder.now ≢ None }
        ensures value { IfOk result (λ ns. keyword_in_table (known_of self.now).folders folder.now ≡ Some (names (items_of ns.now))) }
        ensures stop { IfErr result (λ stop. StopsAtFolder stop (keyword_in_table (known_of self.now).folders folder.now)) }
    {
        match self.folders.get(folder) {
            Some(FolderRead::Names(names)) => Ok(names.as_slice()),
            Some(FolderRead::TooMany) => Err(PatternStop::TooMany),
            Some(FolderRead::Unlisted) => Err(PatternStop::Unlisted),
            None => unreachable!(),
        }
    }
}
