//! The names in a folder.
ghost use Rattle.std.specs.Prelude.{◌≡◌, IfOk};
ghost use Rattle.kc_files.specs.between.KnownFiles.{MatchFolder};
ghost use Rattle.kc_files.specs.checker.FileViews.{folder_of};
ghost use Rattle.kc_files.specs.TreeContents.{StaysKnown};

use super::files::{FileStop, TreeFiles};
use kc_value::MAX_LISTED_NAMES;
use std::alloc::{AllocError, Global};

/// The result of listing a folder: it has these names, or more than may be listed, or it is there and can't be listed.
#[derive(Drop)]
pub(crate) enum FolderRead {
    Names(Vec<Vec<u8>>),
    TooMany,
    Unlisted,
}

/// Lists a folder, whose path is empty or ends in a slash.
///
/// # Errors
///
/// Memory runs out.
pub(crate) fn list_folder<F: TreeFiles>(
    alloc: Global,
    files: &mut F,
    folder: &[u8],
) -> Result<FolderRead, AllocError>
    ensures same { StaysKnown (F.contents files.old) (F.contents files.new) }
    ensures matched { IfOk result (λ read. MatchFolder ((F.contents files.old).folder folder.now) (F.contents files.old).failures (F.contents files.new).failures (folder_of read)) }
{
    match files.names_in(alloc, folder, MAX_LISTED_NAMES) {
        Ok(Some(names)) => Ok(FolderRead::Names(names)),
        Ok(None) => Ok(FolderRead::TooMany),
        Err(FileStop::Failed) => Ok(FolderRead::Unlisted),
        Err(FileStop::OutOfMemory) => Err(AllocError),
    }
}
