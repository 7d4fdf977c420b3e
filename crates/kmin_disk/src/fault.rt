//! Faults of replacing a file.
use thiserror::Error;

/// Why no new file was made.
#[derive(Clone, Copy, Debug, PartialEq, Eq, Error)]
pub enum CreateFault {
    /// The name of the new file is in use. This is no failure of the disk.
    #[error("Taken")]
    Taken,
    /// The call to make the new file failed.
    #[error("Failed")]
    Failed,
}

/// Why a file wasn't replaced, or why the replacement may not last a power cut.
#[derive(Debug, Drop, PartialEq, Eq, Error)]
pub enum ReplaceFault {
    /// The path leads to a link, a folder, a pipe or a device. Nothing changed.
    #[error("NotRegular")]
    NotRegular,
    /// A call failed. Nothing changed: a new file that had been created is removed.
    #[error("Write")]
    Unchanged,
    /// Each of the names that were tried for a new file is in use. Nothing changed.
    #[error("Write")]
    NamesTaken,
    /// A call failed, and the new file, at this path, couldn't be removed. Nothing else changed.
    #[error("Left")]
    Left(String),
    /// The file has its new bytes, but its folder couldn't be synced: after a power cut it may have its old ones.
    #[error("Write")]
    FolderNotSynced,
    /// Memory ran out. Nothing changed.
    #[error("OutOfMemory")]
    OutOfMemory,
}

/// Why a file wasn't updated to given bytes, or why the update may not last a power cut.
#[derive(Debug, Drop, PartialEq, Eq, Error)]
pub enum UpdateFault {
    /// A read of the file failed before it was known whether the file already has the given bytes. Nothing changed.
    #[error("Write")]
    Unread,
    /// The file is missing, can't be opened, isn't regular or has other bytes, and replacing it ended with this fault.
    #[error("{0}")]
    Replace(ReplaceFault),
}
