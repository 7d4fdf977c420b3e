//! How much of a tree was read.
ghost use Rattle.std.specs.Prelude.{◌≡◌, ◌+◌, ◌<◌, ◌≤◌};

use kc_value::{MAX_FILES, MAX_TREE_BYTES};

/// How many files and bytes of a tree were read so far.
#[derive(Clone, Copy)]
pub(crate) struct ReadCounts {
    pub files: usize,
    pub bytes: usize,
}

impl ReadCounts {
    /// The counts after one more file of `bytes` bytes.
    pub(crate) fn with(self, bytes: usize) -> ReadCounts
        requires files { self.files < MAX_FILES }
        requires bytes { self.bytes + bytes ≤ MAX_TREE_BYTES }
        ensures value { result ≡ record { files = self.files + 1; bytes = self.bytes + bytes } }
    {
        ReadCounts {
            files: self.files + 1,
            bytes: self.bytes + bytes,
        }
    }
}
