//! The first fault of a `source`.
ghost use Rattle.std.specs.Prelude.{◌≡◌, ◌+◌};
ghost use Rattle.kc_tree_model.specs.SourceFaults.{fault_of_source};

use super::fault::TreeKind;
use kc_value::{MAX_FILES, MAX_OPEN_FILES, MAX_TREE_BYTES};

/// The kinds that a reader has for the faults of a `source`.
#[derive(Clone, Copy, Debug)]
pub struct SourceKinds<K> {
    /// The file is open already.
    pub source_loop: K,
    /// The file isn't there.
    pub missing_file: K,
    /// As many files are open within each other as may be.
    pub too_deep: K,
    /// The file is one too many, or has too many bytes.
    pub too_many: K,
}

/// The kinds of faults of a `source` in a tree.
pub const TREE_KINDS: SourceKinds<TreeKind> = SourceKinds {
    source_loop: TreeKind::SourceLoop,
    missing_file: TreeKind::MissingFile,
    too_deep: TreeKind::TooDeep,
    too_many: TreeKind::TooMany,
};

/// The first fault of a `source`, or None if it has none: its file is open or isn't there, or one of the limits
/// `MAX_OPEN_FILES`, `MAX_FILES` and `MAX_TREE_BYTES` is passed.
///
/// `open_count` files are open within each other, `files` files of `bytes` bytes were read, and the file has `size` bytes.
pub fn source_fault<K: Copy>(
    kinds: &SourceKinds<K>,
    is_open: bool,
    is_there: bool,
    open_count: usize,
    files: usize,
    bytes: usize,
    size: usize,
) -> Option<K>
    ensures { result ≡ fault_of_source kinds.now is_open is_there open_count files (bytes + size) }
{
    if is_open {
        return Some(kinds.source_loop);
    }
    if !is_there {
        return Some(kinds.missing_file);
    }
    if open_count >= MAX_OPEN_FILES {
        return Some(kinds.too_deep);
    }
    if files >= MAX_FILES || bytes.saturating_add(size) > MAX_TREE_BYTES {
        return Some(kinds.too_many);
    }
    None
}
