//! The files that are open within each other.

/// The first file of a tree, and the paths of the files that are open within each other, the last one first.
#[derive(Clone, Copy)]
pub(crate) struct OpenFiles<'a> {
    pub root: &'a [u8],
    pub paths: &'a [&'a [u8]],
}
