//! Kinds of files.

/// The kind of the file at a path. A link at the end of the path isn't followed.
#[derive(Clone, Copy, Debug, PartialEq, Eq)]
pub enum FileKind {
    /// No file was found at the path.
    Missing,
    /// A regular file.
    Regular,
    /// A link, a folder, a pipe, a device or a socket.
    NotRegular,
}
