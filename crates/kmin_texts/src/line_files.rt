//! The files that lines of standard error are about, read once more.
ghost use Rattle.std.specs.Prelude.{IfOk};
ghost use Rattle.kmin_texts.specs.KnownLines.{IsReread, KnownLines, MayBeReason};

use kmin_details::Unreadable;
use std::alloc::{AllocError, Global};

/// A line of a file that was read once more.
#[derive(Drop)]
pub enum Reread {
    /// The bytes of the line, of which a message may show words.
    Shown(Vec<u8>),
    /// The bytes of the line, of which a message may show the name of a symbol alone.
    Hidden(Vec<u8>),
    /// The file has no such line.
    NoLine,
    /// Why the file can't be read.
    Unread(Unreadable),
}

/// Files that are read once more for the texts of messages.
pub trait LineFiles {
    /// What is known of the files, at any time: a constant of the type, since standard error is handed to functions that know of its
    /// lines alone, so no state of it could be followed through them. A test about files with some bytes picks a type for them.
    ghost known: { KnownLines };

    /// The line with this number, counted from 1, of a file of a tree in the folder `root`. A message may show its words if the real
    /// path of the file is below that of the folder. An `Err` means out of memory.
    fn tree_line(
        &mut self,
        alloc: Global,
        root: &str,
        path: &[u8],
        number: u32,
    ) -> Result<Reread, AllocError>
        ensures { IfOk result (IsReread (known.tree root.now path.now) number) };

    /// The line with this number, counted from 1, of a file of the command line. A message may show its words if the real path of the
    /// file is below that of the working folder. An `Err` means out of memory.
    fn named_line(&mut self, alloc: Global, path: &str, number: u32) -> Result<Reread, AllocError>
        ensures { IfOk result (IsReread (known.named path.now) number) };

    /// Why the file at a path below the folder `root` can't be read; `None` if it can be read now. An `Err` means out of memory.
    fn why_unread(
        &mut self,
        alloc: Global,
        root: &str,
        path: &[u8],
    ) -> Result<Option<Unreadable>, AllocError>
        ensures { IfOk result (MayBeReason (known.tree root.now path.now)) };
}
