//! A disk that can only be read.
ghost use Rattle.std.specs.Prelude.{◌≡◌};

use crate::disk::ReadDisk;
use crate::kind::FileKind;
use kc_value::Seed;

/// A disk whose files can only be read: code that is given no other disk can't change a file.
#[derive(Drop)]
pub struct ReadOnly<'a, D> {
    disk: &'a mut D,
}

impl<'a, D: ReadDisk> ReadOnly<'a, D> {
    /// A disk that has the files of `disk` and can only be read.
    pub fn new(disk: &'a mut D) -> ReadOnly<'a, D>
        ensures { ⟦<ReadOnly<'a, D> as ReadDisk>⟧.disk result ≡ D.disk disk.entry.now }
    {
        ReadOnly { disk }
    }
}

impl<D: ReadDisk> ReadDisk for ReadOnly<'_, D> {
    type File = D::File;

    ghost disk = { λ view. D.disk view.disk.now };

    fn seed(&self) -> Seed {
        self.disk.seed()
    }

    fn kind(&self, path: &str) -> FileKind {
        self.disk.kind(path)
    }

    fn open(&mut self, path: &str) -> Option<D::File> {
        self.disk.open(path)
    }

    fn open_if_there(&self, path: &str) -> Option<D::File> {
        self.disk.open_if_there(path)
    }

    fn close(&mut self, file: D::File) {
        self.disk.close(file);
    }

    fn size_of(&self, file: &D::File) -> usize {
        self.disk.size_of(file)
    }
}
