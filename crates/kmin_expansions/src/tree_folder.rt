//! The files and folders of a tree below its root.
ghost use Rattle.std.specs.Prelude.{◌≡◌, IfOk, IfSome, is_some, string_bytes};
ghost use Rattle.std.specs.Str.{is_utf8};
ghost use Rattle.kmin_inputs.specs.FileContents.{path_below};
ghost use Rattle.kmin_expansions.specs.TreeFolders.{contents_through};

use kc_files::{FileStop, TreeFiles};
use kc_value::Seed;
use kmin_inputs::Files;
use std::alloc::{AllocError, Global};

/// The files and folders below a root, by their paths in it; even an absolute path is taken as one below the root.
#[derive(Drop)]
pub(crate) struct TreeFolder<'a, F> {
    pub(crate) files: &'a mut F,
    pub(crate) root: &'a str,
    /// The path of the file that couldn't be opened, if that was the last call; `None` also where memory runs out for it.
    pub(crate) missing: &'a mut Option<Vec<u8>>,
}

/// The path, for the system, of a file or folder of a tree below its root.
pub fn path_below(alloc: Global, root: &str, path: &str) -> Result<String, AllocError>
    ensures { IfOk result (λ place. string_bytes place ≡ path_below root.now path.now) }
{
    let mut place = String::from_str(alloc, root)?;
    place.push_str("/")?;
    place.push_str(path)?;
    Ok(place)
}

/// Bytes as a text, if they are UTF-8.
pub(crate) fn utf8_or_none(bytes: &[u8]) -> Option<&str>
    ensures same { IfSome result (λ text. text.now ≡ bytes.now) }
    ensures utf8 { is_some result ≡ is_utf8 bytes.now }
{
    match std::str::from_utf8(bytes) {
        Ok(text) => Some(text),
        Err(_) => None,
    }
}

/// The path of a file that couldn't be opened; `None` of one that is open, and where memory runs out.
fn missing_path<R, E>(alloc: Global, path: &str, opened: &Result<Option<R>, E>) -> Option<Vec<u8>> {
    match opened {
        Ok(Some(_)) => None,
        _ => Vec::from_slice(alloc, path.as_bytes()).ok(),
    }
}

impl<F: Files> TreeFiles for TreeFolder<'_, F> {
    type File = F::File;

    ghost contents = { λ t. contents_through t.files.ghost_name (F.failures t.files.now) (F.surroundings t.files.now) t.root.now };

    fn seed(&self) -> Seed {
        self.files.seed()
    }

    fn open(&mut self, alloc: Global, path: &[u8]) -> Result<Option<F::File>, FileStop> {
        *self.missing = None;
        let Some(path) = utf8_or_none(path) else {
            return Ok(None);
        };
        let place = path_below(alloc, self.root, path)?;
        let opened = self.files.regular_reader_for(&place);
        *self.missing = missing_path(alloc, path, &opened);
        match opened {
            Ok(reader) => Ok(reader),
            Err(_) => Err(FileStop::Failed),
        }
    }

    fn close(&mut self, file: F::File) {
        self.files.close(file);
    }

    fn size_of(&self, file: &F::File) -> usize {
        self.files.size_of(file)
    }

    fn names_in(
        &mut self,
        alloc: Global,
        folder: &[u8],
        most: usize,
    ) -> Result<Option<Vec<Vec<u8>>>, FileStop> {
        *self.missing = None;
        let Some(folder) = utf8_or_none(folder) else {
            return Ok(Some(Vec::new(alloc)));
        };
        let place = path_below(alloc, self.root, folder)?;
        self.files.names_in(alloc, &place, most)
    }
}
