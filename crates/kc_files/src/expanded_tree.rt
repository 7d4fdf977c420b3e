//! The expanded files of a tree.
ghost use Rattle.std.specs.Prelude.{◌≡◌, ◌∷◌, [], ◌++◌, length, slice_get, option_map};
ghost use Rattle.kc_files.specs.ExpandedTexts.{file_of_slices};
ghost use Rattle.kc_files.specs.PathsOfKeys.{path_of_key};

use super::expanded_files::ExpandedFiles;
use std::marker::Model;
use std::rc::Rc;

/// An expanded file: its key, which expanded `source` lines name, the path that was read for it, and its text.
#[derive(Clone, Copy)]
pub struct ExpandedText<'a> {
    pub key: &'a [u8],
    pub path: &'a [u8],
    pub text: &'a Rc<Vec<u8>>,
}

/// The expanded files of a tree, in the order in which their last lines were read, so that the first file of the tree is the
/// last.
#[derive(Drop)]
pub struct ExpandedTree {
    sourced: ExpandedFiles,
    root: Vec<u8>,
    text: Rc<Vec<u8>>,
}

impl Model for ExpandedTree {
    ghost use Rattle.std.specs.Prelude.{List, [], ◌∷◌, ◌++◌};
    ghost use Rattle.kc_macros_model.specs.ReadingStates.{ExpandedFile};

    ghost Value = { List ExpandedFile };

    ghost view = { λ t. t.sourced ++ record { key = t.root.items; path = t.root.items; text = t.text.value.items } ∷ [] };
}

impl ExpandedTree {
    /// A tree of the expanded files that were sourced, and of the first file with its text.
    pub fn new(sourced: ExpandedFiles, root: Vec<u8>, text: Rc<Vec<u8>>) -> ExpandedTree
        ensures { result ≡ sourced ++ record { key = root.items; path = root.items; text = text.value.items } ∷ [] }
    {
        ExpandedTree {
            sourced,
            root,
            text,
        }
    }

    /// The number of expanded files, which is at least one.
    pub fn len(&self) -> usize
        ensures { result ≡ length self.now }
    {
        self.sourced.len() + 1
    }

    /// The expanded file at a place, counted from 0; `None` past the last.
    pub fn get(&self, at: usize) -> Option<ExpandedText<'_>>
        ensures { option_map file_of_slices result ≡ slice_get self.now at }
    {
        if at == self.sourced.len() {
            return Some(ExpandedText {
                key: &self.root,
                path: &self.root,
                text: &self.text,
            });
        }
        self.sourced.get(at)
    }

    /// The path that was read for the expanded file of a key, if there is one.
    pub fn path_of(&self, key: &[u8]) -> Option<&[u8]>
        ensures { option_map (λ p. p.now) result ≡ path_of_key self.now key.now }
    {
        match self.sourced.path_of(key) {
            Some(path) => Some(path),
            None if key == self.root.as_slice() => Some(&self.root),
            None => None,
        }
    }
}
