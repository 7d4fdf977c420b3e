//! Expanded files and their keys.
ghost use Rattle.std.specs.Prelude.{◌≡◌, ◌<◌, ◌^◌, false, List, [], ◌∷◌, ◌++◌, decimal, length, not, IfOk, OnOk, OnErr, option_map, slice_get};
ghost use Rattle.kc_files.specs.ExpandedTexts.{file_of_slices};
ghost use Rattle.kc_macros_model.specs.ReadingStates.{is_taken, has_key, key_of};
ghost use Rattle.kc_files.specs.PathsOfKeys.{path_of_key};
ghost use Rattle.kc_files.specs.checker.ExpandedViews.{HasDistinctKeys, with_file, IsPushed};

use super::expanded_tree::ExpandedText;
use indexmap::IndexMap;
use itoa::Buffer;
use kc_value::Seed;
use std::alloc::{AllocError, Global};
use std::marker::Model;
use std::rc::Rc;

/// The path that was read for the expanded file of a key, and its expanded text.
#[derive(Drop)]
pub(crate) struct FileOfKey {
    pub path: Vec<u8>,
    pub text: Rc<Vec<u8>>,
}

/// Expanded files by their keys, in the order in which their last lines were read.
#[derive(Drop)]
pub struct ExpandedFiles {
    alloc: Global,
    files: IndexMap<Vec<u8>, FileOfKey, Seed>,
}

impl Model for ExpandedFiles {
    ghost use Rattle.std.specs.Prelude.{List, map};
    ghost use Rattle.kc_macros_model.specs.ReadingStates.{ExpandedFile};

    ghost Value = { List ExpandedFile };

    ghost use Rattle.kc_files.specs.checker.ExpandedViews.{expanded_file};

    ghost view = { λ e. map expanded_file e.files.entries };
}

/// A key of an expanded file: a path, `#` and a number.
fn numbered(alloc: Global, path: &[u8], number: usize) -> Result<Vec<u8>, AllocError>
    ensures { IfOk result (λ key. key.items ≡ path.now ++ 35 ∷ decimal number) }
{
    let mut buffer = Buffer::new();
    let mut key = Vec::from_slice(alloc, path)?;
    key.push(b'#')?;
    key.extend_from_slice(buffer.format(number).as_bytes())?;
    Ok(key)
}

impl ExpandedFiles {
    /// An empty map of expanded files, whose keys will be hashed by `seed`.
    pub fn new(alloc: Global, seed: Seed) -> ExpandedFiles
        ensures { result ≡ [] }
    {
        ExpandedFiles {
            alloc,
            files: IndexMap::with_hasher(alloc, seed),
        }
    }

    /// The number of expanded files, no two of which have the same key.
    pub(crate) fn len(&self) -> usize
        ensures value { result ≡ length self.now }
        ensures small { result < 2 ^ 63 }
        ensures distinct { HasDistinctKeys self.now }
    {
        self.files.len()
    }

    /// The expanded file at a place, counted from 0; `None` past the last.
    pub(crate) fn get(&self, at: usize) -> Option<ExpandedText<'_>>
        ensures { option_map file_of_slices result ≡ slice_get self.now at }
    {
        match self.files.get_index(at) {
            Some((key, file)) => Some(ExpandedText {
                key,
                path: &file.path,
                text: &file.text,
            }),
            None => None,
        }
    }

    /// Whether there is a file with this key.
    fn has_key(&self, key: &[u8]) -> bool
        ensures { result ≡ has_key self.now key.now }
    {
        self.files.get(key).is_some()
    }

    /// Whether a key is the root's, or that of a file with other bytes.
    fn is_taken(&self, root: &[u8], text: &[u8], key: &[u8]) -> bool
        requires distinct { HasDistinctKeys self.now }
        ensures value { result ≡ is_taken root.now self.now text.now key.now }
    {
        if key == root {
            return true;
        }
        match self.files.get(key) {
            Some(file) => file.text.as_slice() != text,
            None => false,
        }
    }

    /// The key of the text of a path: the path, or else the path with the first number from 2 on that isn't taken. Each key
    /// before it is looked up once.
    fn key_of(&self, root: &[u8], path: &[u8], text: &[u8]) -> Result<Vec<u8>, AllocError>
        ensures { IfOk result (λ key. key.items ≡ key_of root.now self.now path.now text.now) }
    {
        let count = self.len();
        let mut key = Vec::from_slice(self.alloc, path)?;
        for number in 2..count + 3 {
            if !self.is_taken(root, text, &key) {
                return Ok(key);
            }
            key = numbered(self.alloc, path, number)?;
        }
        Ok(key)
    }

    /// Appends the text of a path under a key that no file has.
    fn push(&mut self, key: &[u8], path: &[u8], text: Rc<Vec<u8>>) -> Result<(), AllocError>
        requires absent { has_key self.old key.now ≡ false }
        ensures ok { OnOk result (self.new ≡ self.old ++ record { key = key.now; path = path.now; text = text.value.items } ∷ []) }
        ensures err { OnErr result (self.new ≡ self.old) }
    {
        let path = Vec::from_slice(self.alloc, path)?;
        let key = Vec::from_slice(self.alloc, key)?;
        self.files.insert(key, FileOfKey { path, text })?;
        Ok(())
    }

    /// Appends the text of a path under the path as its key, unless a file has that key; returns whether none had.
    fn insert_first(&mut self, path: &[u8], text: Rc<Vec<u8>>) -> Result<bool, AllocError>
        ensures first { IfOk result (λ first. first ≡ not (has_key self.old path.now)) }
        ensures ok { OnOk result (self.new ≡ with_file path.now path.now text.value.items self.old) }
        ensures err { OnErr result (self.new ≡ self.old) }
    {
        let before = self.files.len();
        let key = Vec::from_slice(self.alloc, path)?;
        let path = Vec::from_slice(self.alloc, path)?;
        self.files.entry(key)?.or_insert(FileOfKey { path, text });
        Ok(self.files.len() > before)
    }

    /// Appends the text of a path other than the root's under the path as its key, unless a file has that key; returns whether it
    /// did.
    fn push_below_root(
        &mut self,
        root: &[u8],
        path: &[u8],
        text: Rc<Vec<u8>>,
    ) -> Result<bool, AllocError>
        ensures ok { IfOk result (λ pushed. IsPushed root.now path.now text.value.items self.old pushed self.new) }
        ensures err { OnErr result (self.new ≡ self.old) }
    {
        if path == root {
            return Ok(false);
        }
        self.insert_first(path, text)
    }

    /// Appends the expanded text of a path, and returns its key: the path, or the path with `#` and a number. A text that is
    /// there under its key isn't appended again.
    ///
    /// # Errors
    ///
    /// Where memory runs out, nothing is changed.
    pub fn insert(
        &mut self,
        root: &[u8],
        path: &[u8],
        text: Rc<Vec<u8>>,
    ) -> Result<Vec<u8>, AllocError>
        ensures key { IfOk result (λ key. key.items ≡ key_of root.now self.old path.now text.value.items) }
        ensures ok { IfOk result (λ key. self.new ≡ with_file (key_of root.now self.old path.now text.value.items) path.now text.value.items self.old) }
        ensures err { OnErr result (self.new ≡ self.old) }
    {
        let key = Vec::from_slice(self.alloc, path)?;
        if self.push_below_root(root, path, text.clone()?)? {
            return Ok(key);
        }
        let key = self.key_of(root, path, &text)?;
        if self.has_key(&key) {
            return Ok(key);
        }
        self.push(&key, path, text)?;
        Ok(key)
    }

    /// The path that was read for the expanded file of a key, if there is one.
    pub(crate) fn path_of(&self, key: &[u8]) -> Option<&[u8]>
        ensures { option_map (λ p. p.now) result ≡ path_of_key self.now key.now }
    {
        let file = self.files.get(key)?;
        Some(file.path.as_slice())
    }
}
