//! The files of a tree.
ghost use Rattle.std.specs.Prelude.{◌≡◌, ◌↔◌, [], length, IsTrue, OnOk, OnErr, option_map};
ghost use Rattle.kc_tree_model.specs.TreeFiles.{strict_files, with_file, file_at, index_of_file, path_at, HasDistinctPaths};

use indexmap::IndexMap;
use kc_tokens::Language;
use kc_value::Seed;
use std::alloc::{AllocError, Global};
use std::marker::Model;
use std::rc::Rc;

/// The Kconfig files of a tree: paths and their bytes, in order of insertion, and the language in which the files are written.
#[derive(Drop)]
pub struct Texts {
    alloc: Global,
    language: Language,
    files: IndexMap<String, Rc<Vec<u8>>, Seed>,
}

impl Model for Texts {
    ghost use Rattle.kc_tree_model.specs.TreeFiles.{Files};

    ghost Value = { Files };

    ghost use Rattle.kc_tree_model.specs.checker.TextsView.{files_of};

    ghost view = { λ a. files_of a.language a.files.entries };
}

impl Texts {
    /// An empty table of files in the strict language, which hashes paths by the fixed seed.
    pub fn new(alloc: Global) -> Texts
        ensures { result ≡ strict_files [] }
    {
        Texts::with_seed(alloc, Seed::fixed())
    }

    /// An empty table of files in the strict language, which hashes paths by `seed`.
    pub fn with_seed(alloc: Global, seed: Seed) -> Texts
        ensures { result ≡ strict_files [] }
    {
        Texts::with_language(alloc, seed, Language::Strict)
    }

    /// An empty table of files in `language`, which hashes paths by `seed`.
    pub fn with_language(alloc: Global, seed: Seed, language: Language) -> Texts
        ensures language { result.language ≡ language }
        ensures empty { result.list ≡ [] }
    {
        Texts {
            alloc,
            language,
            files: IndexMap::with_hasher(alloc, seed),
        }
    }

    /// The language in which the files are written.
    pub fn language(&self) -> Language
        ensures { result ≡ self.now.language }
    {
        self.language
    }

    /// The seed by which the paths of files are hashed. Whoever reads the files hashes the names in them by it too.
    pub fn seed(&self) -> Seed {
        *self.files.hasher()
    }

    /// Appends a file with a new path, or replaces the bytes of the file that has this path; path and bytes are copied.
    ///
    /// # Errors
    ///
    /// `AllocError` if memory runs out; then the files are unchanged.
    pub fn insert(&mut self, path: &str, bytes: &[u8]) -> Result<(), AllocError>
        ensures ok { OnOk result (self.new ≡ with_file self.old path.now bytes.now) }
        ensures err { OnErr result (self.new ≡ self.old) }
    {
        self.insert_whole(path, Vec::from_slice(self.alloc, bytes)?)
    }

    /// Appends a file with a new path, or replaces the bytes of the file that has this path; the bytes are taken.
    ///
    /// # Errors
    ///
    /// `AllocError` if memory runs out; then the files are unchanged.
    pub fn insert_whole(&mut self, path: &str, bytes: Vec<u8>) -> Result<(), AllocError>
        ensures ok { OnOk result (self.new ≡ with_file self.old path.now bytes.items) }
        ensures err { OnErr result (self.new ≡ self.old) }
    {
        self.insert_shared(path, Rc::new(self.alloc, bytes)?)
    }

    /// Appends a file with a new path, or replaces the bytes of the file that has this path; the bytes are shared.
    ///
    /// # Errors
    ///
    /// `AllocError` if memory runs out; then the files are unchanged.
    pub fn insert_shared(&mut self, path: &str, bytes: Rc<Vec<u8>>) -> Result<(), AllocError>
        ensures ok { OnOk result (self.new ≡ with_file self.old path.now bytes.value.items) }
        ensures err { OnErr result (self.new ≡ self.old) }
    {
        let path = String::from_str(self.alloc, path)?;
        self.files.insert(path, bytes)?;
        Ok(())
    }

    /// The bytes of the file with this path, or None if there is no such file.
    pub fn get(&self, path: &str) -> Option<&[u8]>
        ensures { option_map (λ b. b.now) result ≡ file_at self.now path.now }
    {
        let bytes = self.files.get(path)?;
        Some(bytes.as_slice())
    }

    /// The position of a path among the files, from 0 in order of insertion; of an absent path, the count of files.
    pub fn number_of(&self, path: &str) -> usize
        ensures { result ≡ index_of_file self.now path.now }
    {
        match self.files.get_index_of(path) {
            Some(index) => index,
            None => self.files.len(),
        }
    }

    /// The path of the file at this position, from 0 in order of insertion; None past the last file.
    pub fn path_at(&self, index: u32) -> Option<&str>
        ensures { option_map (λ p. p.now) result ≡ path_at self.now index }
    {
        let (path, _) = self.files.get_index(index as usize)?;
        Some(path.as_str())
    }

    /// The count of files; no two have the same path.
    pub fn len(&self) -> usize
        ensures len { result ≡ length self.now.list }
        ensures distinct { HasDistinctPaths self.now }
    {
        self.files.len()
    }

    /// Whether the table holds no files.
    pub fn is_empty(&self) -> bool
        ensures { IsTrue result ↔ (self.now.list ≡ []) }
    {
        self.len() == 0
    }
}
