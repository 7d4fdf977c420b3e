//! What was read at paths.
ghost use Rattle.std.specs.Prelude.{◌≡◌, [], ◌∷◌, ◌++◌, None, OnOk, OnErr, option_map};
ghost use Rattle.kc_tree_model.specs.Keywords.{keyword_in_table};

use indexmap::IndexMap;
use kc_value::Seed;
use std::alloc::{AllocError, Global};
use std::marker::Model;

/// Paths of files or folders, each with the result of reading the file or listing the folder.
#[derive(Drop)]
pub(crate) struct PathTable<R> {
    alloc: Global,
    entries: IndexMap<Vec<u8>, R, Seed>,
}

impl<R> Model for PathTable<R> {
    ghost use Rattle.std.specs.Prelude.{ℕ, List, map};

    ghost Value = { List (List ℕ × R) };

    ghost view = { λ t. map (λ e. (e.0.items, e.1)) t.entries.entries };
}

impl<R: Drop> PathTable<R> {
    /// An empty table, whose paths will be hashed by `seed`.
    pub fn new(alloc: Global, seed: Seed) -> PathTable<R>
        ensures { result ≡ [] }
    {
        PathTable {
            alloc,
            entries: IndexMap::with_hasher(alloc, seed),
        }
    }

    /// What was read at a path, if it was read.
    pub fn get(&self, path: &[u8]) -> Option<&R>
        ensures { option_map (λ r. r.now) result ≡ keyword_in_table self.now path.now }
    {
        self.entries.get(path)
    }

    /// Adds a path that the table doesn't have, with what was read there.
    ///
    /// # Errors
    ///
    /// Where memory runs out, nothing is changed.
    pub fn insert(&mut self, path: &[u8], read: R) -> Result<(), AllocError>
        requires absent { keyword_in_table self.old path.now ≡ None }
        ensures ok { OnOk result (self.new ≡ self.old ++ (path.now, read) ∷ []) }
        ensures err { OnErr result (self.new ≡ self.old) }
    {
        let path = Vec::from_slice(self.alloc, path)?;
        self.entries.insert(path, read)?;
        Ok(())
    }
}
