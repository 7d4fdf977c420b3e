//! Lists of paths without repeats.
ghost use Rattle.std.specs.Prelude.{◌≡◌, ◌↔◌, IsTrue, [], OnOk, IfOk, map, string_bytes};

use indexmap::IndexSet;
use kc_value::Seed;
use std::alloc::{AllocError, Global};

/// A list of paths, each once, in order of first insertion.
#[derive(Drop)]
pub(crate) struct Paths {
    alloc: Global,
    paths: IndexSet<String, Seed>,
}

impl Paths {
    ghost use Rattle.kc_checks.specs.checker.MissingPaths.{paths_in, with_path};

    /// An empty list of paths, which hashes them with `seed`.
    pub(crate) fn new(alloc: Global, seed: Seed) -> Paths
        ensures { paths_in result ≡ [] }
    {
        Paths {
            alloc,
            paths: IndexSet::with_hasher(alloc, seed),
        }
    }

    /// Whether the list has no paths.
    pub(crate) fn is_empty(&self) -> bool
        ensures { IsTrue result ↔ (paths_in self.now ≡ []) }
    {
        self.paths.is_empty()
    }

    /// Appends a path, unless the list has it. An `Err` means out of memory.
    pub(crate) fn insert(&mut self, path: &str) -> Result<(), AllocError>
        ensures { OnOk result (paths_in self.new ≡ with_path path.now (paths_in self.old)) }
    {
        self.paths.insert(String::from_str(self.alloc, path)?)?;
        Ok(())
    }

    /// A copy of all paths, in order of first insertion. An `Err` means out of memory.
    pub(crate) fn to_list(&self) -> Result<Vec<String>, AllocError>
        ensures { IfOk result (λ list. map string_bytes list.items ≡ paths_in self.now) }
    {
        let mut list = Vec::with_capacity(self.alloc, self.paths.len())?;
        for path in self.paths.as_slice() {
            list.push(path.clone()?)?;
        }
        Ok(list)
    }
}
