//! The names that the choices of a tree have.
ghost use Rattle.std.specs.Prelude.{◌≡◌, ◌∷◌, [], false, OnOk, OnErr};
ghost use Rattle.kc_tree_model.specs.Limits.{is_in_list};

use indexmap::IndexMap;
use kc_value::Seed;
use std::alloc::{AllocError, Global};
use std::marker::Model;

/// The names of the choices of a tree that were read so far, the last one first.
#[derive(Drop)]
pub(crate) struct ChoiceNames {
    alloc: Global,
    names: IndexMap<Vec<u8>, (), Seed>,
}

impl Model for ChoiceNames {
    ghost use Rattle.std.specs.Prelude.{ℕ, List, map, reverse};

    ghost Value = { List (List ℕ) };

    ghost use Rattle.kc_expansion.specs.checker.ChoiceViews.{name_of_entry};

    ghost view = { λ c. reverse (map name_of_entry c.names.entries) };
}

impl ChoiceNames {
    /// An empty set of names of choices, which will be hashed by `seed`.
    pub(crate) fn new(alloc: Global, seed: Seed) -> ChoiceNames
        ensures { result ≡ [] }
    {
        ChoiceNames {
            alloc,
            names: IndexMap::with_hasher(alloc, seed),
        }
    }

    /// Whether a choice that was read before has this name.
    pub(crate) fn has(&self, name: &[u8]) -> bool
        ensures { result ≡ is_in_list name.now self.now }
    {
        self.names.get(name).is_some()
    }

    /// Adds the name of a choice; no choice that was read before has this name.
    ///
    /// # Errors
    ///
    /// Where memory runs out, nothing is changed.
    pub(crate) fn insert(&mut self, name: &[u8]) -> Result<(), AllocError>
        requires absent { is_in_list name.now self.old ≡ false }
        ensures ok { OnOk result (self.new ≡ name.now ∷ self.old) }
        ensures err { OnErr result (self.new ≡ self.old) }
    {
        let name = Vec::from_slice(self.alloc, name)?;
        self.names.insert(name, ())?;
        Ok(())
    }
}
