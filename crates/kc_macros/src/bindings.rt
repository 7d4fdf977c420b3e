//! Variables by their names.
ghost use Rattle.std.specs.Prelude.{◌≡◌, OnOk, OnErr, option_map};
ghost use Rattle.kc_macros_model.specs.Variables.{no_bindings, with_variable};
ghost use Rattle.kc_macros.specs.between.Variables.{bindings_of, variable_of};

use super::bytes::Bytes;
use super::variable::Variable;
use indexmap::IndexMap;
use kc_value::Seed;
use std::alloc::{AllocError, Global};
use std::marker::Model;

/// Variables by their names, in order of their first assignments.
#[derive(Drop)]
pub struct Bindings {
    alloc: Global,
    entries: IndexMap<Vec<u8>, Variable, Seed>,
}

impl Model for Bindings {
    ghost use Rattle.std.specs.Prelude.{ℕ, List, map};
    ghost use Rattle.kc_macros_model.specs.Variables.{Variable as Meaning};

    ghost Value = { List (List ℕ × Meaning) };

    ghost use Rattle.kc_macros.specs.between.Variables.{entry_of};

    ghost view = { λ b. map entry_of b.entries.entries };
}

impl Bindings {
    /// Bindings without variables; `seed` seeds the hashes of their names.
    pub fn new(alloc: Global, seed: Seed) -> Bindings
        ensures { bindings_of result ≡ no_bindings }
    {
        Bindings {
            alloc,
            entries: IndexMap::with_hasher(alloc, seed),
        }
    }

    /// The variable of a name, if there is one.
    pub(crate) fn get(&self, name: &[u8]) -> Option<&Variable>
        ensures { option_map (λ v. variable_of v.now) result ≡ bindings_of self.now name.now }
    {
        self.entries.get(name)
    }

    /// Binds a name to a variable, in place of the variable that it had.
    ///
    /// # Errors
    ///
    /// Memory ran out.
    pub(crate) fn bind(&mut self, name: Bytes, variable: Variable) -> Result<(), AllocError>
        ensures ok { OnOk result (bindings_of self.new ≡ with_variable name (variable_of variable) (bindings_of self.old)) }
        ensures err { OnErr result (self.new ≡ self.old) }
    {
        let name = name.into_vec();
        match self.entries.insert(name, variable) {
            Ok(_) => Ok(()),
            Err(_) => Err(AllocError),
        }
    }
}
