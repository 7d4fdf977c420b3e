//! Numbers of names and expressions.
use std::marker::Model;

/// The number of a name in an arena, counted from 0 in order of first occurrence.
#[derive(Clone, Copy, Debug, PartialEq, Eq, PartialOrd, Ord)]
pub struct NameId {
    index: u32,
}

impl Model for NameId {
    ghost use Rattle.std.specs.Prelude.{ℕ};

    ghost Value = { ℕ };

    ghost view = { λ id. id.index };

    ghost inverse = { λ n. record { index = n } };
}

impl NameId {
    ghost use Rattle.std.specs.Prelude.{◌≡◌};

    pub(crate) fn at(index: u32) -> NameId
        ensures { result ≡ index }
    {
        NameId { index }
    }

    /// The index in the arena's list of names, which holds at most 2^32.
    pub fn index(self) -> usize
        ensures { result ≡ self }
    {
        self.index as usize
    }
}

/// The number of an expression in an arena, counted from 0.
#[derive(Clone, Copy, Debug, PartialEq, Eq)]
pub struct ExprId {
    number: u32,
}

impl Model for ExprId {
    ghost use Rattle.std.specs.Prelude.{ℕ};

    ghost Value = { ℕ };

    ghost view = { λ id. id.number };

    ghost inverse = { λ n. record { number = n } };
}

impl ExprId {
    ghost use Rattle.std.specs.Prelude.{◌≡◌};

    pub(crate) fn at(number: u32) -> ExprId
        ensures { result ≡ number }
    {
        ExprId { number }
    }

    /// The index in the arena's list of expressions, which holds at most 2^32.
    pub fn index(self) -> usize
        ensures { result ≡ self }
    {
        self.number as usize
    }

    pub(crate) fn number(self) -> u32
        ensures { result ≡ self }
    {
        self.number
    }
}
