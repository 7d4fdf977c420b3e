//! Bags of lines: each line with its number of occurrences.
ghost use Rattle.std.specs.Prelude.{◌≡◌, ◌∷◌, ◌++◌, [], ℕ, List, ◌+◌, ◌<◌, ◌^◌, length, nat_lt, IfOk, OnOk};
ghost use Rattle.kmin_lines.specs.Lines.{without_one, lines_of};
ghost use Rattle.kmin_lines.specs.checker.Bags.{HasLines, times_among, times_in};

use crate::pieces::{first_piece, trim_carriage_return};
use indexmap::IndexMap;
use kc_value::Seed;
use std::alloc::{AllocError, Global};

/// A bag of lines: they have no order, and a line may occur more than once.
#[derive(Drop)]
pub(crate) struct LineBag<'a> {
    counts: IndexMap<&'a [u8], usize, Seed>,
}

impl<'a> LineBag<'a> {
    /// A bag without lines; lines are hashed by this seed.
    fn new(alloc: Global, seed: Seed) -> LineBag<'a>
        ensures { HasLines result [] }
    {
        LineBag {
            counts: IndexMap::with_hasher(alloc, seed),
        }
    }

    /// The bag of the lines of a text, without carriage returns at their ends; lines are hashed by `seed`.
    pub(crate) fn of(alloc: Global, seed: Seed, text: &'a [u8]) -> Result<LineBag<'a>, AllocError>
        ensures { IfOk result (λ bag. HasLines bag (lines_of text.now)) }
    {
        let mut bag = LineBag::new(alloc, seed);
        let mut rest = text;
        while let Some((line, after)) = first_piece(rest, b'\n') {
            bag.add(trim_carriage_return(line))?;
            rest = after;
        }
        Ok(bag)
    }

    /// The number of occurrences of a line in the bag.
    fn times(&self, line: &[u8]) -> usize
        ensures { result ≡ times_in self.now line.now }
    {
        match self.counts.get(&line) {
            Some(count) => *count,
            None => 0,
        }
    }

    /// Adds one occurrence of a line to the bag.
    fn add(&mut self, line: &'a [u8]) -> Result<(), AllocError>
        ensures { OnOk result ((lines : List (List ℕ)) → HasLines self.old lines → length lines + 1 < 2 ^ 64 → HasLines self.new (lines ++ line.now ∷ [])) }
    {
        let count = self.times(line);
        self.counts.insert(line, count.saturating_add(1))?;
        Ok(())
    }

    /// Takes one occurrence of a line out of the bag, if the bag has one. Whether it has.
    pub(crate) fn take(&mut self, line: &'a [u8]) -> Result<bool, AllocError>
        ensures { IfOk result (λ found. (lines : List (List ℕ)) → HasLines self.old lines
            → (found ≡ nat_lt 0 (times_among lines line.now)) × HasLines self.new (without_one line.now lines)) }
    {
        let count = self.times(line);
        if count == 0 {
            return Ok(false);
        }
        self.counts.insert(line, count - 1)?;
        Ok(true)
    }
}
