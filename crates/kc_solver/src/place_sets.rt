//! Sets of places in an order.
ghost use Rattle.std.specs.Prelude.{◌≡◌, ◌≢◌, ℕ, ◌+◌, ◌-◌, ◌*◌, ◌/◌, ◌^◌, ◌<◌, ◌≤◌, true, false, length, slice_index_or, IfOk, MatchOption};
ghost use Rattle.kc_solver.specs.checker.PlaceSets.{AreLevels, IsTree, WritesBit, WritesPlace, TakesLeast, first_of, has, is_place};

use std::alloc::{AllocError, Global};

/// A set of places in an order, below a size, as a tree of words of 64 bits. Each bit of the last level is for a place; each bit
/// of a level above is for a word of the next level, and is set if that word isn't zero. The levels are in one list, one after
/// another from the top, so that bit k, counted from the start of the list, is for word k + 1 unless it is on the last level.
#[derive(Drop)]
pub(crate) struct PlaceSet {
    words: Vec<u64>,
    levels: usize,
    first: usize,
    pub(crate) size: usize,
    ghost tree: { IsTree levels first size words.items },
}

/// Writes a bit of a tree of words. The result is true if the bit above may have to change: the bit was set in a zero word, or
/// cleared so that the word is zero now.
fn write_bit(words: &mut [u64], bit: usize, on: bool) -> bool
    requires there { bit / 64 < length words.old }
    ensures written { WritesBit words.old words.new bit on result }
{
    let word = bit / 64;
    let mask = 1 << (bit % 64);
    let was = words[word];
    if on {
        words[word] = was | mask;
        was == 0
    } else {
        let now = was & !mask;
        words[word] = now;
        now == 0
    }
}

/// Writes the bit of a place, and the bits on the levels above that have to change.
fn write_place(words: &mut [u64], at: usize, on: bool)
    requires there { at / 64 < length words.old }
    ensures written { (first : ℕ) → AreLevels first words.old → 64 * first ≤ at → WritesPlace first words.old words.new at on }
{
    let mut bit = at;
    let mut follows = write_bit(words, bit, on);
    while follows && bit >= 64 {
        bit = bit / 64 - 1;
        follows = write_bit(words, bit, on);
    }
}

/// The bit of the least place of a set that has one.
fn least(words: &[u64], levels: usize) -> usize
    requires levels { AreLevels (first_of levels) words.now }
    requires some { 0 < slice_index_or words.now 0 0 }
    requires few { length words.now < 2 ^ 48 }
    ensures place { 64 * first_of levels ≤ result }
    ensures inside { result / 64 < length words.now }
    ensures has { has words.now result ≡ true }
    ensures least { (k : ℕ) → 64 * first_of levels ≤ k → has words.now k ≡ true → result ≤ k }
{
    let mut word = 0;
    for _level in 0..levels {
        word = 64 * word + 1 + words[word].trailing_zeros() as usize;
    }
    64 * word + words[word].trailing_zeros() as usize
}

impl PlaceSet {
    /// The empty set for the places below `size`, or out of memory.
    pub(crate) fn new(alloc: Global, size: u32) -> Result<PlaceSet, AllocError>
        ensures size { IfOk result (λ set. set.size ≡ size) }
        ensures none { IfOk result (λ set. (k : ℕ) → is_place set.first set.words.items k ≡ false) }
    {
        let size = size as usize;
        let mut levels = 0;
        let mut first = 0;
        while 63 * first < size / 64 {
            first = 64 * first + 1;
            levels += 1;
        }
        let words = vec![in alloc; 0; first + size / 64 + 1]?;
        Ok(PlaceSet {
            words,
            levels,
            first,
            size,
        })
    }

    /// Adds a place to the set.
    pub(crate) fn insert(&mut self, place: u32)
        requires there { place < self.old.size }
        ensures size { self.new.size ≡ self.old.size }
        ensures here { is_place self.new.first self.new.words.items place ≡ true }
        ensures others { (k : ℕ) → k ≢ place → is_place self.new.first self.new.words.items k ≡ is_place self.old.first self.old.words.items k }
    {
        write_place(&mut self.words, 64 * self.first + place as usize, true);
    }

    /// Removes a place from the set.
    pub(crate) fn remove(&mut self, place: u32)
        requires there { place < self.old.size }
        ensures size { self.new.size ≡ self.old.size }
        ensures here { is_place self.new.first self.new.words.items place ≡ false }
        ensures others { (k : ℕ) → k ≢ place → is_place self.new.first self.new.words.items k ≡ is_place self.old.first self.old.words.items k }
    {
        write_place(&mut self.words, 64 * self.first + place as usize, false);
    }

    /// Removes the least place from the set and returns it; `None` if the set is empty.
    pub(crate) fn pop_first(&mut self) -> Option<u32>
        ensures size { self.new.size ≡ self.old.size }
        ensures takes { MatchOption result ((k : ℕ) → (is_place self.old.first self.old.words.items k ≡ false) × (is_place self.new.first self.new.words.items k ≡ false)) (λ place. TakesLeast (is_place self.old.first self.old.words.items) (is_place self.new.first self.new.words.items) place) }
    {
        if self.words[0] == 0 {
            return None;
        }
        let bit = least(&self.words, self.levels);
        write_place(&mut self.words, bit, false);
        Some((bit - 64 * self.first) as u32)
    }

    /// Removes every place from the set.
    pub(crate) fn clear(&mut self)
        ensures size { self.new.size ≡ self.old.size }
        ensures none { (k : ℕ) → is_place self.new.first self.new.words.items k ≡ false }
    {
        self.words.fill(0);
    }
}
