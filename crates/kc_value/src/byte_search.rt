//! Bytes that pass a test, looked for in many bytes at once.
ghost use Rattle.std.specs.Prelude.{◌≡◌, ◌+◌, ◌≤◌, ℕ, Bool, length, map};
ghost use Rattle.std.specs.Simd.Lanes.{mask_l};
ghost use Rattle.kc_value.specs.ByteSearch.{IsFirstFrom};
ghost use Rattle.kc_value.specs.checker.ByteBlocks.{IsCountBefore};

use std::simd::prelude::*;

/// How many bytes are looked at together.
const LANES: usize = 16;

/// A test of bytes, one by one or sixteen at once.
pub trait ByteTest {
    ghost marked: { Self → ℕ → Bool };

    /// Whether a byte passes.
    fn marks(&self, byte: u8) -> bool
        ensures { result ≡ marked self.now byte };

    /// Which bytes of a block pass: the lowest bit is of the first.
    fn marks_of(&self, block: u8x16) -> u64
        ensures { result ≡ mask_l (map (marked self.now) block) };
}

/// How many of the next `LANES` bytes come before the first that passes.
#[inline(always)]
fn bytes_before<T: ByteTest>(test: &T, bytes: &[u8], at: usize) -> usize
    requires room { at + LANES ≤ length bytes.now }
    ensures { IsCountBefore (T.marked test.now) bytes.now at LANES result }
{
    let mask = test.marks_of(u8x16::from_slice(&bytes[at..]));
    if mask == 0 {
        return LANES;
    }
    mask.trailing_zeros() as usize
}

/// The place of the first byte from `at` on that passes, among bytes that are fewer than `LANES`, looked for byte by byte; the length
/// of the bytes where none does.
#[inline(always)]
fn first_by_bytes<T: ByteTest>(test: &T, bytes: &[u8], at: usize) -> usize
    requires within { at ≤ length bytes.now }
    ensures { IsFirstFrom (T.marked test.now) bytes.now at result }
{
    let mut place = at;
    while place < bytes.len() && !test.marks(bytes[place]) {
        place += 1;
    }
    place
}

/// The place of the first byte from `at` on that passes, among the last `LANES` bytes; the length of the bytes where none does.
#[inline(always)]
fn first_of_last<T: ByteTest>(test: &T, bytes: &[u8], at: usize) -> usize
    requires long { LANES ≤ length bytes.now }
    requires last { length bytes.now ≤ at + LANES }
    requires within { at ≤ length bytes.now }
    ensures { IsFirstFrom (T.marked test.now) bytes.now at result }
{
    let begin = bytes.len() - LANES;
    let skipped = at - begin;
    let mask = test.marks_of(u8x16::from_slice(&bytes[begin..])) >> skipped;
    if mask == 0 {
        return bytes.len();
    }
    at + mask.trailing_zeros() as usize
}

/// The place of the first byte from `at` on that passes; the length of the bytes where none does.
#[inline(always)]
pub fn first_marked<T: ByteTest>(test: &T, bytes: &[u8], at: usize) -> usize
    requires within { at ≤ length bytes.now }
    ensures { IsFirstFrom (T.marked test.now) bytes.now at result }
{
    if bytes.len() < LANES {
        return first_by_bytes(test, bytes, at);
    }
    let mut place = at;
    while bytes.len() - place > LANES {
        let before = bytes_before(test, bytes, place);
        if before < LANES {
            return place + before;
        }
        place += LANES;
    }
    first_of_last(test, bytes, place)
}
