//! Bytes that an expansion may act on or refuse: `$`, and those that aren't ASCII.
ghost use Rattle.std.specs.Prelude.{◌≡◌, ◌+◌, ◌≤◌, length, take, drop};
ghost use Rattle.kc_macro_lines.specs.checker.LinesWithoutMacros.{has_dollar_or_wide};

use std::simd::prelude::*;

/// How many bytes are looked at together.
const LANES: usize = 16;

/// Whether one of the `LANES` bytes from a place on is a `$` or isn't ASCII.
#[inline(always)]
fn block_has_mark(text: &[u8], at: usize) -> bool
    requires room { at + LANES ≤ length text.now }
    ensures { result ≡ has_dollar_or_wide (take LANES (drop at text.now)) }
{
    let bytes = u8x16::from_slice(&text[at..]);
    let marks = bytes.simd_eq(u8x16::splat(b'$')) | bytes.simd_ge(u8x16::splat(128));
    marks.to_bitmask() != 0
}

/// Whether a text of at least `LANES` bytes has a `$` or a byte that isn't ASCII. The last block may overlap the one before.
fn blocks_have_mark(text: &[u8]) -> bool
    requires long { LANES ≤ length text.now }
    ensures { result ≡ has_dollar_or_wide text.now }
{
    let last = text.len() - LANES;
    let mut at = 0;
    while at < last {
        if block_has_mark(text, at) {
            return true;
        }
        at += LANES;
    }
    block_has_mark(text, last)
}

/// The same of a text of any length, byte by byte.
fn bytes_have_mark(text: &[u8]) -> bool
    ensures { result ≡ has_dollar_or_wide text.now }
{
    let mut found = false;
    for byte in text {
        found |= *byte == b'$' || *byte >= 128;
    }
    found
}

/// Whether a text has a `$`, or a byte that isn't ASCII.
#[inline(always)]
pub(crate) fn has_dollar_or_wide(text: &[u8]) -> bool
    ensures { result ≡ has_dollar_or_wide text.now }
{
    if text.len() < LANES {
        return bytes_have_mark(text);
    }
    blocks_have_mark(text)
}
