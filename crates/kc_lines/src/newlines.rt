//! The newlines of a file, looked for in many bytes at once.
ghost use Rattle.std.specs.Prelude.{◌==◌, ◌≤◌, length};
ghost use Rattle.kc_lines.specs.checker.Newlines.{IsNewlineFrom};

use kc_value::{ByteTest, first_marked};
use std::simd::prelude::*;

/// The test whether a byte is a newline.
#[derive(Clone, Copy)]
struct Newline;

impl ByteTest for Newline {
    ghost marked = { λ test c. c == 10 };

    #[inline(always)]
    fn marks(&self, byte: u8) -> bool {
        byte == b'\n'
    }

    #[inline(always)]
    fn marks_of(&self, block: u8x16) -> u64 {
        block.simd_eq(u8x16::splat(b'\n')).to_bitmask()
    }
}

/// The place of the first newline from `at` on; the length of the bytes where there is none.
#[inline(always)]
pub(crate) fn newline_from(bytes: &[u8], at: usize) -> usize
    requires within { at ≤ length bytes.now }
    ensures { IsNewlineFrom bytes.now at result }
{
    first_marked(&Newline, bytes, at)
}
