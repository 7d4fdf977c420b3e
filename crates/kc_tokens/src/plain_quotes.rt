//! Quoted texts without a backslash and a `$`.
ghost use Rattle.std.specs.Prelude.{◌<◌, length, IfSome};
ghost use Rattle.kc_tokens.specs.checker.QuoteStops.{is_quote_stop, IsPlainQuoted};

use kc_value::{ByteTest, first_marked};
use std::simd::prelude::*;

/// The test of the bytes that end the plain text after a quote: one like it, a backslash and a `$`.
#[derive(Clone, Copy)]
struct QuoteStop {
    quote: u8,
}

impl ByteTest for QuoteStop {
    ghost marked = { λ test c. is_quote_stop test.quote c };

    #[inline(always)]
    fn marks(&self, byte: u8) -> bool {
        byte == self.quote || byte == b'\\' || byte == b'$'
    }

    #[inline(always)]
    fn marks_of(&self, block: u8x16) -> u64 {
        let stops = block.simd_eq(u8x16::splat(self.quote))
            | block.simd_eq(u8x16::splat(b'\\'))
            | block.simd_eq(u8x16::splat(b'$'));
        stops.to_bitmask()
    }
}

/// The place of the closing quote of bytes that begin with a quote, if neither a backslash nor a `$` comes before it.
#[inline(always)]
pub(crate) fn plain_closing_quote(bytes: &[u8]) -> Option<usize>
    requires some { 0 < length bytes.now }
    ensures { IfSome result (λ place. IsPlainQuoted bytes.now place) }
{
    let quote = bytes[0];
    let place = first_marked(&QuoteStop { quote }, bytes, 1);
    if place < bytes.len() && bytes[place] == quote {
        return Some(place);
    }
    None
}
