//! A reader of bytes in memory.
ghost use Rattle.std.specs.Prelude.{◌≡◌, Some};

use kc_value::{Failed, Source};

/// A reader of bytes in memory, of which no read fails.
#[derive(Drop)]
pub struct MemoryReader<'a> {
    rest: &'a [u8],
}

impl<'a> MemoryReader<'a> {
    /// A reader that has these bytes left.
    pub fn new(bytes: &'a [u8]) -> MemoryReader<'a>
        ensures { ⟦<MemoryReader<'a> as Source>⟧.left result ≡ Some bytes.entry.now }
    {
        MemoryReader { rest: bytes }
    }
}

impl Source for MemoryReader<'_> {
    ghost left = { λ s. Some s.rest.now };

    ghost failures = { λ _. 0 };

    fn read_some(&mut self, buf: &mut [u8]) -> Result<usize, Failed> {
        let count = self.rest.len().min(buf.len());
        let (front, rest) = self.rest.split_at(count);
        buf[..count].copy_from_slice(front);
        self.rest = rest;
        Ok(count)
    }
}
