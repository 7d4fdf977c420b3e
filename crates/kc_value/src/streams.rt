//! Readers and writers: their known bytes, and how many of their calls failed.
ghost use Rattle.std.specs.Prelude.{◌≡◌, ℕ, List, Option};
ghost use Rattle.std.specs.Io.{ReadsAtMost, WritesAtMost};
ghost use Rattle.std.specs.Io.KnownBytes.{ReadConsumes, WriteAppends};
ghost use Rattle.kc_value.specs.Streams.{failures_after_read, failures_after_write};

use std::io::{ErrorKind, Read, Write};

/// The error of a read or a write that failed.
#[derive(Clone, Copy, Debug, PartialEq, Eq)]
pub struct Failed;

/// A reader of bytes. Contracts see the bytes that it has left, if they are known, and how many of its reads failed.
pub trait Source {
    /// The bytes that the reader has left, if they are known.
    ghost left: { Self → Option (List ℕ) };

    /// How many reads of the reader failed, up to 2^64 - 1.
    ghost failures: { Self → ℕ };

    /// Reads some bytes to the front of `buf`, and returns their count, which for a buffer that isn't empty is 0 only at the end.
    fn read_some(&mut self, buf: &mut [u8]) -> Result<usize, Failed>
        ensures bound { ReadsAtMost result buf.new }
        ensures bytes { ReadConsumes (left self.old) (left self.new) result buf.new }
        ensures failures { failures self.new ≡ failures_after_read (failures self.old) result };
}

/// A writer of bytes. Contracts see the bytes that it took, if they are known, and how many of its writes failed.
pub trait Sink {
    /// The bytes that the writer took, if they are known.
    ghost taken: { Self → Option (List ℕ) };

    /// How many writes of the writer failed or took none of one or more bytes, up to 2^64 - 1.
    ghost failures: { Self → ℕ };

    /// Writes some bytes from the front of `bytes`. A failed write takes nothing.
    fn write_some(&mut self, bytes: &[u8]) -> Result<usize, Failed>
        ensures bound { WritesAtMost result bytes.now }
        ensures bytes { WriteAppends (taken self.old) (taken self.new) result bytes.now }
        ensures failures { failures self.new ≡ failures_after_write (failures self.old) result bytes.now };
}

/// A reader of the standard library (`Read`) as a `Source`, with the count of its failed reads.
#[derive(Drop)]
pub struct FromRead<R> {
    inner: R,
    failed: u64,
}

impl<R: Read> FromRead<R> {
    /// Wraps a reader of the standard library; its count of failed reads begins at 0.
    pub fn new(inner: R) -> FromRead<R>
        ensures left { ⟦<FromRead<R> as Source>⟧.left result ≡ R.remaining inner }
        ensures failures { ⟦<FromRead<R> as Source>⟧.failures result ≡ 0 }
    {
        FromRead { inner, failed: 0 }
    }

    /// How many reads of the reader failed, up to 2^64 - 1.
    pub fn failed_reads(&self) -> u64
        ensures { result ≡ ⟦<FromRead<R> as Source>⟧.failures self.now }
    {
        self.failed
    }
}

impl<R: Read> Source for FromRead<R> {
    ghost left = { λ s. R.remaining s.inner };

    ghost failures = { λ s. s.failed };

    fn read_some(&mut self, buf: &mut [u8]) -> Result<usize, Failed> {
        match self.inner.read(buf) {
            Ok(n) => Ok(n),
            Err(_) => {
                self.failed = self.failed.saturating_add(1);
                Err(Failed)
            }
        }
    }
}

/// A writer of the standard library (`Write`) as a `Sink`, with the count of its failed writes, and whether the last of them was one
/// into a pipe that nobody reads any more.
#[derive(Drop)]
pub struct ToWrite<W> {
    inner: W,
    failed: u64,
    is_closed: bool,
}

impl<W: Write> ToWrite<W> {
    /// Wraps a writer of the standard library; its count of failed writes begins at 0.
    pub fn new(inner: W) -> ToWrite<W>
        ensures taken { ⟦<ToWrite<W> as Sink>⟧.taken result ≡ W.contents inner }
        ensures failures { ⟦<ToWrite<W> as Sink>⟧.failures result ≡ 0 }
    {
        ToWrite {
            inner,
            failed: 0,
            is_closed: false,
        }
    }

    /// Whether the last failed write was one into a closed pipe.
    pub fn is_closed(&self) -> bool {
        self.is_closed
    }
}

impl<W: Write> Sink for ToWrite<W> {
    ghost taken = { λ s. W.contents s.inner };

    ghost failures = { λ s. s.failed };

    fn write_some(&mut self, bytes: &[u8]) -> Result<usize, Failed> {
        match self.inner.write(bytes) {
            Ok(n) => {
                if n == 0 && !bytes.is_empty() {
                    self.failed = self.failed.saturating_add(1);
                }
                Ok(n)
            }
            Err(error) => {
                self.is_closed = error.kind() == ErrorKind::BrokenPipe;
                self.failed = self.failed.saturating_add(1);
                Err(Failed)
            }
        }
    }
}
