//! Reading the bytes of a reader into memory.
ghost use Rattle.std.specs.Prelude.{◌≡◌, ◌≢◌, ◌<◌, ◌≤◌, length, IfOk, OnErr};
ghost use Rattle.std.specs.Io.KnownBytes.{Consumes, IsAtEnd};
ghost use Rattle.kc_value.specs.ReaderFailures.{failures_after_reading};

use super::limits::MAX_BLOCK_BYTES;
use super::streams::Source;
use std::alloc::{AllocError, Global};

/// Why reading into memory (`read_up_to`) ended.
#[derive(Clone, Copy, Debug, PartialEq, Eq)]
pub enum ReadEnd {
    /// The reader has no bytes left.
    AtEnd,
    /// As many bytes were read as the limit allows.
    AtLimit,
    /// A read failed.
    AtFailure,
}

/// The bytes that were read from a reader, and why reading ended.
#[derive(Drop)]
pub struct ReadBytes {
    /// The bytes that were read, in order.
    pub bytes: Vec<u8>,
    /// Why reading ended.
    pub end: ReadEnd,
}

/// Reads the bytes that a reader has left, up to `limit` in all, into memory of `capacity` bytes at first, by way of `block`. Ends at
/// the first read that fails. An `Err` means out of memory, and leaves the reader at an unstated place.
pub fn read_up_to<S: Source>(
    alloc: Global,
    source: &mut S,
    limit: usize,
    capacity: usize,
    block: &mut [u8; MAX_BLOCK_BYTES],
) -> Result<ReadBytes, AllocError>
    ensures bytes { IfOk result (λ read. Consumes (S.left source.old) (S.left source.new) read.bytes.items) }
    ensures within { IfOk result (λ read. length read.bytes.items ≤ limit) }
    ensures at_end { IfOk result (λ read. read.end ≡ ReadEnd.AtEnd → IsAtEnd (S.left source.new)) }
    ensures at_limit { IfOk result (λ read. read.end ≡ ReadEnd.AtLimit → length read.bytes.items ≡ limit) }
    ensures before_limit { IfOk result (λ read. read.end ≢ ReadEnd.AtLimit → length read.bytes.items < limit) }
    ensures failures { IfOk result (λ read. S.failures source.new ≡ failures_after_reading (S.failures source.old) read.end) }
    ensures unfailed { OnErr result (S.failures source.new ≡ S.failures source.old) }
{
    let mut bytes = Vec::with_capacity(alloc, capacity)?;
    while bytes.len() < limit {
        let most = (limit - bytes.len()).min(MAX_BLOCK_BYTES);
        let Ok(count) = source.read_some(&mut block[..most]) else {
            let end = ReadEnd::AtFailure;
            return Ok(ReadBytes { bytes, end });
        };
        if count == 0 {
            let end = ReadEnd::AtEnd;
            return Ok(ReadBytes { bytes, end });
        }
        bytes.extend_from_slice(&block[..count])?;
    }
    let end = ReadEnd::AtLimit;
    Ok(ReadBytes { bytes, end })
}
