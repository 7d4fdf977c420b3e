//! A reader and a writer over memory, for tests.
ghost use Rattle.std.specs.Prelude.{◌≡◌, [], Some, drop, take, min, ◌-◌, ◌≤◌, ◌<◌, vec_len, vec_capacity, length, IfOk};
ghost use Rattle.kmin_fakes.specs.declared.test_streams.Then.{Then};
ghost use Rattle.kmin_fakes.specs.declared.test_streams.Then.TheVariants.{End, Fail, FailOnce, Again};
ghost use Rattle.kmin_fakes.specs.TestScripts.{script_bytes_left};

use kc_value::{Failed, Sink, Source};
use std::alloc::{AllocError, Global};

/// The behaviour of a `Script` after its last byte: it ends, fails at each read, fails once and then ends, or begins again with
/// its first byte.
#[derive(Clone, Copy, Debug, PartialEq, Eq)]
pub enum Then {
    End,
    Fail,
    FailOnce,
    Again,
}

/// A reader for tests that gives the bytes of a list, at most `most` per read, and then ends, fails or begins again.
#[derive(Drop)]
pub struct Script {
    bytes: Vec<u8>,
    at: usize,
    most: usize,
    then: Then,
    failed: u64,
    ghost within: { at ≤ vec_len bytes },
    ghost gives: { 0 < most },
}

impl Script {
    /// A reader that gives `bytes`, at most `most` per read, and then behaves as `then` says.
    pub fn new(bytes: Vec<u8>, most: usize, then: Then) -> Script
        requires some { 0 < most }
        ensures left { ⟦<Script as Source>⟧.left result ≡ script_bytes_left then bytes.items }
        ensures failures { ⟦<Script as Source>⟧.failures result ≡ 0 }
    {
        Script {
            bytes,
            at: 0,
            most,
            then,
            failed: 0,
        }
    }

    /// How many reads failed so far.
    pub fn failed(&self) -> u64
        ensures { result ≡ ⟦<Script as Source>⟧.failures self.now }
    {
        self.failed
    }
}

impl Source for Script {
    ghost left = { λ s. script_bytes_left s.then (drop s.at s.bytes.items) };

    ghost failures = { λ s. s.failed };

    fn read_some(&mut self, buf: &mut [u8]) -> Result<usize, Failed> {
        if self.at == self.bytes.len() {
            match self.then {
                Then::End => return Ok(0),
                Then::Fail => {
                    self.failed = self.failed.saturating_add(1);
                    return Err(Failed);
                }
                Then::FailOnce => {
                    self.then = Then::End;
                    self.failed = self.failed.saturating_add(1);
                    return Err(Failed);
                }
                Then::Again => {
                    let n = copy_front(&self.bytes, self.most, buf);
                    self.at = n;
                    return Ok(n);
                }
            }
        }
        let n = copy_front(&self.bytes[self.at..], self.most, buf);
        self.at += n;
        Ok(n)
    }
}

/// Copies at most `most` bytes to the front of a buffer.
fn copy_front(bytes: &[u8], most: usize, buf: &mut [u8]) -> usize
    ensures count { result ≡ min (min (length bytes.now) most) (length buf.old) }
    ensures given { take result buf.new ≡ take result bytes.now }
{
    let n = bytes.len().min(most).min(buf.len());
    buf[..n].copy_from_slice(&bytes[..n]);
    n
}

/// What a writer of bounded room (`Bounded`) does at a write when it is full.
#[derive(Clone, Copy, Debug, PartialEq, Eq)]
pub(crate) enum Overflow {
    TakesNone,
    Fails,
    FailsOnce,
}

/// A writer for tests with a bounded room, allocated when it is created, that fails or takes no bytes when it is full.
#[derive(Drop)]
pub struct Bounded {
    bytes: Vec<u8>,
    limit: usize,
    room: usize,
    full: Overflow,
    failed: u64,
    ghost reserved: { vec_len bytes ≤ limit },
    ghost within: { limit ≤ room },
    ghost capacity: { room ≤ vec_capacity bytes },
}

impl Bounded {
    /// A writer that takes `room` bytes, and then fails at each write if `fails`, else takes no bytes. An `Err` means out of
    /// memory.
    pub fn new(alloc: Global, room: usize, fails: bool) -> Result<Bounded, AllocError>
        ensures taken { IfOk result (λ s. ⟦<Bounded as Sink>⟧.taken s ≡ Some []) }
        ensures failures { IfOk result (λ s. ⟦<Bounded as Sink>⟧.failures s ≡ 0) }
    {
        let full = if fails {
            Overflow::Fails
        } else {
            Overflow::TakesNone
        };
        Bounded::of(alloc, room, room, full)
    }

    /// A writer that takes up to `first` bytes, fails once, takes up to `room` bytes in all, and then fails at each write. An
    /// `Err` means out of memory.
    pub fn failing_once(alloc: Global, first: usize, room: usize) -> Result<Bounded, AllocError>
        requires within { first ≤ room }
        ensures taken { IfOk result (λ s. ⟦<Bounded as Sink>⟧.taken s ≡ Some []) }
        ensures failures { IfOk result (λ s. ⟦<Bounded as Sink>⟧.failures s ≡ 0) }
    {
        Bounded::of(alloc, first, room, Overflow::FailsOnce)
    }

    fn of(alloc: Global, limit: usize, room: usize, full: Overflow) -> Result<Bounded, AllocError>
        requires within { limit ≤ room }
        ensures taken { IfOk result (λ s. ⟦<Bounded as Sink>⟧.taken s ≡ Some []) }
        ensures failures { IfOk result (λ s. ⟦<Bounded as Sink>⟧.failures s ≡ 0) }
    {
        Ok(Bounded {
            bytes: Vec::with_capacity(alloc, room)?,
            limit,
            room,
            full,
            failed: 0,
        })
    }

    /// The bytes that the writer took, in order.
    pub fn bytes(&self) -> &[u8]
        ensures { ⟦<Bounded as Sink>⟧.taken self.now ≡ Some result.now }
    {
        &self.bytes
    }
}

impl Sink for Bounded {
    ghost taken = { λ s. Some s.bytes.items };

    ghost failures = { λ s. s.failed };

    fn write_some(&mut self, bytes: &[u8]) -> Result<usize, Failed> {
        let n = bytes.len().min(self.limit - self.bytes.len());
        if n == 0 && !bytes.is_empty() {
            self.failed = self.failed.saturating_add(1);
            match self.full {
                Overflow::TakesNone => return Ok(0),
                Overflow::Fails => return Err(Failed),
                Overflow::FailsOnce => {
                    self.full = Overflow::Fails;
                    self.limit = self.room;
                    return Err(Failed);
                }
            }
        }
        if self.bytes.extend_from_slice(&bytes[..n]).is_err() {
            self.failed = self.failed.saturating_add(1);
            return Err(Failed);
        }
        Ok(n)
    }
}
