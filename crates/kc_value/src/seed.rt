//! How names are hashed.
ghost use Rattle.std.specs.Prelude.{◌≡◌, ◌<◌, ◌≤◌, ◌^◌, length, take};
ghost use Rattle.kc_value.specs.NameHash as hashing;

use std::hash::{BuildHasher, Hasher};

/// The prime 2^61 - 1, whose bits are all 1.
const PRIME: u64 = 0x1FFF_FFFF_FFFF_FFFF;

/// The bits of a key, which is below 2^60.
const KEY_BITS: u64 = 0x0FFF_FFFF_FFFF_FFFF;

/// A hash of names: the value of a polynomial at a key, modulo the prime 2^61 - 1. Its coefficients are the name's bytes, seven at a
/// time, so two names of `n` bytes have the same value at `n / 7 + 2` keys at most, whatever the names are.
#[derive(Clone, Copy)]
pub struct NameHasher {
    key: u64,
    value: u64,
}

/// The number of seven bytes at the front of a text, the first lowest, with a 1 above the last.
#[inline(always)]
fn whole_coefficient(bytes: &[u8]) -> u64
    requires long { 7 < length bytes.now }
    ensures value { result ≡ hashing.coefficient (take 7 bytes.now) }
    ensures small { result < 2 ^ 57 }
{
    u64::from_le_bytes([
        bytes[0], bytes[1], bytes[2], bytes[3], bytes[4], bytes[5], bytes[6], 1,
    ])
}

/// The number of up to seven bytes, the first lowest, with a 1 above the last.
#[inline(always)]
fn coefficient(bytes: &[u8]) -> u64
    requires short { length bytes.now ≤ 7 }
    ensures value { result ≡ hashing.coefficient bytes.now }
    ensures small { result < 2 ^ 57 }
{
    let mut number = 1;
    let mut at = bytes.len();
    while at > 0 {
        at -= 1;
        number = number * 256 + bytes[at] as u64;
    }
    number
}

/// The value of a polynomial with one more coefficient.
#[inline(always)]
fn with_coefficient(key: u64, value: u64, next: u64) -> u64
    requires small { next < 2 ^ 57 }
    ensures { result ≡ hashing.with_coefficient key value next }
{
    let sum = (value & PRIME) + next;
    let product = sum as u128 * (key & KEY_BITS) as u128;
    let folded = (product & 0x1FFF_FFFF_FFFF_FFFF) as u64 + (product >> 61) as u64;
    if folded >= PRIME {
        folded - PRIME
    } else {
        folded
    }
}

/// The value of a polynomial with the coefficients of further bytes.
#[inline(always)]
fn with_bytes(key: u64, value: u64, bytes: &[u8]) -> u64
    ensures { result ≡ hashing.with_bytes key value bytes.now }
{
    let mut value = value;
    let mut rest = bytes;
    while rest.len() > 7 {
        value = with_coefficient(key, value, whole_coefficient(rest));
        rest = &rest[7..];
    }
    with_coefficient(key, value, coefficient(rest))
}

impl Hasher for NameHasher {
    ghost write = { hashing.given };

    ghost finish = { hashing.hash_of };

    #[inline(always)]
    fn write(&mut self, bytes: &[u8]) {
        self.value = with_bytes(self.key, self.value, bytes);
    }

    // texts end with a byte of their own, and paths are given byte by byte
    #[inline(always)]
    fn write_u8(&mut self, i: u8) {
        self.value = with_coefficient(self.key, self.value, i as u64 + 256);
    }

    #[inline(always)]
    fn finish(&self) -> u64 {
        self.value & 0xFFFF_FFFF
    }
}

/// The seed of a hash function. If it is random in each run, nobody can choose names whose hashes collide.
#[derive(Clone, Copy)]
pub struct Seed {
    start: NameHasher,
}

impl Seed {
    /// A fixed seed, which is the same in each run.
    pub fn fixed() -> Seed {
        Seed::of(0x9E37_79B9_7F4A_7C15, 0)
    }

    /// The seed that two numbers determine.
    pub fn of(first: u64, second: u64) -> Seed {
        Seed {
            start: NameHasher {
                key: first ^ second,
                value: 0,
            },
        }
    }
}

impl BuildHasher for Seed {
    type Hasher = NameHasher;

    ghost build_hasher = { λ s. s.start };

    fn build_hasher(&self) -> NameHasher {
        self.start
    }
}
