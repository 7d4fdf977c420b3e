//! Matches of names and the pieces of patterns.
ghost use Rattle.std.specs.Prelude.{◌≡◌, ℕ, ◌+◌, ◌<◌, List, [], ◌∷◌, ◌||◌, ◌==◌, ◌&&◌, true, false, length, drop, slice_index, slice_index_or, IfOk};
ghost use Rattle.std.specs.List.{list_any};
ghost use Rattle.std.specs.Str.{is_utf8};
ghost use Rattle.kc_macros_model.specs.PathPatterns.{matches, is_writable_name, matches_name};
ghost use Rattle.kc_files.specs.checker.EndMatches.{HasEndMatches};

use kc_value::has_newline;
use std::alloc::{AllocError, Global};

/// For each end of a name of this length, whether it matches an empty piece.
fn ends_of_nothing(alloc: Global, len: usize) -> Result<Vec<bool>, AllocError>
    ensures ends { IfOk result (λ ends. (name : List ℕ) → length name ≡ len → HasEndMatches [] name ends.items) }
{
    let mut ends = vec![in alloc; false; len]?;
    ends.push(true)?;
    Ok(ends)
}

/// Turns the ends of a name that match a piece into those that match `*` and then the piece: the ends of which some end
/// matches the piece.
fn pass_any_bytes(ends: &mut [bool])
    ensures { (k : ℕ) → k < length ends.old → slice_index_or ends.new k false ≡ list_any (λ b. b) (drop k ends.old) }
{
    let mut at = ends.len();
    let mut some = false;
    while at > 0 {
        at -= 1;
        some = ends[at] || some;
        ends[at] = some;
    }
}

/// Turns the ends of a name that match a piece into those that match this byte, which may be `?`, and then the piece.
fn pass_byte(ends: &mut [bool], byte: u8, name: &[u8])
    requires same_length { length ends.old ≡ length name.now + 1 }
    ensures bytes { (k : ℕ) → k < length name.now → slice_index_or ends.new k false ≡ ((byte == slice_index name.now k || (byte == 63)) && slice_index_or ends.old (k + 1) false) }
    ensures end { slice_index_or ends.new (length name.now) false ≡ false }
{
    for at in 0..name.len() {
        ends[at] = (byte == name[at] || byte == b'?') && ends[at + 1];
    }
    ends[name.len()] = false;
}

/// Turns the ends of a name that match a piece into those that match this byte of a pattern and then the piece.
fn pass(ends: &mut [bool], byte: u8, name: &[u8])
    requires same_length { length ends.old ≡ length name.now + 1 }
    ensures matches { (piece : List ℕ) → HasEndMatches piece name.now ends.old → HasEndMatches (byte ∷ piece) name.now ends.new }
{
    if byte == b'*' {
        pass_any_bytes(ends);
    } else {
        pass_byte(ends, byte, name);
    }
}

/// Whether the name of a file or folder matches a piece of a pattern, by `*` and `?`. The work is the product of their lengths.
///
/// # Errors
///
/// Memory runs out.
pub(crate) fn matches(alloc: Global, piece: &[u8], name: &[u8]) -> Result<bool, AllocError>
    ensures { IfOk result (λ matched. matched ≡ matches piece.now name.now) }
{
    let mut ends = ends_of_nothing(alloc, name.len())?;
    let mut left = piece.len();
    while left > 0 {
        left -= 1;
        pass(&mut ends, piece[left], name);
    }
    Ok(ends[0])
}

/// Whether bytes are UTF-8.
pub fn is_utf8(bytes: &[u8]) -> bool
    ensures { result ≡ is_utf8 bytes.now }
{
    match std::str::from_utf8(bytes) {
        Ok(_) => true,
        Err(_) => false,
    }
}

/// Whether a line can have this name of a file.
fn is_writable_name(name: &[u8]) -> bool
    ensures { result ≡ is_writable_name name.now }
{
    is_utf8(name) && !has_newline(name)
}

/// Whether a text begins with a dot.
fn begins_with_dot(text: &[u8]) -> bool
    ensures { result ≡ (slice_index text.now 0 == 46) }
{
    match text.first() {
        Some(byte) => *byte == b'.',
        None => false,
    }
}

/// Whether the name of a file or folder matches a piece of a pattern. A name that begins with a dot matches only a piece that
/// does, and one that isn't UTF-8 or has a newline matches none.
///
/// # Errors
///
/// Memory runs out.
pub(crate) fn matches_name(alloc: Global, piece: &[u8], name: &[u8]) -> Result<bool, AllocError>
    ensures { IfOk result (λ matched. matched ≡ matches_name piece.now name.now) }
{
    if !is_writable_name(name) || (begins_with_dot(name) && !begins_with_dot(piece)) {
        return Ok(false);
    }
    matches(alloc, piece, name)
}
