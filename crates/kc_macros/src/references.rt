//! References in a text: where one begins and ends, and its pieces.
ghost use Rattle.std.specs.Prelude.{◌≡◌, ◌==◌, ◌&&◌, ◌<◌, ◌≤◌, ◌+◌, ◌^◌, Bool, List, true, false, ◌∷◌, ◌++◌, drop, take, length, map, IfOk, IfSome, IfNone};
ghost use Rattle.kc_macros_model.specs.References.{Item, item_bytes, open_after, inside_length, pieces, byte, reference, unterminated, items};
ghost use Rattle.kc_macros_model.specs.ExpansionRules.{begins_reference};
ghost use Rattle.kc_macros.specs.between.SliceTexts.{texts_of_slices};
ghost use Rattle.kc_macros.specs.checker.Pieces.{pieces_from};

use std::alloc::{AllocError, Global};

/// How many parentheses are open after a byte.
fn open_after(byte: u8, depth: usize) -> usize
    requires small { depth < 2 ^ 63 }
    ensures value { result ≡ open_after byte depth }
    ensures few { result ≤ depth + 1 }
{
    match byte {
        b'(' => depth + 1,
        b')' => depth.saturating_sub(1),
        _ => depth,
    }
}

/// Whether a byte is this one outside parentheses.
fn is_outside(byte: u8, other: u8, depth: usize) -> bool
    ensures { result ≡ (byte == other && (depth == 0)) }
{
    byte == other && depth == 0
}

/// How many bytes a reference has between its parentheses, given the text after its `$(`; `None` if it has no `)` of its own,
/// which is the first one that closes no `(` of that text.
pub fn inside_length(text: &[u8]) -> Option<usize>
    ensures value { result ≡ inside_length 0 text.now }
    ensures within { IfSome result (λ n. n < length text.now) }
{
    let mut depth = 0;
    'bytes: for i in 0..text.len() {
        let byte = text[i];
        if is_outside(byte, b')', depth) {
            return Some(i);
        }
        depth = open_after(byte, depth);
    }
    None
}

/// How many bytes the first piece of a reference has: those before the first comma outside parentheses.
fn piece_length(inside: &[u8]) -> usize
    ensures within { result ≤ length inside.now }
    ensures pieces { pieces 0 inside.now ≡ pieces_from result inside.now }
{
    let mut depth = 0;
    'bytes: for i in 0..inside.len() {
        let byte = inside[i];
        if is_outside(byte, b',', depth) {
            return i;
        }
        depth = open_after(byte, depth);
    }
    inside.len()
}

/// The pieces of a reference, by the bytes between its parentheses: a name and its arguments, separated by commas.
pub(crate) fn pieces(alloc: Global, inside: &[u8]) -> Result<Vec<&[u8]>, AllocError>
    ensures { IfOk result (λ ps. texts_of_slices ps.items ≡ pieces 0 inside.now) }
{
    let mut pieces = Vec::new(alloc);
    let mut rest = inside;
    'pieces: loop {
        let n = piece_length(rest);
        pieces.push(&rest[..n])?;
        if n >= rest.len() {
            return Ok(pieces);
        }
        rest = &rest[n..];
        rest = &rest[1..];
    }
}

/// Whether a macro reference, `$(`, begins at place `at` of a text, counted from 0.
pub fn begins_reference_at(text: &[u8], at: usize) -> bool
    requires there { at < length text.now }
    ensures value { result ≡ begins_reference (drop at text.now) }
{
    text[at] == b'$' && at + 1 < text.len() && text[at + 1] == b'('
}

/// How many bytes come before the first `$(` of a text; all if it has none.
pub(crate) fn plain_length(text: &[u8]) -> usize
    ensures within { result ≤ length text.now }
    ensures items { items false 0 text.now ≡ map byte (take result text.now) ++ items false 0 (drop result text.now) }
    ensures reference { result < length text.now → begins_reference (drop result text.now) ≡ true }
{
    'bytes: for i in 0..text.len() {
        if begins_reference_at(text, i) {
            return i;
        }
    }
    text.len()
}

/// The bytes between the parentheses of the reference at the front of a text, and those after it; `None` if its `)` is missing.
pub fn reference_at_front(text: &[u8]) -> Option<(&[u8], &[u8])>
    requires begins { begins_reference text.now ≡ true }
    ensures reference { IfSome result (λ r. (q : Bool) → items q 0 text.now ≡ reference r.0.now ∷ items q 0 r.1.now) }
    ensures shorter { IfSome result (λ r. length r.1.now < length text.now) }
    ensures front { IfSome result (λ r. take (length r.0.now + 3) text.now ≡ item_bytes (reference r.0.now)) }
    ensures fits { IfSome result (λ r. length r.0.now + 3 ≤ length text.now) }
    ensures unterminated { IfNone result ((q : Bool) → (more : List Item) × (items q 0 text.now ≡ unterminated (drop 2 text.now) ∷ more)) }
{
    let after = &text[2..];
    match inside_length(after) {
        Some(n) => Some((&after[..n], &after[n + 1..])),
        None => None,
    }
}
