//! Counts of the lines in which two texts differ.
ghost use Rattle.std.specs.Prelude.{◌≡◌, IfOk};
ghost use Rattle.kmin_lines.specs.Lines.{count_lines_not_in};

use crate::lacking::lacking_lines;
use kc_value::Seed;
use std::alloc::{AllocError, Global};

/// How many lines of an old text aren't in a new one, and how many of the new text aren't in the old one.
#[derive(Clone, Copy, Debug, PartialEq, Eq)]
pub struct LineCounts {
    /// The number of lines of the old text that aren't in the new text.
    pub out: usize,
    /// The number of lines of the new text that aren't in the old text.
    pub in_: usize,
}

/// Counts the lines of each of two texts that aren't in the other; each line matches at most one equal line of the other text.
/// The order of lines doesn't count, nor do carriage returns at their ends. Lines are hashed by `seed`. Takes time in
/// proportion to the lengths of the texts.
///
/// # Errors
///
/// `AllocError` if memory runs out.
pub fn count_lines(
    alloc: Global,
    seed: Seed,
    old: &[u8],
    new: &[u8],
) -> Result<LineCounts, AllocError>
    ensures out { IfOk result (λ counts. counts.out ≡ count_lines_not_in old.now new.now) }
    ensures in_ { IfOk result (λ counts. counts.in_ ≡ count_lines_not_in new.now old.now) }
{
    let out = lines_not_in(alloc, seed, old, new)?;
    let in_ = lines_not_in(alloc, seed, new, old)?;
    Ok(LineCounts { out, in_ })
}

/// How many lines of the text `text` aren't in the text `other`, where each line of `other` matches at most one equal line.
fn lines_not_in(alloc: Global, seed: Seed, text: &[u8], other: &[u8]) -> Result<usize, AllocError>
    ensures { IfOk result (λ count. count ≡ count_lines_not_in text.now other.now) }
{
    Ok(lacking_lines(alloc, seed, text, other)?.len())
}
