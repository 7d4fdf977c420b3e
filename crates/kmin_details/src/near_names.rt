//! The name nearest to a word.
ghost use Rattle.std.specs.Prelude.{◌≡◌, ◌≤◌, ℕ, List, map, option_map, IfOk};
ghost use Rattle.std.specs.Borrow.{Bor};
ghost use Rattle.kmin_details.specs.NearNames.{changes, nearest};
ghost use Rattle.kmin_details.specs.between.FewestChanges.{changes_or_limit};

use std::alloc::{AllocError, Global};
use strsim::generic_levenshtein;

/// The name nearest to a word: the first of those with the fewest changes, of 1 to 3. A change adds, drops or replaces a byte.
pub fn nearest<'n>(
    alloc: Global,
    word: &str,
    names: &[&'n str],
) -> Result<Option<&'n str>, AllocError>
    ensures { IfOk result (λ found. option_map (λ (name : Bor (List ℕ)). name.now) found ≡ nearest word.now (map (λ (name : Bor (List ℕ)). name.now) names.now)) }
{
    let mut found = None;
    let mut fewest = 4;
    for name in names {
        let count = changes_below(alloc, word, name, fewest)?;
        if count < fewest {
            found = Some(*name);
            fewest = count;
        }
    }
    Ok(found)
}

/// The number of changes that lead from a word to a name, if it is less than a limit and not 0; else the limit. Names whose
/// lengths differ by as much as the limit aren't compared.
fn changes_below(alloc: Global, word: &str, name: &str, limit: usize) -> Result<usize, AllocError>
    ensures { IfOk result (λ count. count ≡ changes_or_limit (changes word.now name.now) limit) }
{
    if limit <= 1 || word.len().abs_diff(name.len()) >= limit {
        return Ok(limit);
    }
    let count = generic_levenshtein(alloc, word.as_bytes(), name.as_bytes())?;
    if count == 0 || count > limit {
        return Ok(limit);
    }
    Ok(count)
}
