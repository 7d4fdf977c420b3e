//! Suggestions of names for mistyped words.
ghost use Rattle.std.specs.Prelude.{◌≡◌, ℕ, List, map, option_map, IfOk};
ghost use Rattle.std.specs.Borrow.{Bor};
ghost use Rattle.kmin_cli.specs.Names.{first_near, nearest, with_tip};

use std::alloc::{AllocError, Global};
use strsim::osa_distance;

/// Inserts a tip after the first line of a message: that the similar name `name` exists.
pub(crate) fn with_tip(alloc: Global, message: &str, name: &str) -> Result<String, AllocError>
    ensures { IfOk result (λ text. text.bytes.items ≡ with_tip name.now message.now) }
{
    let Some((first, rest)) = message.split_once('\n') else {
        return String::from_str(alloc, message);
    };
    let mut text = String::from_str(alloc, first)?;
    text.push_str("\n\n  tip: a similar name exists: '")?;
    text.push_str(name)?;
    text.push_str("'\n")?;
    text.push_str(rest)?;
    Ok(text)
}

/// The first of `names` at most one edit from a word, or if there is none and the word has six bytes or more, at most two. An
/// edit adds, drops or changes a character, or swaps two neighbours.
pub(crate) fn nearest<'n>(
    alloc: Global,
    word: &str,
    names: &[&'n str],
) -> Result<Option<&'n str>, AllocError>
    ensures { IfOk result (λ found. option_map (λ (name : Bor (List ℕ)). name.now) found ≡ nearest word.now (map (λ (name : Bor (List ℕ)). name.now) names.now)) }
{
    let found = first_near(alloc, word, names, 1)?;
    if found.is_some() || word.len() < 6 {
        return Ok(found);
    }
    first_near(alloc, word, names, 2)
}

/// The first name at most `most` edits from a word.
fn first_near<'n>(
    alloc: Global,
    word: &str,
    names: &[&'n str],
    most: usize,
) -> Result<Option<&'n str>, AllocError>
    ensures { IfOk result (λ found. option_map (λ (name : Bor (List ℕ)). name.now) found ≡ first_near word.now most (map (λ (name : Bor (List ℕ)). name.now) names.now)) }
{
    for name in names {
        if osa_distance(alloc, word, name)? <= most {
            return Ok(Some(name));
        }
    }
    Ok(None)
}
