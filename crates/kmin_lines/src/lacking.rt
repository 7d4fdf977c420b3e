//! The lines of a text that another text lacks.
ghost use Rattle.std.specs.Prelude.{◌≡◌, IfOk};
ghost use Rattle.kmin_lines.specs.LackingLines.{lacking_lines};
ghost use Rattle.kmin_lines.specs.between.Texts.{texts_of};

use crate::line_bag::LineBag;
use crate::pieces::{first_piece, trim_carriage_return};
use kc_value::Seed;
use std::alloc::{AllocError, Global};

/// The lines of a text that the text `other` lacks, in their order and without carriage returns at their ends: each line of `other`
/// matches at most one equal line, the first that is left. Lines are hashed by `seed`. Takes time in proportion to the lengths of the
/// texts.
///
/// # Errors
///
/// `AllocError` if memory runs out.
pub fn lacking_lines<'a>(
    alloc: Global,
    seed: Seed,
    text: &'a [u8],
    other: &'a [u8],
) -> Result<Vec<&'a [u8]>, AllocError>
    ensures { IfOk result (λ lines. texts_of lines.items ≡ lacking_lines text.now other.now) }
{
    let mut bag = LineBag::of(alloc, seed, other)?;
    let mut lacking = Vec::new(alloc);
    let mut rest = text;
    while let Some((piece, after)) = first_piece(rest, b'\n') {
        let line = trim_carriage_return(piece);
        if !bag.take(line)? {
            lacking.push(line)?;
        }
        rest = after;
    }
    Ok(lacking)
}
