//! The text of what conditions lack.
ghost use Rattle.std.specs.Prelude.{◌≡◌, ◌++◌, map, All, OnOk};
ghost use Rattle.std.specs.Global.{Vec};
ghost use Rattle.kc_reasons.specs.between.Parts.{part_view, IsThere};
ghost use Rattle.kc_located_reasons.specs.between.PartsView.{IsPartThere, ArePartsThere};
ghost use Rattle.kc_located_reasons.specs.declared.located_parts.LocatedPart.{LocatedPart};
ghost use Rattle.kc_explanation.specs.Explained.{low_part_text};
ghost use Rattle.kc_explanation.specs.checker.Contexts.{exprs_of, names_of};
ghost use Rattle.kc_explanation.specs.checker.PartLines.{part_text, part_line, part_lines};

use super::context::Context;
use super::place_texts::push_place;
use super::token_texts::push_expression;
use super::words::wanted_text;
use kc_located_reasons::LocatedPart;
use kc_reasons::LowPart;
use std::alloc::AllocError;

/// Appends a part of a condition that is too low, and where it is `m` that `y` is wanted of it.
fn push_low_part(out: &mut Vec<u8>, by: &Context<'_>, part: LowPart) -> Result<(), AllocError>
    requires there { IsThere (exprs_of by.now) part }
    ensures { OnOk result (out.new.items ≡ out.old.items ++ low_part_text by.now.strings (names_of by.now) (part_view (exprs_of by.now) part)) }
{
    push_expression(out, by, part.expr)?;
    let value = by.under.condition(part.expr);
    out.extend_from_slice(wanted_text(value, part.wanted).as_bytes())
}

/// Appends a part of a condition that is too low, and the place of its line.
fn push_part(out: &mut Vec<u8>, by: &Context<'_>, part: LocatedPart) -> Result<(), AllocError>
    requires there { IsPartThere (exprs_of by.now) part }
    ensures { OnOk result (out.new.items ≡ out.old.items ++ part_text by.now part) }
{
    push_low_part(out, by, part.part)?;
    push_place(out, by.paths, part.at)
}

/// Appends a line of parts that are all needed, after a word.
fn push_part_line(
    out: &mut Vec<u8>,
    by: &Context<'_>,
    word: &[u8],
    parts: &[LocatedPart],
) -> Result<(), AllocError>
    requires there { All (IsPartThere (exprs_of by.now)) parts.now }
    ensures { OnOk result (out.new.items ≡ out.old.items ++ part_line word.now (map (part_text by.now) parts.now)) }
{
    out.extend_from_slice(b"  ")?;
    let mut lead = word;
    for part in parts {
        out.extend_from_slice(lead)?;
        push_part(out, by, *part)?;
        lead = b" and ";
    }
    out.extend_from_slice(b"\n")?;
    Ok(())
}

/// Appends a line for each alternative: the first begins with a word, the others with `or`.
pub(crate) fn push_part_lines(
    out: &mut Vec<u8>,
    by: &Context<'_>,
    word: &[u8],
    lists: &[Vec<LocatedPart>],
) -> Result<(), AllocError>
    requires there { ArePartsThere (exprs_of by.now) lists.now }
    ensures { OnOk result (out.new.items ≡ out.old.items ++ part_lines word.now (map (λ (v : Vec LocatedPart). map (part_text by.now) v.items) lists.now)) }
{
    let mut lead = word;
    for list in lists {
        push_part_line(out, by, lead, list)?;
        lead = b"or ";
    }
    Ok(())
}
