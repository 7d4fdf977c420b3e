//! The inner lines of a text, in one line.
ghost use Rattle.std.specs.Prelude.{◌≡◌, ◌++◌, drop, OnOk};
ghost use Rattle.kc_value.specs.Lines.{pieces};
ghost use Rattle.kmin_missed.specs.MissedLines.{in_one_line};

use kmin_lines::first_piece;
use std::alloc::AllocError;

/// A line without the two spaces before it.
fn without_spaces(line: &[u8]) -> &[u8]
    ensures { result.now ≡ drop 2 line.now }
{
    if line.len() < 2 {
        &line[line.len()..]
    } else {
        &line[2..]
    }
}

/// Appends the inner lines of a text in one line: the first after `front`, each further one after `; `.
pub(crate) fn push_in_one_line(
    out: &mut Vec<u8>,
    front: &[u8],
    text: &[u8],
) -> Result<(), AllocError>
    ensures { OnOk result (out.new.items ≡ out.old.items ++ in_one_line front.now (pieces 10 text.now)) }
{
    let mut lead = front;
    let mut rest = text;
    while let Some((line, after)) = first_piece(rest, b'\n') {
        out.extend_from_slice(lead)?;
        out.extend_from_slice(without_spaces(line))?;
        lead = b"; ";
        rest = after;
    }
    Ok(())
}
