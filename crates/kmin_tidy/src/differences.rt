//! The lines of standard output: how a file differs from its minimal file.
ghost use Rattle.std.specs.Prelude.{◌≡◌, ◌++◌, codes, OnOk};
ghost use Rattle.std.specs.Fmt.{decimal};
ghost use Rattle.kmin_tidy.specs.Reports.{counted, difference, difference_line};

use itoa::Buffer;
use kc_value::Seed;
use kmin_lines::{LineCounts, count_lines, have_same_lines};
use std::alloc::{AllocError, Global};

/// Appends to `text` the line of standard output for a file of these bytes, which aren't those of its minimal file `minimal_bytes`.
pub(crate) fn push_difference_line(
    alloc: Global,
    seed: Seed,
    path: &str,
    bytes: &[u8],
    minimal_bytes: &[u8],
    text: &mut Vec<u8>,
) -> Result<(), AllocError>
    ensures { OnOk result (text.new.items ≡ text.old.items ++ difference_line path.now bytes.now minimal_bytes.now) }
{
    text.extend_from_slice(path.as_bytes())?;
    text.extend_from_slice(b": ")?;
    push_difference(alloc, seed, bytes, minimal_bytes, text)?;
    text.extend_from_slice(b"\n")?;
    Ok(())
}

/// Appends how a file of these bytes differs from its minimal file `minimal_bytes`: `line ends`, or how its lines do.
fn push_difference(
    alloc: Global,
    seed: Seed,
    bytes: &[u8],
    minimal_bytes: &[u8],
    text: &mut Vec<u8>,
) -> Result<(), AllocError>
    ensures { OnOk result (text.new.items ≡ text.old.items ++ difference bytes.now minimal_bytes.now) }
{
    if have_same_lines(bytes, minimal_bytes) {
        text.extend_from_slice(b"line ends")?;
        return Ok(());
    }
    let counts = count_lines(alloc, seed, bytes, minimal_bytes)?;
    push_counts(counts, text)
}

/// Appends `K out, L in`, or `order` where no lines differ.
fn push_counts(counts: LineCounts, text: &mut Vec<u8>) -> Result<(), AllocError>
    ensures { OnOk result (text.new.items ≡ text.old.items ++ counted counts.out counts.in_) }
{
    if counts.out == 0 && counts.in_ == 0 {
        text.extend_from_slice(b"order")?;
        return Ok(());
    }
    push_number(counts.out, text)?;
    text.extend_from_slice(b" out, ")?;
    push_number(counts.in_, text)?;
    text.extend_from_slice(b" in")?;
    Ok(())
}

/// Appends the decimal digits of a number.
fn push_number(number: usize, text: &mut Vec<u8>) -> Result<(), AllocError>
    ensures { OnOk result (text.new.items ≡ text.old.items ++ decimal number) }
{
    let mut digits = Buffer::new();
    text.extend_from_slice(digits.format(number).as_bytes())?;
    Ok(())
}
