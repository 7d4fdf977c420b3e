//! The lines of a configuration file, gone over for those that ask for a value.
ghost use Rattle.std.specs.Prelude.{◌≡◌, true, List, IfOk, OnOk};
ghost use Rattle.std.specs.Str.{is_utf8};
ghost use Rattle.kc_tree_model.specs.LogicalLines.{without_white_end};
ghost use Rattle.kc_rules.specs.between.SettledViews.{tree_of_settled};
ghost use Rattle.kc_dotconfig_model.specs.ConfigLines.{LineMeaning, Means};
ghost use Rattle.kc_dotconfig_model.specs.ConfigFiles.{has_utf8_lines, FileMeans};
ghost use Rattle.kc_dotconfig_model.specs.between.Formats.{file_format};
ghost use Rattle.kc_config_reasons.specs.between.FileLines.{KeepsLines};
ghost use Rattle.kc_config_reasons.specs.checker.LineSteps.{Keeps};

use super::file_lines::FileLines;
use kc_dotconfig::{Format, read_line};
use kc_rules::Settled;
use kmin_lines::first_piece;
use std::alloc::{AllocError, Global};

/// Keeps a line, which has this number, if it assigns something. An `Err` means out of memory.
fn keep_line(
    alloc: Global,
    settled: &Settled,
    format: &Format,
    found: &mut FileLines,
    number: usize,
    line: &[u8],
) -> Result<(), AllocError>
    ensures { OnOk result ((meaning : LineMeaning) → is_utf8 line.now ≡ true → Means (file_format format.now) (tree_of_settled settled.now) (without_white_end line.now) meaning → Keeps number meaning found.old found.new) }
{
    let Ok(text) = std::str::from_utf8(line) else {
        return Ok(());
    };
    match read_line(alloc, settled, format, 0, text)? {
        Some(meaning) => found.keep(alloc, number, meaning),
        None => Ok(()),
    }
}

/// The last line of a configuration file that says something of each symbol, if the file is accepted: its bytes are read once more,
/// after `read_config`. An `Err` means out of memory.
pub fn lines_of_file(
    alloc: Global,
    settled: &Settled,
    format: &Format,
    bytes: &[u8],
) -> Result<FileLines, AllocError>
    ensures { IfOk result (λ found. (meanings : List LineMeaning) → has_utf8_lines bytes.now ≡ true → FileMeans (file_format format.now) (tree_of_settled settled.now) bytes.now meanings → KeepsLines (tree_of_settled settled.now) meanings found) }
{
    let mut found = FileLines::new(alloc);
    let mut number = 0;
    let mut rest = bytes;
    while let Some((line, after)) = first_piece(rest, b'\n') {
        number += 1;
        keep_line(alloc, settled, format, &mut found, number, line)?;
        rest = after;
    }
    Ok(found)
}
