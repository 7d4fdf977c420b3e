//! Help texts: their indentation and their lines.
ghost use Rattle.std.specs.Prelude.{◌≡◌, ◌<◌, ◌≤◌, ◌^◌, ◌||◌, nat_le, length, drop};
ghost use Rattle.std.specs.List.{list_all};
ghost use Rattle.kc_tree_model.specs.LogicalLines.{physical_lines, first_indentation, column_from};
ghost use Rattle.kc_tokens.specs.Token.{is_white_byte};
ghost use Rattle.kc_lines.specs.between.LinePlaces.{IsHelpAt, AreIndented};

use super::lines::physical_at;
use kc_tokens::is_white;

/// Whether the text of a line has white bytes alone, or none.
fn is_white_line(text: &[u8]) -> bool
    ensures { result ≡ list_all is_white_byte text.now }
{
    text.iter().all(|b| is_white(*b))
}

/// The indentation of a line: the column, counted from 0, of its first byte that is neither a space nor a tab.
fn columns_of(text: &[u8]) -> usize
    requires small { length text.now < 2 ^ 60 }
    ensures value { result ≡ column_from 0 text.now }
{
    let mut column = 0;
    for b in text {
        match *b {
            b' ' => column += 1,
            b'\t' => column = (column / 8 + 1) * 8,
            _ => return column,
        }
    }
    column
}

/// The indentation of the first line that isn't blank, from the place `at` in a file on; 0 if there is none. A tab goes to the
/// next multiple of 8.
pub fn first_columns(bytes: &[u8], at: usize) -> usize
    requires within { at ≤ length bytes.now }
    requires small { length bytes.now < 2 ^ 60 }
    ensures value { result ≡ first_indentation (physical_lines (drop at bytes.now)) }
{
    let mut begin = at;
    while begin < bytes.len() {
        let line = physical_at(bytes, begin);
        let text = &bytes[begin..line.end];
        if !is_white_line(text) {
            return columns_of(text);
        }
        begin = line.next;
    }
    0
}

/// Whether a line with this text is part of a help text indented by `columns`: it is indented at least as far, or blank.
pub fn is_of_help(text: &[u8], columns: usize) -> bool
    requires small { length text.now < 2 ^ 60 }
    ensures value { result ≡ (list_all is_white_byte text.now || nat_le columns (column_from 0 text.now)) }
{
    columns_of(text) >= columns || is_white_line(text)
}

/// The extent of a help text in a file: the place where the line after it begins, and how many physical lines it has.
#[derive(Clone, Copy)]
pub struct HelpText {
    pub next: usize,
    pub lines: usize,
}

/// The lines from the place `at` on, up to the first that is neither blank nor indented by `columns` or more.
fn indented_at(bytes: &[u8], at: usize, columns: usize) -> HelpText
    requires within { at ≤ length bytes.now }
    requires small { length bytes.now < 2 ^ 60 }
    ensures indented { AreIndented columns bytes.now at result.next result.lines }
{
    let mut begin = at;
    let mut lines = 0;
    while begin < bytes.len() {
        let line = physical_at(bytes, begin);
        if !is_of_help(&bytes[begin..line.end], columns) {
            return HelpText { next: begin, lines };
        }
        begin = line.next;
        lines += 1;
    }
    HelpText { next: begin, lines }
}

/// The extent of the help text that begins at the place `at` in a file. It has no lines if the first line that isn't blank isn't
/// indented, or if there is none.
pub fn help_at(bytes: &[u8], at: usize) -> HelpText
    requires within { at ≤ length bytes.now }
    requires small { length bytes.now < 2 ^ 60 }
    ensures help { IsHelpAt bytes.now at result.next result.lines }
{
    let columns = first_columns(bytes, at);
    if columns == 0 {
        return HelpText { next: at, lines: 0 };
    }
    indented_at(bytes, at, columns)
}
