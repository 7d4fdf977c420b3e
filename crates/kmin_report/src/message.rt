//! Reports, and their plain lines.
ghost use Rattle.std.specs.Prelude.{◌≡◌, ◌++◌, ℕ, List, codes, slice_get, length, ◌<◌, OnOk, OnErr};
ghost use Rattle.std.specs.List.{flat_map};
ghost use Rattle.std.specs.Borrow.{Bor};
ghost use Rattle.kmin_report.specs.PlainLines.{message_line, place_line, plain_line};
ghost use Rattle.kmin_report.specs.Reports.{first_member_name, unit_text, units_text};
ghost use Rattle.kmin_report.specs.StandardError.{TakesWhole, TakesPart};
ghost use Rattle.kmin_report.specs.between.ReportLines.{report_line};

use crate::symbol_names::name_of;
use itoa::Buffer;
use kc_dotconfig_model::{LoadKind, NoticeKind};
use kc_files::ExpandedTree;
use kc_macros::{AnswersKind, MacroFault, MacroNotice};
use kc_output::{WriteFault, write_out};
use kc_tree::{Texts, Tree, TreeKind, Unit};
use kc_value::Sink;

/// An event that a line on standard error reports.
#[derive(Drop)]
pub enum Message<'a> {
    /// A fault of a tree: its line in the file at `path`, and the texts that were read from the path `first` on, among which the file
    /// has the number `file`; of a tree whose macros were expanded also the expanded files, of which the texts are.
    TreeFault {
        path: &'a [u8],
        line: u32,
        kind: TreeKind,
        file: Option<u32>,
        texts: &'a Texts,
        first: &'a str,
        expanded: Option<&'a ExpandedTree>,
    },
    /// Symbols and choices of a tree that depend on each other in a circle, at the file and line of the first.
    Cycle {
        path: &'a [u8],
        line: u32,
        tree: &'a Tree,
        units: &'a [u32],
    },
    /// A fault of a configuration file.
    FileFault {
        path: &'a str,
        line: u32,
        kind: LoadKind,
    },
    /// A notice of a configuration file: a line with an unknown symbol, with a value that isn't of its symbol's type, or with a string
    /// that has other escapes than those of `"` and `\`, or on whose account Linux since 6.10 selects another member of a choice.
    /// The file is read over this tree.
    Notice {
        path: &'a str,
        line: u32,
        kind: NoticeKind,
        tree: &'a Tree,
    },
    /// A fault of an answer file.
    AnswersFault {
        path: &'a str,
        line: u32,
        kind: AnswersKind,
    },
    /// A notice of the expansion of a tree's macros.
    MacroNotice(&'a MacroNotice),
    /// A fault of the expansion of a tree's macros, and the path of the file that couldn't be opened last, if that is known.
    MacroFault {
        fault: &'a MacroFault,
        missing: Option<&'a [u8]>,
    },
    /// A write of the output failed.
    OutputFault,
    /// The path of the output file leads to a link, a folder, a pipe or a device.
    NotRegular(&'a str),
    /// The output file at this path couldn't be updated, or not for good.
    Unwritten(&'a str),
    /// The new file at this path, which was to replace a file, couldn't be removed.
    Left(&'a str),
    /// Memory ran out.
    OutOfMemory,
    /// The message for words that are refused.
    RefusedWords(&'a str),
}

/// Writes the plain line of a report, up to the first write that fails. Takes no memory.
pub fn write_plain_line<W: Sink>(report: &Message<'_>, sink: &mut W) -> Result<(), WriteFault>
    ensures whole { OnOk result (TakesWhole (W.taken sink.old) (W.failures sink.old) (plain_line (report_line report.now)) (W.taken sink.new) (W.failures sink.new)) }
    ensures part { OnErr result (TakesPart (W.taken sink.old) (W.failures sink.old) (plain_line (report_line report.now)) (W.taken sink.new) (W.failures sink.new)) }
{
    match report {
        Message::TreeFault {
            path,
            line,
            kind,
            ..
        } => write_place(path, *line, kind.name(), sink),
        Message::Cycle {
            path,
            line,
            tree,
            units,
        } => write_cycle(path, *line, tree, units, sink),
        Message::FileFault { path, line, kind } => {
            write_place(path.as_bytes(), *line, kind.name(), sink)
        }
        Message::Notice {
            path,
            line,
            kind,
            ..
        } => write_place(path.as_bytes(), *line, kind.name(), sink),
        Message::AnswersFault { path, line, kind } => {
            write_place(path.as_bytes(), *line, kind.name(), sink)
        }
        Message::MacroNotice(notice) => {
            let (file, text) = (notice.file.as_slice(), notice.text.as_slice());
            write_message(file, notice.line, notice.kind.name(), text, sink)
        }
        Message::MacroFault { fault, .. } => {
            let (file, text) = (fault.file.as_slice(), fault.text.as_slice());
            write_message(file, fault.line, fault.kind.name(), text, sink)
        }
        Message::OutputFault => write_pieces(&[b"output: Write\n"], sink),
        Message::NotRegular(path) => write_place(path.as_bytes(), 0, "NotRegular", sink),
        Message::Unwritten(path) => write_pieces(&[path.as_bytes(), b": Write\n"], sink),
        Message::Left(path) => write_pieces(&[path.as_bytes(), b": Left\n"], sink),
        Message::OutOfMemory => write_pieces(&[b"out of memory\n"], sink),
        Message::RefusedWords(message) => write_pieces(&[message.as_bytes()], sink),
    }
}

/// Writes `FILE:LINE: KIND`.
fn write_place<W: Sink>(path: &[u8], line: u32, kind: &str, sink: &mut W) -> Result<(), WriteFault>
    ensures whole { OnOk result (TakesWhole (W.taken sink.old) (W.failures sink.old) (place_line path.now line kind.now) (W.taken sink.new) (W.failures sink.new)) }
    ensures part { OnErr result (TakesPart (W.taken sink.old) (W.failures sink.old) (place_line path.now line kind.now) (W.taken sink.new) (W.failures sink.new)) }
{
    let mut digits = Buffer::new();
    let number = digits.format(line);
    write_pieces(
        &[path, b":", number.as_bytes(), b": ", kind.as_bytes(), b"\n"],
        sink,
    )
}

/// Writes `FILE:LINE: KIND TEXT`, or `FILE:LINE: KIND` where the text is empty.
fn write_message<'a, W: Sink>(
    path: &'a [u8],
    line: u32,
    kind: &'a str,
    text: &'a [u8],
    sink: &mut W,
) -> Result<(), WriteFault>
    ensures whole { OnOk result (TakesWhole (W.taken sink.old) (W.failures sink.old) (message_line path.now line kind.now text.now) (W.taken sink.new) (W.failures sink.new)) }
    ensures part { OnErr result (TakesPart (W.taken sink.old) (W.failures sink.old) (message_line path.now line kind.now text.now) (W.taken sink.new) (W.failures sink.new)) }
{
    if text.is_empty() {
        return write_place(path, line, kind, sink);
    }
    let mut digits = Buffer::new();
    let number = digits.format(line);
    write_pieces(
        &[
            path,
            b":",
            number.as_bytes(),
            b": ",
            kind.as_bytes(),
            b" ",
            text,
            b"\n",
        ],
        sink,
    )
}

/// Writes `FILE:LINE: Cycle A B`.
fn write_cycle<W: Sink>(
    path: &[u8],
    line: u32,
    tree: &Tree,
    units: &[u32],
    sink: &mut W,
) -> Result<(), WriteFault>
    ensures whole { OnOk result (TakesWhole (W.taken sink.old) (W.failures sink.old) (place_line path.now line (codes "Cycle" ++ units_text tree.now.tree units.now)) (W.taken sink.new) (W.failures sink.new)) }
    ensures part { OnErr result (TakesPart (W.taken sink.old) (W.failures sink.old) (place_line path.now line (codes "Cycle" ++ units_text tree.now.tree units.now)) (W.taken sink.new) (W.failures sink.new)) }
{
    let mut digits = Buffer::new();
    let number = digits.format(line);
    write_pieces(&[path, b":", number.as_bytes(), b": Cycle"], sink)?;
    write_units(tree, units, sink)?;
    write_pieces(&[b"\n"], sink)
}

/// Writes the names of units, each after a space.
fn write_units<W: Sink>(tree: &Tree, units: &[u32], sink: &mut W) -> Result<(), WriteFault>
    ensures whole { OnOk result (TakesWhole (W.taken sink.old) (W.failures sink.old) (units_text tree.now.tree units.now) (W.taken sink.new) (W.failures sink.new)) }
    ensures part { OnErr result (TakesPart (W.taken sink.old) (W.failures sink.old) (units_text tree.now.tree units.now) (W.taken sink.new) (W.failures sink.new)) }
{
    for unit in units {
        write_unit(tree, *unit, sink)?;
    }
    Ok(())
}

/// Writes the name of a unit after a space; a choice is named by its first member.
fn write_unit<W: Sink>(tree: &Tree, unit: u32, sink: &mut W) -> Result<(), WriteFault>
    ensures whole { OnOk result (TakesWhole (W.taken sink.old) (W.failures sink.old) (unit_text tree.now.tree (slice_get tree.now.tree.units unit)) (W.taken sink.new) (W.failures sink.new)) }
    ensures part { OnErr result (TakesPart (W.taken sink.old) (W.failures sink.old) (unit_text tree.now.tree (slice_get tree.now.tree.units unit)) (W.taken sink.new) (W.failures sink.new)) }
{
    if unit >= tree.len() {
        return Ok(());
    }
    match tree.unit(unit) {
        Unit::Symbol(symbol) => write_pieces(&[b" ", tree.name(symbol).as_bytes()], sink),
        Unit::Choice(choice) => {
            write_pieces(&[b" choice:", member_name(tree, choice).as_bytes()], sink)
        }
    }
}

/// The name of a choice's first member.
fn member_name(tree: &Tree, choice: u32) -> &str
    requires there { choice < length tree.now.tree.choices }
    ensures value { result.now ≡ first_member_name tree.now.tree (slice_get tree.now.tree.choices choice) }
{
    match tree.choice(choice).members.first() {
        Some(symbol) => name_of(tree, *symbol),
        None => "",
    }
}

/// Writes pieces of a text one after another, up to the first write that fails or takes nothing. On an `Err` the sink took only
/// the first bytes of the text: some pieces whole, and `written` bytes of the next piece.
fn write_pieces<W: Sink>(pieces: &[&[u8]], sink: &mut W) -> Result<(), WriteFault>
    ensures whole { OnOk result (TakesWhole (W.taken sink.old) (W.failures sink.old) (flat_map (λ (piece : Bor (List ℕ)). piece.now) pieces.now)
        (W.taken sink.new) (W.failures sink.new)) }
    ensures part { OnErr result (TakesPart (W.taken sink.old) (W.failures sink.old) (flat_map (λ (piece : Bor (List ℕ)). piece.now) pieces.now)
        (W.taken sink.new) (W.failures sink.new)) }
{
    for piece in pieces {
        write_out(sink, piece)?;
    }
    Ok(())
}
