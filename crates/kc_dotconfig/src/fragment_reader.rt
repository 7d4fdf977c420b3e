//! Reading a configuration file, a block at a time.
ghost use Rattle.std.specs.Prelude.{◌≡◌, ◌⊎◌, ◌<◌, ◌≤◌, ℕ, ◌+◌, ◌-◌, List, [], ◌∷◌, ◌++◌, length, true, IfOk, IfErr, OnOk};
ghost use Rattle.kc_value.specs.Lines.{has_no_byte};
ghost use Rattle.kc_value.specs.Streams.{one_failure_more};
ghost use Rattle.kc_dotconfig_model.specs.between.Formats.{file_format};
ghost use Rattle.kc_dotconfig_model.specs.LoadFaults.{complete, IsFirstFault};
ghost use Rattle.kc_dotconfig.specs.checker.Accumulation.{fault_line, Holds, GoesOn, StopsIn, AcceptsBytes, Refuses, EndsWell, EndsBadly, IsFragmentOf};
ghost use Rattle.kc_dotconfig.specs.Fragments.{FitsTree};
ghost use Rattle.kc_dotconfig.specs.ReadResults.{IsReadAs, IsReadKeeping, ReportsFault};
ghost use Rattle.kc_rules.specs.between.SettledViews.{tree_of_settled};

use super::accumulate::{empty_accumulator, fragment_of, take_line};
use super::accumulator::Accumulator;
use super::fragment::Fragment;
use super::kept_bytes::KeptBytes;
use super::line_buffer::LineBuffer;
use bstr::ByteSlice;
use kc_dotconfig_model::{Format, LoadFault, LoadKind};
use kc_rules::Settled;
use kc_value::{
    MAX_CONFIG_BLOCK_BYTES, MAX_CONFIG_BYTES, MAX_CONFIG_LINES, MAX_LINE_BYTES, Source,
};
use std::alloc::{AllocError, Global};

/// Takes a piece of a line that has no newline yet; `lines` counts the complete lines before it.
fn take_piece(buffer: &mut LineBuffer, lines: u32, piece: &[u8]) -> Result<(), LoadKind>
    requires few { lines ≤ MAX_CONFIG_LINES }
    requires one_line { has_no_byte 10 piece.now ≡ true }
    ensures ok { OnOk result (GoesOn buffer.old buffer.new piece.now lines) }
    ensures err { IfErr result (λ kind. (kind ≡ LoadKind.OutOfMemory) ⊎ StopsIn buffer.old piece.now lines kind) }
{
    if piece.is_empty() {
        return Ok(());
    }
    if lines == MAX_CONFIG_LINES {
        return Err(LoadKind::TooManyLines);
    }
    buffer.push(piece)
}

/// Takes the last piece of a line, before its newline.
fn take_ended(
    alloc: Global,
    settled: &Settled,
    format: &Format,
    buffer: &mut LineBuffer,
    accumulator: &mut Accumulator,
    piece: &[u8],
) -> Result<(), LoadKind>
    requires few { accumulator.old.lines ≤ MAX_CONFIG_LINES }
    requires one_line { has_no_byte 10 piece.now ≡ true }
    ensures ok { OnOk result (AcceptsBytes (file_format format.now) (tree_of_settled settled.now) buffer.old accumulator.old (piece.now ++ 10 ∷ []) buffer.new accumulator.new) }
    ensures err { IfErr result (λ kind. (kind ≡ LoadKind.OutOfMemory) ⊎ Refuses (file_format format.now) (tree_of_settled settled.now) buffer.old accumulator.old (piece.now ++ 10 ∷ []) kind accumulator.new.lines) }
    ensures few { accumulator.new.lines ≤ MAX_CONFIG_LINES }
{
    if accumulator.lines == MAX_CONFIG_LINES {
        return Err(LoadKind::TooManyLines);
    }
    if buffer.line().is_empty() {
        if piece.len() > MAX_LINE_BYTES {
            return Err(LoadKind::LineTooLong);
        }
        return take_line(alloc, settled, format, accumulator, piece);
    }
    buffer.push(piece)?;
    take_line(alloc, settled, format, accumulator, buffer.line())?;
    buffer.clear();
    Ok(())
}

/// Takes bytes, none of which is past the limit of the file.
fn take_bytes(
    alloc: Global,
    settled: &Settled,
    format: &Format,
    buffer: &mut LineBuffer,
    accumulator: &mut Accumulator,
    bytes: &[u8],
) -> Result<(), LoadKind>
    requires few { accumulator.old.lines ≤ MAX_CONFIG_LINES }
    ensures ok { OnOk result (AcceptsBytes (file_format format.now) (tree_of_settled settled.now) buffer.old accumulator.old bytes.now buffer.new accumulator.new) }
    ensures err { IfErr result (λ kind. (kind ≡ LoadKind.OutOfMemory) ⊎ Refuses (file_format format.now) (tree_of_settled settled.now) buffer.old accumulator.old bytes.now kind accumulator.new.lines) }
    ensures few { accumulator.new.lines ≤ MAX_CONFIG_LINES }
{
    let mut rest = bytes;
    while let Some(at) = rest.find_byte(b'\n') {
        take_ended(alloc, settled, format, buffer, accumulator, &rest[..at])?;
        rest = &rest[at + 1..];
    }
    take_piece(buffer, accumulator.lines, rest)
}

/// Takes a block, which follows `size` bytes of the file.
fn take_block(
    alloc: Global,
    settled: &Settled,
    format: &Format,
    buffer: &mut LineBuffer,
    accumulator: &mut Accumulator,
    size: usize,
    block: &[u8],
) -> Result<(), LoadKind>
    requires few { accumulator.old.lines ≤ MAX_CONFIG_LINES }
    requires size { size ≤ MAX_CONFIG_BYTES }
    ensures ok { OnOk result (AcceptsBytes (file_format format.now) (tree_of_settled settled.now) buffer.old accumulator.old block.now buffer.new accumulator.new) }
    ensures room { OnOk result (size + length block.now ≤ MAX_CONFIG_BYTES) }
    ensures err { IfErr result (λ kind. (kind ≡ LoadKind.OutOfMemory) ⊎ ((known rest : List ℕ) → Holds (file_format format.now) (tree_of_settled settled.now) known buffer.old accumulator.old → length known ≡ size → IsFirstFault (file_format format.now) (tree_of_settled settled.now) complete (known ++ (block.now ++ rest)) kind (accumulator.new.lines + 1))) }
    ensures few { accumulator.new.lines ≤ MAX_CONFIG_LINES }
{
    let room = MAX_CONFIG_BYTES - size;
    if block.len() > room {
        take_bytes(alloc, settled, format, buffer, accumulator, &block[..room])?;
        return Err(LoadKind::TooLarge);
    }
    take_bytes(alloc, settled, format, buffer, accumulator, block)
}

/// Takes the last line at the end of the file, if it has no newline.
fn take_end(
    alloc: Global,
    settled: &Settled,
    format: &Format,
    buffer: &LineBuffer,
    accumulator: &mut Accumulator,
) -> Result<(), LoadKind>
    requires room { (buffer.now ≡ []) ⊎ (accumulator.old.lines < MAX_CONFIG_LINES) }
    ensures ok { OnOk result (EndsWell (file_format format.now) (tree_of_settled settled.now) buffer.now accumulator.old accumulator.new) }
    ensures err { IfErr result (λ kind. (kind ≡ LoadKind.OutOfMemory) ⊎ EndsBadly (file_format format.now) (tree_of_settled settled.now) buffer.now accumulator.old kind accumulator.new.lines) }
    ensures few { accumulator.old.lines ≤ MAX_CONFIG_LINES → accumulator.new.lines ≤ MAX_CONFIG_LINES }
{
    if buffer.line().is_empty() {
        return Ok(());
    }
    take_line(alloc, settled, format, accumulator, buffer.line())
}

/// A fault on the line after the complete ones; out of memory is of no line, and has the line 0.
fn fault_on_next_line(lines: u32, kind: LoadKind) -> LoadFault
    requires few { lines ≤ MAX_CONFIG_LINES }
    ensures line { result.line ≡ fault_line kind lines }
    ensures kind { result.kind ≡ kind }
{
    let line = match kind {
        LoadKind::OutOfMemory => 0,
        _ => lines + 1,
    };
    LoadFault { line, kind }
}

/// The assignment and the notices of a file that ends after the incomplete line in `buffer`.
fn finish(
    alloc: Global,
    settled: &Settled,
    format: &Format,
    buffer: &LineBuffer,
    mut accumulator: Accumulator,
) -> Result<Fragment, LoadFault>
    requires few { accumulator.lines ≤ MAX_CONFIG_LINES }
    requires room { (buffer.now ≡ []) ⊎ (accumulator.lines < MAX_CONFIG_LINES) }
    ensures ok { IfOk result (λ f. IsFragmentOf (file_format format.now) (tree_of_settled settled.now) buffer.now accumulator f) }
    ensures err { IfErr result (λ fault. ((fault.kind ≡ LoadKind.OutOfMemory) × (fault.line ≡ 0)) ⊎ ((known : List ℕ) → Holds (file_format format.now) (tree_of_settled settled.now) known buffer.now accumulator → IsFirstFault (file_format format.now) (tree_of_settled settled.now) complete known fault.kind fault.line)) }
{
    if let Err(kind) = take_end(alloc, settled, format, buffer, &mut accumulator) {
        return Err(fault_on_next_line(accumulator.lines, kind));
    }
    let lines = accumulator.lines;
    match fragment_of(alloc, accumulator) {
        Ok(fragment) => Ok(fragment),
        Err(AllocError) => Err(fault_on_next_line(lines, LoadKind::OutOfMemory)),
    }
}

/// Reads a configuration file to its end, at most 4,096 bytes at once, and keeps one line in memory. Returns the assignment and
/// the notices of the file exactly if it has no fault, whatever pieces the reader gives.
///
/// If it has a fault, returns the first one with its line, and stops at the piece that has it: `TooLarge` at the first byte past
/// 67,108,864, `TooManyLines` at the first byte of line 1,048,577, `LineTooLong` at the first byte of a line past 65,536,
/// `NotUtf8` and `Malformed` at a line's end, `Read` where the reader failed after lines without a fault. After a fault no file
/// that begins with the bytes read is accepted, unless the fault came with the end of the file or with a failed read.
/// `OutOfMemory` has the line 0, and says nothing about the file. After a fault the position of the reader isn't specified. At
/// most one read fails.
///
/// `kept`, if it was empty, has the bytes of an accepted file afterwards; `&mut ()` keeps none.
pub fn read_config<R: Source, K: KeptBytes>(
    alloc: Global,
    settled: &Settled,
    format: &Format,
    source: &mut R,
    kept: &mut K,
) -> Result<Fragment, LoadFault>
    ensures ok { IfOk result (IsReadAs (file_format format.now) (tree_of_settled settled.now) (R.left source.old) (R.left source.new)) }
    ensures kept { IfOk result (IsReadKeeping (file_format format.now) (tree_of_settled settled.now) (R.left source.old) (R.left source.new) (λ bytes. K.has kept.old [] → K.has kept.new bytes)) }
    ensures fits { IfOk result (λ f. FitsTree (tree_of_settled settled.now) f.assigns.items) }
    ensures unfailed { OnOk result (R.failures source.new ≡ R.failures source.old) }
    ensures fault { IfErr result (λ fault. ReportsFault (file_format format.now) (tree_of_settled settled.now) (R.left source.old) (R.left source.new) (R.failures source.old) (R.failures source.new) fault.kind fault.line) }
    ensures failed { IfErr result (λ fault. (fault.kind ≡ LoadKind.Read) ⊎ (R.failures source.new ≡ R.failures source.old)) }
    ensures counted { IfErr result (λ fault. fault.kind ≡ LoadKind.Read → R.failures source.new ≡ one_failure_more (R.failures source.old)) }
    ensures once { R.failures source.new ≤ R.failures source.old + 1 }
{
    let _ = settled.tree();
    let mut buffer = LineBuffer::new(alloc);
    let mut accumulator = empty_accumulator(alloc);
    let mut size = 0;
    let mut block = [0; MAX_CONFIG_BLOCK_BYTES];
    while size <= MAX_CONFIG_BYTES {
        let Ok(count) = source.read_some(&mut block) else {
            return Err(fault_on_next_line(accumulator.lines, LoadKind::Read));
        };
        if count == 0 {
            return finish(alloc, settled, format, &buffer, accumulator);
        }
        if let Err(kind) = take_block(
            alloc,
            settled,
            format,
            &mut buffer,
            &mut accumulator,
            size,
            &block[..count],
        ) {
            return Err(fault_on_next_line(accumulator.lines, kind));
        }
        if let Err(AllocError) = kept.keep(&block[..count]) {
            return Err(fault_on_next_line(accumulator.lines, LoadKind::OutOfMemory));
        }
        size += count;
    }
    Err(fault_on_next_line(accumulator.lines, LoadKind::TooLarge))
}
