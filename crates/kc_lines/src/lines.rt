//! Physical lines, and the logical lines that they are joined to.
ghost use Rattle.std.specs.Prelude.{◌≡◌, ◌<◌, ◌≤◌, IfOk, length};
ghost use Rattle.std.specs.Cow.{cow_slice_items};
ghost use Rattle.kc_tree_model.specs.LogicalLines.{is_continued};
ghost use Rattle.kc_lines.specs.between.LinePlaces.{line_of, BeginsAt, IsLineAt, IsLogicalAt};
ghost use Rattle.kc_lines.specs.checker.Newlines.{text_end};

use super::newlines::newline_from;
use std::alloc::{AllocError, Global};
use std::borrow::CowSlice;

/// A physical line of a file, by places in the file: where its text ends (without a newline, and a carriage return before it),
/// where the next line begins, and whether a newline ends the line.
#[derive(Clone, Copy)]
pub struct PhysicalLine {
    pub end: usize,
    pub next: usize,
    pub ended: bool,
}

/// Where the text of a line ends that begins at `at` and has its newline at `place`: there, or before a carriage return.
#[inline(always)]
fn text_end(bytes: &[u8], at: usize, place: usize) -> usize
    requires order { at ≤ place }
    requires within { place < length bytes.now }
    ensures value { result ≡ text_end bytes.now at place }
{
    if place > at && bytes[place - 1] == b'\r' {
        return place - 1;
    }
    place
}

/// The physical line that begins at the place `at` in a file.
#[inline(always)]
pub fn physical_at(bytes: &[u8], at: usize) -> PhysicalLine
    requires there { at < length bytes.now }
    ensures line { IsLineAt bytes.now at result }
{
    let place = newline_from(bytes, at);
    if place == bytes.len() {
        return PhysicalLine {
            end: place,
            next: place,
            ended: false,
        };
    }
    PhysicalLine {
        end: text_end(bytes, at, place),
        next: place + 1,
        ended: true,
    }
}

/// Whether a backslash at the end of the line that begins at `at` joins it with the next line.
#[inline(always)]
fn is_joined(bytes: &[u8], at: usize, line: PhysicalLine) -> bool
    requires start { at ≤ line.end }
    requires within { line.end ≤ length bytes.now }
    ensures value { result ≡ is_continued (line_of bytes.now at line) }
{
    line.ended && line.end > at && bytes[line.end - 1] == b'\\'
}

/// A logical line of a file (physical lines joined by backslashes at their ends): its bytes, the place in the file where the next
/// line begins, and how many physical lines it takes.
#[derive(Drop)]
pub struct LogicalLine<'a> {
    pub text: CowSlice<'a, u8>,
    pub next: usize,
    pub lines: usize,
}

/// The logical line that begins at the place `at` in a file. An `Err` means out of memory.
#[inline(always)]
pub fn logical_at(alloc: Global, bytes: &[u8], at: usize) -> Result<LogicalLine<'_>, AllocError>
    requires there { at < length bytes.now }
    ensures line { IfOk result (λ l. IsLogicalAt bytes.now at (cow_slice_items l.text) l.next l.lines) }
    ensures part { IfOk result (λ l. BeginsAt bytes.now at l.text) }
{
    let line = physical_at(bytes, at);
    if is_joined(bytes, at, line) {
        let (text, next, lines) = joined_at(alloc, bytes, at)?;
        return Ok(LogicalLine {
            text: CowSlice::Owned(text),
            next,
            lines,
        });
    }
    Ok(LogicalLine {
        text: CowSlice::Borrowed(&bytes[at..line.end]),
        next: line.next,
        lines: 1,
    })
}

/// The bytes of the logical line that begins at `at`, where the next line begins, and how many physical lines it takes.
#[inline(never)]
fn joined_at(alloc: Global, bytes: &[u8], at: usize) -> Result<(Vec<u8>, usize, usize), AllocError>
    requires there { at < length bytes.now }
    ensures line { IfOk result (λ r. IsLogicalAt bytes.now at r.0.items r.1 r.2) }
{
    let mut text = Vec::new(alloc);
    let mut begin = at;
    let mut lines = 0;
    while begin < bytes.len() {
        let line = physical_at(bytes, begin);
        lines += 1;
        if !is_joined(bytes, begin, line) {
            text.extend_from_slice(&bytes[begin..line.end])?;
            return Ok((text, line.next, lines));
        }
        text.extend_from_slice(&bytes[begin..line.end - 1])?;
        begin = line.next;
    }
    Ok((text, begin, lines))
}
