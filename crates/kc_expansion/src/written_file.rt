//! The text of a file with some of its lines replaced.
ghost use Rattle.std.specs.Prelude.{◌≡◌, ◌≤◌, ◌++◌, [], OnOk, length, replicate};

use std::alloc::{AllocError, Global};
use std::rc::Rc;

/// The expanded text of a file: its own bytes, except for the lines that were replaced. Nothing is copied before a line is
/// replaced.
#[derive(Drop)]
pub(crate) struct WrittenFile {
    alloc: Global,
    original: Rc<Vec<u8>>,
    written: Vec<u8>,
    copied: usize,
    ghost within: { copied ≤ length original.value.items },
    ghost untouched: { copied ≡ 0 → written.items ≡ [] },
}

/// Appends newlines.
fn push_newlines(bytes: &mut Vec<u8>, count: usize) -> Result<(), AllocError>
    ensures { OnOk result (bytes.new.items ≡ bytes.old.items ++ replicate count 10) }
{
    let mut left = count;
    while left > 0 {
        bytes.push(b'\n')?;
        left -= 1;
    }
    Ok(())
}

impl WrittenFile {
    ghost use Rattle.std.specs.Prelude.{◌≡◌, ◌<◌, ◌≤◌, ◌++◌, [], IfOk, OnOk, length, replicate};
    ghost use Rattle.kc_expansion.specs.checker.WrittenViews.{text_up_to};

    /// The text of a file of which no line was replaced yet.
    pub(crate) fn new(alloc: Global, original: Rc<Vec<u8>>) -> WrittenFile
        ensures original { result.original ≡ original }
        ensures copied { result.copied ≡ 0 }
        ensures text { text_up_to result 0 ≡ [] }
    {
        WrittenFile {
            alloc,
            original,
            written: Vec::new(alloc),
            copied: 0,
        }
    }

    /// Replaces the bytes of the file from `at` up to `next`, which come after all that were replaced before, by a text and
    /// newlines.
    ///
    /// # Errors
    ///
    /// Where memory runs out, nothing is promised of the text of the file.
    pub(crate) fn replace(
        &mut self,
        at: usize,
        next: usize,
        text: &[u8],
        newlines: usize,
    ) -> Result<(), AllocError>
        requires copied { self.old.copied ≤ at }
        requires order { at < next }
        requires within { next ≤ length self.old.original.value.items }
        ensures same { self.new.original ≡ self.old.original }
        ensures copied { OnOk result (self.new.copied ≡ next) }
        ensures text { OnOk result (text_up_to self.new next ≡ text_up_to self.old at ++ (text.now ++ replicate newlines 10)) }
    {
        let mut written = std::mem::replace(&mut self.written, Vec::new(self.alloc));
        written.extend_from_slice(&self.original[self.copied..at])?;
        written.extend_from_slice(text)?;
        push_newlines(&mut written, newlines)?;
        self.written = written;
        self.copied = next;
        Ok(())
    }

    /// The whole expanded text of the file; where no line was replaced, the file's own bytes without a copy.
    ///
    /// # Errors
    ///
    /// Memory runs out.
    pub(crate) fn finish(self) -> Result<Rc<Vec<u8>>, AllocError>
        ensures { IfOk result (λ text. text.value.items ≡ text_up_to self (length self.original.value.items)) }
    {
        let WrittenFile {
            alloc,
            original,
            mut written,
            copied,
        } = self;
        if copied == 0 {
            return Ok(original);
        }
        written.extend_from_slice(&original[copied..])?;
        Ok(Rc::new(alloc, written)?)
    }
}
