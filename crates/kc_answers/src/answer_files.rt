//! The reading of files of answers.
ghost use Rattle.std.specs.Prelude.{◌≡◌, ◌⊎◌, take, OnOk, OnErr, IfOk, IfErr};
ghost use Rattle.std.specs.Io.KnownBytes.{Consumes};
ghost use Rattle.kc_answers.specs.ReadAnswers.{ReadsToEnd, AreRecorded, AreAnswersRefused};

use super::answers::Answers;
use super::file_records::record_lines;
use super::line_records::out_of_memory;
use kc_macros_model::{AnswersFault, AnswersKind};
use kc_value::{MAX_ANSWER_BYTES, MAX_BLOCK_BYTES, ReadBytes, ReadEnd, Source, read_up_to};
use std::alloc::{AllocError, Global};

/// Reads a reader to its end, or to the first byte too many for a file of answers; returns the bytes, and the fault that
/// ended them early, if one did.
fn read_whole<R: Source>(
    alloc: Global,
    source: &mut R,
) -> Result<(Vec<u8>, Option<AnswersKind>), AllocError>
    ensures read { IfOk result (λ r. Consumes (R.left source.old) (R.left source.new) r.0.items) }
    ensures end { IfOk result (λ r. ReadsToEnd (R.left source.new) (R.failures source.old) (R.failures source.new) r.0.items r.1) }
    ensures unfailed { OnErr result (R.failures source.new ≡ R.failures source.old) }
{
    let block = &mut [0; MAX_BLOCK_BYTES];
    let ReadBytes { bytes, end } = read_up_to(alloc, source, MAX_ANSWER_BYTES + 1, 0, block)?;
    match end {
        ReadEnd::AtEnd => Ok((bytes, None)),
        ReadEnd::AtLimit => Ok((bytes, Some(AnswersKind::TooLarge))),
        ReadEnd::AtFailure => Ok((bytes, Some(AnswersKind::Read))),
    }
}

/// The first `MAX_ANSWER_BYTES` of some bytes, or all of fewer.
fn within_size(bytes: &[u8]) -> &[u8]
    ensures { result.now ≡ take MAX_ANSWER_BYTES bytes.now }
{
    if bytes.len() > MAX_ANSWER_BYTES {
        &bytes[..MAX_ANSWER_BYTES]
    } else {
        bytes
    }
}

impl Answers {
    /// Reads a file of answers to its end, at most 8,192 bytes at once, and adds its answers to those of earlier files.
    ///
    /// # Errors
    ///
    /// The first fault with its line, after which nothing is changed: `TooManyLines` at the first byte of line 1,048,577,
    /// `LineTooLong` at the first byte of a line past 65,536, `NotUtf8`, `Malformed` and `TwoAnswers` at a line's end (a
    /// command without its answer on the next line is malformed at its own line), `Read` where the reader failed after lines
    /// without a fault, `TooLarge` at the first byte past 67,108,864. `OutOfMemory` means that memory ran out, has
    /// the line 0, and says nothing of the file. How far the reader has read after a fault isn't stated.
    pub fn read<R: Source>(&mut self, source: &mut R) -> Result<(), AnswersFault>
        ensures ok { OnOk result (AreRecorded (R.left source.old) (R.left source.new) self.old self.new) }
        ensures unfailed { OnOk result (R.failures source.new ≡ R.failures source.old) }
        ensures fault { IfErr result (λ f. (f.kind ≡ AnswersKind.OutOfMemory) ⊎ AreAnswersRefused (R.left source.old) (R.left source.new) (R.failures source.old) (R.failures source.new) self.old f) }
        ensures no_memory { IfErr result (λ f. f.kind ≡ AnswersKind.OutOfMemory → f.line ≡ 0) }
        ensures err { OnErr result (self.new ≡ self.old) }
    {
        let Ok((bytes, cut)) = read_whole(self.alloc, source) else {
            return Err(out_of_memory());
        };
        let before = self.len();
        match record_lines(self, within_size(bytes.as_slice()), cut) {
            Ok(()) => Ok(()),
            Err(fault) => {
                self.truncate(before);
                Err(fault)
            }
        }
    }
}
