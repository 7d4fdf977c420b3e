//! The records of all lines of a file of answers.
ghost use Rattle.std.specs.Prelude.{◌≡◌, ◌⊎◌, ℕ, ◌≤◌, List, Option, length, take, None, Ok, Err, IfErr, OnOk};
ghost use Rattle.kc_tree_model.specs.LogicalLines.{split_at_newlines};
ghost use Rattle.kc_macros_model.specs.AnswerFiles.{RecordedAnswers, first_line, recorded_at_end, cut_line, recorded_from};
ghost use Rattle.kc_answers.specs.ReadAnswers.{end_of_file};
ghost use Rattle.kc_answers.specs.checker.AnswerFaults.{no_memory};
ghost use Rattle.kc_answers.specs.checker.LinesView.{bytes_of, lines_view, last_line};

use super::answers::Answers;
use super::line_records::{fault_of_size, fault_on_next_line, malformed_line, record_line};
use bstr::ByteSlice;
use kc_macros_model::{AnswersFault, AnswersKind};
use kc_value::MAX_ANSWER_LINES;

/// Ends a file after `count` lines: with the fault `cut` that ended its bytes early, or that of a command without its answer.
fn end_of_lines(
    count: u32,
    waiting: Option<&[u8]>,
    cut: Option<AnswersKind>,
) -> Result<(), AnswersFault>
    requires few { count ≤ MAX_ANSWER_LINES }
    ensures ok { OnOk result ((recorded : RecordedAnswers) → recorded_at_end (end_of_file cut) (lines_view count (bytes_of waiting.entry) recorded) ≡ Ok recorded) }
    ensures err { IfErr result (λ f. (recorded : RecordedAnswers) → recorded_at_end (end_of_file cut) (lines_view count (bytes_of waiting.entry) recorded) ≡ Err f) }
{
    if let Some(kind) = cut {
        return Err(fault_on_next_line(count, kind));
    }
    if waiting.is_some() {
        return Err(malformed_line(count, waiting));
    }
    Ok(())
}

/// The fault of a last line of which only these bytes are known: that of its size, or the fault `kind` that cut it.
fn fault_of_cut_line(count: u32, line: &[u8], kind: AnswersKind) -> AnswersFault
    requires few { count ≤ MAX_ANSWER_LINES }
    ensures value { (waiting : Option (List ℕ)) → (recorded : RecordedAnswers) → result ≡ cut_line kind (lines_view count waiting recorded) line.now }
{
    match fault_of_size(count, line) {
        Some(earlier) => fault_on_next_line(count, earlier),
        None => fault_on_next_line(count, kind),
    }
}

/// Records what comes after the last newline of a file, and its end.
fn record_last<'a>(
    table: &mut Answers,
    count: u32,
    waiting: Option<&'a [u8]>,
    rest: &'a [u8],
    cut: Option<AnswersKind>,
) -> Result<(), AnswersFault>
    requires few { count ≤ MAX_ANSWER_LINES }
    ensures ok { OnOk result (recorded_from (end_of_file cut) (lines_view count (bytes_of waiting.entry) table.old) (last_line rest.now) ≡ Ok table.new) }
    ensures err { IfErr result (λ f. (f ≡ no_memory) ⊎ (recorded_from (end_of_file cut) (lines_view count (bytes_of waiting.entry) table.old) (last_line rest.now) ≡ Err f)) }
    ensures extends { take (length table.old) table.new ≡ table.old }
{
    if rest.is_empty() {
        return end_of_lines(count, waiting, cut);
    }
    if let Some(kind) = cut {
        return Err(fault_of_cut_line(count, rest, kind));
    }
    let waiting = record_line(table, count, waiting, rest)?;
    end_of_lines(count + 1, waiting, None)
}

/// Records the answers of all lines of a file of answers; `cut` is the fault that ended the bytes of the file early, if one did.
pub(crate) fn record_lines(
    table: &mut Answers,
    bytes: &[u8],
    cut: Option<AnswersKind>,
) -> Result<(), AnswersFault>
    ensures ok { OnOk result (recorded_from (end_of_file cut) (first_line table.old) (split_at_newlines bytes.now) ≡ Ok table.new) }
    ensures err { IfErr result (λ f. (f ≡ no_memory) ⊎ (recorded_from (end_of_file cut) (first_line table.old) (split_at_newlines bytes.now) ≡ Err f)) }
    ensures extends { take (length table.old) table.new ≡ table.old }
{
    let mut rest = bytes;
    let mut count = 0;
    let mut waiting = None;
    while let Some(at) = rest.find_byte(b'\n') {
        waiting = record_line(table, count, waiting, &rest[..at])?;
        count += 1;
        rest = &rest[at + 1..];
    }
    record_last(table, count, waiting, rest, cut)
}
