//! The records of single lines of a file of answers.
ghost use Rattle.std.specs.Prelude.{◌≡◌, ◌⊎◌, ◌+◌, ◌<◌, ◌≤◌, length, take, None, Some, Ok, Err, IfOk, IfErr, OnOk};
ghost use Rattle.std.specs.Str.{is_utf8};
ghost use Rattle.kc_tree_model.specs.Keywords.{keyword_in_table};
ghost use Rattle.kc_macros_model.specs.AnswerFiles.{fault_at, malformed_line, fault_of_size, fault_of_line, is_same_answer, with_answer, with_meaning, with_line};
ghost use Rattle.kc_answers.specs.checker.AnswerFaults.{no_memory};
ghost use Rattle.kc_answers.specs.checker.LineView.{line_view};
ghost use Rattle.kc_answers.specs.checker.LinesView.{bytes_of, lines_view};

use super::answer_lines::{AnswerLine, meaning_of_line, without_white_end};
use super::answers::Answers;
use kc_macros_model::{AnswersFault, AnswersKind};
use kc_value::{MAX_ANSWER_LINE_BYTES, MAX_ANSWER_LINES};

/// The fault of a file of answers when memory runs out, which has the line 0.
pub(crate) fn out_of_memory() -> AnswersFault
    ensures { result ≡ no_memory }
{
    AnswersFault {
        line: 0,
        kind: AnswersKind::OutOfMemory,
    }
}

/// A fault at line `count + 1` of a file of answers.
pub(crate) fn fault_on_next_line(count: u32, kind: AnswersKind) -> AnswersFault
    requires few { count ≤ MAX_ANSWER_LINES }
    ensures value { result ≡ fault_at (count + 1) kind }
{
    AnswersFault {
        line: count + 1,
        kind,
    }
}

/// The fault of line `count + 1` of a file of answers, which is malformed; where a command waits for its answer, the fault is at
/// the line of the command.
pub(crate) fn malformed_line(count: u32, waiting: Option<&[u8]>) -> AnswersFault
    requires few { count ≤ MAX_ANSWER_LINES }
    ensures value { result ≡ malformed_line count (bytes_of waiting.entry) }
{
    match waiting {
        Some(_) => AnswersFault {
            line: count,
            kind: AnswersKind::Malformed,
        },
        None => fault_on_next_line(count, AnswersKind::Malformed),
    }
}

/// The fault of the size of line `count + 1` of a file of answers, if its first bytes show one: a line too many, or one too long.
pub(crate) fn fault_of_size(count: u32, line: &[u8]) -> Option<AnswersKind>
    ensures value { result ≡ fault_of_size count line.now }
    ensures few { result ≡ None → count < MAX_ANSWER_LINES }
{
    if count >= MAX_ANSWER_LINES {
        return Some(AnswersKind::TooManyLines);
    }
    if line.len() > MAX_ANSWER_LINE_BYTES {
        return Some(AnswersKind::LineTooLong);
    }
    None
}

/// Whether bytes are UTF-8.
pub(crate) fn is_utf8(bytes: &[u8]) -> bool
    ensures { result ≡ is_utf8 bytes.now }
{
    match std::str::from_utf8(bytes) {
        Ok(_) => true,
        Err(_) => false,
    }
}

/// The fault of the line after the first `count`, whatever it means: its size, or bytes that aren't UTF-8.
fn fault_of_line(count: u32, line: &[u8]) -> Option<AnswersKind>
    ensures value { result ≡ fault_of_line count line.now }
    ensures few { result ≡ None → count < MAX_ANSWER_LINES }
{
    let fault = fault_of_size(count, line);
    if fault.is_none() && !is_utf8(line) {
        return Some(AnswersKind::NotUtf8);
    }
    fault
}

/// Whether two answers are the same.
fn is_same_answer(first: Option<&[u8]>, second: Option<&[u8]>) -> bool
    ensures { result ≡ is_same_answer (bytes_of first.entry) (bytes_of second.entry) }
{
    match (first, second) {
        (None, None) => true,
        (Some(first), Some(second)) => first == second,
        _ => false,
    }
}

/// Records an answer, unless the question has another one.
fn record_answer(
    table: &mut Answers,
    count: u32,
    question: &[u8],
    answer: Option<&[u8]>,
) -> Result<(), AnswersFault>
    requires few { count < MAX_ANSWER_LINES }
    ensures ok { OnOk result (with_answer (lines_view count None table.old) question.now (bytes_of answer.entry) (keyword_in_table table.old question.now) ≡ Ok (lines_view (count + 1) None table.new)) }
    ensures err { IfErr result (λ f. (f ≡ no_memory) ⊎ (with_answer (lines_view count None table.old) question.now (bytes_of answer.entry) (keyword_in_table table.old question.now) ≡ Err f)) }
    ensures extends { take (length table.old) table.new ≡ table.old }
{
    if let Some(earlier) = table.answer(question) {
        if is_same_answer(earlier, answer) {
            return Ok(());
        }
        return Err(fault_on_next_line(count, AnswersKind::TwoAnswers));
    }
    let memory = out_of_memory();
    table.insert(question, answer).map_err(|_| memory)
}

/// Records a line by its meaning. Returns the question of a command that waits for its answer after it.
fn record_meaning<'a>(
    table: &mut Answers,
    count: u32,
    waiting: Option<&'a [u8]>,
    meaning: AnswerLine<'a>,
) -> Result<Option<&'a [u8]>, AnswersFault>
    requires few { count < MAX_ANSWER_LINES }
    ensures ok { IfOk result (λ next. with_meaning (lines_view count (bytes_of waiting.entry) table.old) (line_view meaning.entry) ≡ Ok (lines_view (count + 1) (bytes_of next) table.new)) }
    ensures err { IfErr result (λ f. (f ≡ no_memory) ⊎ (with_meaning (lines_view count (bytes_of waiting.entry) table.old) (line_view meaning.entry) ≡ Err f)) }
    ensures extends { take (length table.old) table.new ≡ table.old }
{
    match meaning {
        AnswerLine::Comment => Ok(None),
        AnswerLine::Answer { question, answer } => {
            record_answer(table, count, question, answer)?;
            Ok(None)
        }
        AnswerLine::Command(question) => Ok(Some(question)),
        AnswerLine::Malformed => Err(malformed_line(count, waiting)),
    }
}

/// Records the answer that line `count + 1` of a file of answers gives; `line` is without its newline. Returns the question of a
/// command on the line, whose answer must come on the next one.
pub(crate) fn record_line<'a>(
    table: &mut Answers,
    count: u32,
    waiting: Option<&'a [u8]>,
    line: &'a [u8],
) -> Result<Option<&'a [u8]>, AnswersFault>
    requires few { count ≤ MAX_ANSWER_LINES }
    ensures ok { IfOk result (λ next. with_line (lines_view count (bytes_of waiting.entry) table.old) line.now ≡ Ok (lines_view (count + 1) (bytes_of next) table.new)) }
    ensures few { OnOk result (count < MAX_ANSWER_LINES) }
    ensures err { IfErr result (λ f. (f ≡ no_memory) ⊎ (with_line (lines_view count (bytes_of waiting.entry) table.old) line.now ≡ Err f)) }
    ensures extends { take (length table.old) table.new ≡ table.old }
{
    if let Some(kind) = fault_of_line(count, line) {
        return Err(fault_on_next_line(count, kind));
    }
    record_meaning(
        table,
        count,
        waiting,
        meaning_of_line(waiting, without_white_end(line)),
    )
}
