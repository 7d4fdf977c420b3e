//! The meanings of the lines of a file of answers.
ghost use Rattle.std.specs.Prelude.{◌≡◌, ◌+◌, ◌<◌, ◌==◌, Some, IfSome, length, position, slice_index, option_map};
ghost use Rattle.kc_tree_model.specs.LogicalLines.{without_white_end};
ghost use Rattle.kc_macros_model.specs.AnswerFiles.{line_after_command, name_not_set, name_with_text, line_alone, meaning_of_line};
ghost use Rattle.kc_answers.specs.checker.LineView.{line_view};

use kc_macros_model::is_environment_name;
use kc_tokens::white_end;

/// The meaning of a line of a file of answers, white at its end aside.
#[derive(Clone, Copy, Debug, PartialEq, Eq)]
pub(crate) enum AnswerLine<'a> {
    /// An empty line, or a comment.
    Comment,
    /// A question and its answer, which is `None` for a name that isn't set.
    Answer {
        question: &'a [u8],
        answer: Option<&'a [u8]>,
    },
    /// The question of a shell command, whose answer comes on the next line.
    Command(&'a [u8]),
    /// A line that is neither empty nor a comment, an answer or a command.
    Malformed,
}

/// A line without the white bytes at its end.
pub fn without_white_end(line: &[u8]) -> &[u8]
    ensures { result.now ≡ without_white_end line.now }
{
    &line[..white_end(line)]
}

/// The byte of a line at a place, which is counted from 0; 0 if the line ends before it.
pub fn byte_at(line: &[u8], at: usize) -> u8
    ensures { result ≡ slice_index line.now at }
{
    match line.get(at) {
        Some(byte) => *byte,
        None => 0,
    }
}

/// The meaning of a line after a command: `>` alone, or `> ` and the answer.
fn line_after_command<'a>(question: &'a [u8], line: &'a [u8]) -> AnswerLine<'a>
    ensures { line_view result ≡ line_after_command question.now line.now }
{
    if byte_at(line, 0) == b'>' && line.len() == 1 {
        return AnswerLine::Answer {
            question,
            answer: Some(b""),
        };
    }
    if byte_at(line, 0) == b'>' && byte_at(line, 1) == b' ' {
        return AnswerLine::Answer {
            question,
            answer: Some(&line[2..]),
        };
    }
    AnswerLine::Malformed
}

/// The meaning of `!` and a name: the name isn't set.
fn name_not_set(name: &[u8]) -> AnswerLine<'_>
    ensures { line_view result ≡ name_not_set name.now }
{
    if is_environment_name(name) {
        AnswerLine::Answer {
            question: name,
            answer: None,
        }
    } else {
        AnswerLine::Malformed
    }
}

/// The place of the first `=` in a line.
fn place_of_equals(line: &[u8]) -> Option<usize>
    ensures value { result ≡ position (λ c. c == 61) line.now }
    ensures within { IfSome result (λ at. at < length line.now) }
{
    line.iter().position(|&byte| byte == b'=')
}

/// The meaning of a name, `=` and a text, by the place of the `=`.
fn name_with_text(line: &[u8], at: usize) -> AnswerLine<'_>
    requires there { at < length line.now }
    ensures value { line_view result ≡ name_with_text line.now (Some at) }
{
    if !is_environment_name(&line[..at]) {
        return AnswerLine::Malformed;
    }
    AnswerLine::Answer {
        question: &line[..at],
        answer: Some(&line[at + 1..]),
    }
}

/// The meaning of a line that follows no command.
fn line_alone(line: &[u8]) -> AnswerLine<'_>
    ensures { line_view result ≡ line_alone line.now }
{
    if line.is_empty() || byte_at(line, 0) == b'#' {
        return AnswerLine::Comment;
    }
    if byte_at(line, 0) == b'!' {
        return name_not_set(&line[1..]);
    }
    if byte_at(line, 0) == b'$' {
        return if byte_at(line, 1) == b' ' {
            AnswerLine::Command(line)
        } else {
            AnswerLine::Malformed
        };
    }
    match place_of_equals(line) {
        Some(at) => name_with_text(line, at),
        None => AnswerLine::Malformed,
    }
}

/// The meaning of a line of a file of answers, without white at its end; `waiting` is the question of a command on the line
/// before.
pub(crate) fn meaning_of_line<'a>(waiting: Option<&'a [u8]>, line: &'a [u8]) -> AnswerLine<'a>
    ensures { line_view result ≡ meaning_of_line (option_map (λ q. q.now) waiting.entry) line.now }
{
    match waiting {
        Some(question) => line_after_command(question, line),
        None => line_alone(line),
    }
}
