//! Reads a line.
ghost use Rattle.std.specs.Cow.{cow_slice_items};
ghost use Rattle.std.specs.Prelude.{◌≡◌, ◌≤◌, List, Some, false, length, nat_lt, slice_range};
ghost use Rattle.kc_lines.specs.between.LinePlaces.{BeginsAt};
ghost use Rattle.kc_tokens.specs.Token.{lexemes_of};
ghost use Rattle.kc_tree_model.specs.Blocks.{Group};
ghost use Rattle.kc_tree_model.specs.Limits.{FileSource};
ghost use Rattle.kc_tree_model.specs.LogicalLines.{is_help, is_help_word};
ghost use Rattle.kc_tree_model.specs.TreeReading.{statement_of_tokens, statement_by_keyword};
ghost use Rattle.kc_value.specs.declared.limits.TheConstants.{MAX_LINE_BYTES};
ghost use Rattle.kc_parser.specs.checker.StateViews.{Describes, file_source_of};
ghost use Rattle.kc_parser.specs.checker.StatementResults.{begins_with, ReturnsStatementRead};
ghost use Rattle.kc_parser.specs.checker.Steps.{ReturnsLineRead};

use super::placement::fault_before_form;
use super::state::{Position, ReaderState, SourceFile, SourceFiles, Step};
use super::text::{checked_line, text_between};
use kc_statements::{keyword_of, statement_of, tree_kind_of};
use kc_tokens::{Language, Token, push_tokens};
use kc_tree_model::{Keyword, TreeKind};
use kc_value::MAX_LINE_BYTES;
use std::borrow::CowSlice;

/// Whether a keyword begins a help text.
fn is_help_keyword(keyword: Keyword) -> bool
    ensures { result ≡ is_help_word (Some keyword) }
{
    matches!(keyword, Keyword::Help)
}

/// Reads the tokens of a line after its keyword.
fn read_form(
    read: &mut ReaderState,
    language: Language,
    at: Position,
    keyword: Keyword,
    tokens: &[Token<'_>],
) -> Result<Step, TreeKind>
    ensures { (r : FileSource) (before : List Group) → Describes r read.old before
        → ReturnsStatementRead r at.file at.line (statement_by_keyword language before keyword (lexemes_of tokens.now)) (begins_with keyword (lexemes_of tokens.now)) before read.new result }
{
    if let Some(kind) = fault_before_form(read, language, keyword, tokens) {
        return Err(kind);
    }
    let statement = match statement_of(read.alloc, &mut read.listing.names.arena, keyword, tokens) {
        Ok(statement) => statement,
        Err(kind) => return Err(kind),
    };
    match read.push_statement(at, statement) {
        Ok(Some(path)) => Ok(Step::Source(path)),
        Ok(None) if is_help_keyword(keyword) => Ok(Step::Help),
        Ok(None) => Ok(Step::Next),
        Err(kind) => Err(kind),
    }
}

/// Reads the tokens of a line.
fn read_tokens(
    read: &mut ReaderState,
    language: Language,
    at: Position,
    tokens: &[Token<'_>],
) -> Result<Step, TreeKind>
    ensures { (r : FileSource) (before : List Group) → Describes r read.old before
        → ReturnsStatementRead r at.file at.line (statement_of_tokens language before (lexemes_of tokens.now)) (is_help (lexemes_of tokens.now)) before read.new result }
{
    let Some((first, rest)) = tokens.split_first() else {
        return Ok(Step::Next);
    };
    let Some(keyword) = keyword_of(first) else {
        return Err(TreeKind::UnknownStatement);
    };
    read_form(read, language, at, keyword, rest)
}

/// Reads the text of a logical line that isn't of a help text. `found` is emptied and takes its tokens, so that lines can share it.
fn read_text<'a>(
    read: &mut ReaderState,
    from: SourceFiles<'_>,
    at: Position,
    text: &'a str,
    found: &mut Vec<Token<'a>>,
) -> Result<Step, TreeKind>
    requires short { nat_lt MAX_LINE_BYTES (length text.now) ≡ false }
    ensures { (before : List Group) → Describes (file_source_of from.entry) read.old before
        → ReturnsLineRead (file_source_of from.entry) at.file at.line text.now before read.new result }
{
    found.clear();
    let language = from.texts.language();
    match push_tokens(language, text, found) {
        Ok(()) => read_tokens(read, language, at, found.as_slice()),
        Err(fault) => Err(tree_kind_of(fault.kind)),
    }
}

/// Reads a line that is joined of several, which has a list of tokens of its own.
fn read_joined(
    read: &mut ReaderState,
    from: SourceFiles<'_>,
    at: Position,
    bytes: &[u8],
) -> Result<Step, TreeKind>
    ensures { (before : List Group) → Describes (file_source_of from.entry) read.old before
        → ReturnsLineRead (file_source_of from.entry) at.file at.line bytes.now before read.new result }
{
    let text = match checked_line(bytes) {
        Ok(text) => text,
        Err(kind) => return Err(kind),
    };
    let mut found = Vec::new(read.alloc);
    read_text(read, from, at, text, &mut found)
}

/// Reads a logical line that is one line of a file, from one place in it to another, and isn't of a help text.
fn read_part<'a>(
    read: &mut ReaderState,
    from: SourceFiles<'_>,
    file: SourceFile<'a>,
    line: u32,
    begin: usize,
    end: usize,
    found: &mut Vec<Token<'a>>,
) -> Result<Step, TreeKind>
    requires order { begin ≤ end }
    requires within { end ≤ length file.bytes.now }
    ensures { (before : List Group) → Describes (file_source_of from.entry) read.old before
        → ReturnsLineRead (file_source_of from.entry) file.entry.number line (slice_range file.entry.bytes.now begin end) before read.new result }
{
    let here = Position {
        file: file.number,
        line,
    };
    match text_between(file, begin, end) {
        Ok(text) => read_text(read, from, here, text, found),
        Err(kind) => Err(kind),
    }
}

/// Reads a logical line that begins at a place of a file and isn't of a help text, whether it is one line of the file or joined of
/// several.
pub(crate) fn read_logical<'a>(
    read: &mut ReaderState,
    from: SourceFiles<'_>,
    file: SourceFile<'a>,
    line: u32,
    at: usize,
    text: &CowSlice<'a, u8>,
    found: &mut Vec<Token<'a>>,
) -> Result<Step, TreeKind>
    requires part { BeginsAt file.bytes.now at text.now }
    ensures { (before : List Group) → Describes (file_source_of from.entry) read.old before
        → ReturnsLineRead (file_source_of from.entry) file.entry.number line (cow_slice_items text.now) before read.new result }
{
    match text {
        CowSlice::Borrowed(bytes) => {
            read_part(read, from, file, line, at, at + bytes.len(), found)
        }
        CowSlice::Owned(bytes) => {
            let here = Position {
                file: file.number,
                line,
            };
            read_joined(read, from, here, bytes.as_slice())
        }
    }
}
