//! The first step of a line: it is written, or sources files.
ghost use Rattle.std.specs.Prelude.{◌≡◌, false, ◌||◌, not, nat_lt, length, IfOk, IfErr, Some, option_map};
ghost use Rattle.std.specs.Str.{is_utf8};
ghost use Rattle.kc_macros_model.specs.LineForms.{without_trivia};
ghost use Rattle.kc_macros_model.specs.Programs.{Place as LinePlace, returns};
ghost use Rattle.kc_macros_model.specs.ReadingStates.{ReadingState, progress, written_line};
ghost use Rattle.kc_macros_model.specs.TreeExpansion.{SourceReader, choice_written, form_written, short_line, tokens_written, line_written};
ghost use Rattle.kc_macros.specs.between.Variables.{bindings_of};
ghost use Rattle.kc_macros.specs.Runs.{place_of, Runs, end_of};
ghost use Rattle.kc_macro_forms.specs.between.WrittenTokens.{tokens_of};
ghost use Rattle.kc_macro_forms.specs.between.LineFormViews.{form_view};
ghost use Rattle.kc_files.specs.TreeContents.{TreeContents};
ghost use Rattle.kc_files.specs.between.KnownFiles.{KnownFiles};
ghost use Rattle.kc_expansion.specs.between.Reads.{FileRun, file_run, Reads};
ghost use Rattle.kc_expansion.specs.checker.ProgramSteps.{Steps};
ghost use Rattle.kc_expansion.specs.checker.ReadingViews.{with_lines, step_left, IsNoPath, IsNoSource, assigned_or_fault};

use super::choice_names::ChoiceNames;
use super::faults::fault;
use kc_macro_forms::{
    LineForm, SourceSort, WrittenToken, is_help_line, is_undecided, line_bytes, line_form,
    with_bare_prompt, with_replacement, without_choice_name,
};
use kc_macro_lines::{LineContent, read_line};
use kc_macros::{Assignment, Bindings, ExpansionState, MacroKind, Place, Stop, assign};
use kc_value::MAX_TEXT_BYTES;
use std::alloc::{AllocError, Global};

/// The state of a reading that the lines of a file change: the run, the variables, and the names of choices.
#[derive(Drop)]
pub(crate) struct LineState<'a> {
    pub run: ExpansionState<'a>,
    pub bindings: Bindings,
    pub choices: ChoiceNames,
}

/// The text that a line is written as, and whether a help text follows it.
#[derive(Drop)]
pub(crate) struct NewLine {
    pub text: Vec<u8>,
    pub begins_help: bool,
}

/// A `source` line: its tokens, its sort, and its path as the line has it.
#[derive(Drop)]
pub(crate) struct SourceLine {
    pub tokens: Vec<WrittenToken>,
    pub sort: SourceSort,
    pub given: Vec<u8>,
}

/// The result of the first step of expanding a line: its new text, or a `source` line whose files have to be read first.
#[derive(Drop)]
pub(crate) enum LineStep {
    Written(NewLine),
    Sources(SourceLine),
}

/// A line with its new text, or the fault `LineTooLong` where the text is too long.
pub(crate) fn short_line(
    alloc: Global,
    at: Place<'_>,
    text: Vec<u8>,
    begins_help: bool,
) -> Result<NewLine, Stop>
    ensures { (a : FileRun) (s : ReadingState) → Reads a a (short_line (place_of at.entry) begins_help (progress text.items s)) (end_of (λ l. written_line l.text.items l.begins_help s) result) }
{
    if text.len() > MAX_TEXT_BYTES {
        return Err(fault(alloc, at, MacroKind::LineTooLong));
    }
    Ok(NewLine { text, begins_help })
}

/// Binds the name of an assignment, which no continued line may have.
fn assign_line(
    state: &mut LineState<'_>,
    at: Place<'_>,
    joined: bool,
    assignment: Assignment,
) -> Result<(), Stop>
    ensures choices { state.new.choices ≡ state.old.choices }
    ensures run { Runs state.old.run state.new.run (assigned_or_fault (place_of at.entry) joined (bindings_of state.old.bindings) assignment) (end_of (λ _. bindings_of state.new.bindings) result) }
{
    if joined {
        return Err(fault(state.run.alloc(), at, MacroKind::JoinedAssignment));
    }
    assign(&mut state.run, at, &mut state.bindings, assignment)
}

/// The text of a line that names a choice: the first choice of a name loses it.
fn choice_line(
    alloc: Global,
    choices: &mut ChoiceNames,
    tokens: &[WrittenToken],
    name: &[u8],
) -> Result<Vec<u8>, AllocError>
    ensures { IfOk result (λ t. (s : ReadingState) → s.choices ≡ choices.old → choice_written (tokens_of tokens.now) name.now s ≡ progress t.items (record s { choices = choices.new })) }
{
    if choices.has(name) {
        return line_bytes(alloc, tokens);
    }
    choices.insert(name)?;
    without_choice_name(alloc, tokens)
}

/// The text of a line that sources no files, by its form.
fn form_text(
    alloc: Global,
    choices: &mut ChoiceNames,
    tokens: &[WrittenToken],
    form: LineForm<'_>,
) -> Result<Vec<u8>, AllocError>
    requires no_source { IsNoSource (form_view form) }
    ensures value { IfOk result (λ t. (sub : SourceReader) (at : LinePlace) (s : ReadingState) → s.choices ≡ choices.old → form_written sub at (tokens_of tokens.now) (form_view form.entry) s ≡ returns (progress t.items (record s { choices = choices.new }))) }
{
    match form {
        LineForm::BarePrompt(text) => with_bare_prompt(alloc, tokens, text),
        LineForm::ReplacedBy(text) => with_replacement(alloc, tokens, text),
        LineForm::NamedChoice(name) => choice_line(alloc, choices, tokens, name),
        LineForm::Plain => line_bytes(alloc, tokens),
        LineForm::Sources(..) => line_bytes(alloc, tokens),
    }
}

/// A copy of the path of a `source` line; where it isn't known, the reading ends.
fn given_path(alloc: Global, given: Option<&[u8]>) -> Result<Vec<u8>, Stop>
    ensures ok { IfOk result (λ path. option_map (λ t. t.now) given.entry ≡ Some path.items) }
    ensures err { IfErr result (λ stop. IsNoPath (option_map (λ t. t.now) given.entry) stop) }
{
    match given {
        Some(path) => Ok(Vec::from_slice(alloc, path)?),
        None => Err(Stop::Unanswered),
    }
}

/// The first step of expanding a line with these tokens: its new text, or the files that have to be read first.
fn tokens_step(
    state: &mut LineState<'_>,
    at: Place<'_>,
    tokens: Vec<WrittenToken>,
) -> Result<LineStep, Stop>
    ensures { (contents : TreeContents) (known : KnownFiles) (sub : SourceReader) (s : ReadingState)
        → Steps (file_run contents known state.old.run) (file_run contents known state.new.run) (tokens_written sub (place_of at.entry) (with_lines state.old s) (tokens_of tokens.items) (without_trivia (tokens_of tokens.items))) (λ step. step_left sub (place_of at.entry) step (with_lines state.new s)) result }
{
    let alloc = state.run.alloc();
    if is_undecided(&tokens) {
        return Err(Stop::Unanswered);
    }
    match line_form(&tokens) {
        LineForm::Sources(sort, given) => {
            let given = given_path(alloc, given)?;
            Ok(LineStep::Sources(SourceLine {
                tokens,
                sort,
                given,
            }))
        }
        form => {
            let text = form_text(alloc, &mut state.choices, &tokens, form)?;
            let line = short_line(alloc, at, text, is_help_line(&tokens))?;
            Ok(LineStep::Written(line))
        }
    }
}

/// The first step of expanding a line that may have macros: its new text, empty for an assignment, or the `source` line whose
/// files have to be read first.
pub(crate) fn line_step(
    state: &mut LineState<'_>,
    at: Place<'_>,
    joined: bool,
    text: &[u8],
) -> Result<LineStep, Stop>
    requires may_change { (nat_lt MAX_TEXT_BYTES (length text.now) || not (is_utf8 text.now)) ≡ false }
    ensures steps { (contents : TreeContents) (known : KnownFiles) (sub : SourceReader) (s : ReadingState)
        → Steps (file_run contents known state.old.run) (file_run contents known state.new.run) (line_written sub (place_of at.entry) joined text.now (with_lines state.old s)) (λ step. step_left sub (place_of at.entry) step (with_lines state.new s)) result }
{
    match read_line(&mut state.run, at, &state.bindings, text)? {
        LineContent::Assigns(assignment) => {
            assign_line(state, at, joined, assignment)?;
            Ok(LineStep::Written(NewLine {
                text: Vec::new(state.run.alloc()),
                begins_help: false,
            }))
        }
        LineContent::Tokens(tokens) => tokens_step(state, at, tokens),
    }
}
