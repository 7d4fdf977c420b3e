//! A line as an assignment, or as written tokens.
ghost use Rattle.std.specs.Prelude.{◌≡◌, ◌+◌, ◌<◌, ◌^◌, ◌∷◌, ◌&&◌, true, None, Some, length, IfOk};
ghost use Rattle.kc_macros_model.specs.LineTokens.{token_bytes, line_tokens};
ghost use Rattle.kc_macros_model.specs.Assignments.{is_trivia, assignment_to, assignment_at, is_open_front, line_content};
ghost use Rattle.kc_macros.specs.between.Variables.{bindings_of};
ghost use Rattle.kc_macro_forms.specs.between.WrittenTokens.{token_of};
ghost use Rattle.kc_macro_lines.specs.between.LineContents.{content_of};
ghost use Rattle.kc_macros.specs.Runs.{place_of, Runs, end_of};
ghost use Rattle.kc_macros.specs.checker.ProgramSteps.{Steps};
ghost use Rattle.kc_macro_lines.specs.checker.LineTexts.{token_view, has_token};
ghost use Rattle.kc_macro_lines.specs.checker.LineFronts.{name_token, assigned_of, front_left, step_left, IsShorter};

use super::assignment_syntax::{FoundAssignment, assignment_at, without_white_front};
use super::line_tokens::{LineToken, first_token};
use super::quoted_tokens::written_token;
use super::scope::Scope;
use super::token_values::run_value;
use kc_macro_forms::{WrittenToken, is_trivia, is_unknown, token_of_text};
use kc_macros::{Assignment, Bytes, ExpansionState, Stop};

/// The content of a logical line: an assignment to a variable, or written tokens.
#[derive(Drop)]
pub enum LineContent {
    Assigns(Assignment),
    Tokens(Vec<WrittenToken>),
}

/// The first tokens of a line, as they are written, and whether the name of an assignment may come next.
#[derive(Drop)]
pub(crate) struct LineFront {
    pub(crate) tokens: Vec<WrittenToken>,
    pub(crate) may_assign: bool,
}

/// What the reading of a token of a line gives: the bytes after the token, or the assignment that the line is.
#[derive(Drop)]
pub(crate) enum ContentStep<'t> {
    Rest(&'t [u8]),
    Assigns(Assignment),
}

/// How many bytes a token has.
fn token_length(token: LineToken<'_>) -> usize
    requires small { length (token_bytes (token_view token)) < 2 ^ 64 }
    ensures value { result ≡ length (token_bytes (token_view token.entry)) }
{
    match token {
        LineToken::Trivia(text)
        | LineToken::Word(text)
        | LineToken::Other(text)
        | LineToken::Broken(text) => text.len(),
        LineToken::Quoted(_, text) => text.len() + 2,
    }
}

/// The token at the front of the text of a line, which isn't empty, and the bytes after the token.
pub(crate) fn front_token(text: &[u8]) -> (LineToken<'_>, &[u8])
    requires not_empty { 0 < length text.now }
    ensures tokens { line_tokens 0 text.now ≡ token_view result.0 ∷ line_tokens 0 result.1.now }
    ensures shorter { length result.1.now < length text.now }
{
    let token = first_token(text);
    (token, text.split_at(token_length(token)).1)
}

/// Whether a line has a token that is neither white nor a comment.
pub(crate) fn has_token(text: &[u8]) -> bool
    ensures { result ≡ has_token text.now }
{
    let rest = without_white_front(text);
    if rest.is_empty() {
        return false;
    }
    rest[0] != b'#'
}

/// Whether a first token that may be gone has more after it, so that it isn't known whether that is an assignment.
fn is_open_front(may_assign: bool, written: &WrittenToken, after: &[u8]) -> bool
    ensures { result ≡ is_open_front may_assign (token_of written.now) (line_tokens 0 after.now) }
{
    may_assign && is_unknown(written) && has_token(after)
}

/// Whether the name of an assignment may come after a token: only where nothing but trivia came before.
fn may_still_assign(may_assign: bool, written: &WrittenToken) -> bool
    ensures { result ≡ (may_assign && is_trivia (token_of written.now)) }
{
    may_assign && is_trivia(written)
}

/// Writes a token that is no name of an assignment, and appends it to those before it.
fn push_token(
    run: &mut ExpansionState<'_>,
    scope: &Scope<'_>,
    token: LineToken<'_>,
    after: &[u8],
    front: &mut LineFront,
) -> Result<(), Stop>
    requires unassigned { assignment_at front.old.may_assign (token_view token) (line_tokens 0 after.now) ≡ None }
    ensures steps { Steps run.old run.new (front_left (place_of scope.now.at) (bindings_of scope.now.bindings.now) front.old (token_view token.entry ∷ line_tokens 0 after.now)) (λ u. front_left (place_of scope.now.at) (bindings_of scope.now.bindings.now) front.new (line_tokens 0 after.now)) result }
{
    let written = written_token(run, scope, token)?;
    if is_open_front(front.may_assign, &written, after) {
        return Err(Stop::Unanswered);
    }
    front.may_assign = may_still_assign(front.may_assign, &written);
    front.tokens.push(written)?;
    Ok(())
}

/// The assignment that a line is; a name whose value is empty is trivia, and the line goes on.
fn assigned_or_trivia<'t>(
    run: &mut ExpansionState<'_>,
    scope: &Scope<'_>,
    found: FoundAssignment<'t>,
    after: &'t [u8],
    front: &mut LineFront,
) -> Result<ContentStep<'t>, Stop>
    requires found { assignment_to (name_token found.name.now) (line_tokens 0 after.now) ≡ Some (assigned_of found) }
    requires may_assign { front.old.may_assign ≡ true }
    ensures steps { Steps run.old run.new (front_left (place_of scope.now.at) (bindings_of scope.now.bindings.now) front.old (name_token found.entry.name.now ∷ line_tokens 0 after.now)) (step_left (place_of scope.now.at) (bindings_of scope.now.bindings.now) front.new) result }
    ensures shorter { IfOk result (λ s. IsShorter s (length after.now + 1)) }
{
    let Some(name) = run_value(run, scope, found.name)? else {
        return Err(Stop::Unanswered);
    };
    if name.as_slice().is_empty() {
        let trivia = token_of_text(run.alloc(), b"")?;
        front.tokens.push(trivia)?;
        return Ok(ContentStep::Rest(after));
    }
    let text = Bytes::copied(run.alloc(), found.text)?;
    Ok(ContentStep::Assigns(Assignment {
        name,
        operator: found.operator,
        text,
    }))
}

/// Reads the token at the front of the rest of a line.
fn next_token<'t>(
    run: &mut ExpansionState<'_>,
    scope: &Scope<'_>,
    text: &'t [u8],
    front: &mut LineFront,
) -> Result<ContentStep<'t>, Stop>
    requires not_empty { 0 < length text.now }
    ensures steps { Steps run.old run.new (front_left (place_of scope.now.at) (bindings_of scope.now.bindings.now) front.old (line_tokens 0 text.now)) (step_left (place_of scope.now.at) (bindings_of scope.now.bindings.now) front.new) result }
    ensures shorter { IfOk result (λ s. IsShorter s (length text.now)) }
{
    let (token, after) = front_token(text);
    match assignment_at(front.may_assign, token, after) {
        Some(found) => assigned_or_trivia(run, scope, found, after, front),
        None => {
            push_token(run, scope, token, after, front)?;
            Ok(ContentStep::Rest(after))
        }
    }
}

/// The content of a logical line by its tokens: an assignment, or the tokens with the values of their references.
pub(crate) fn read_tokens(
    run: &mut ExpansionState<'_>,
    scope: &Scope<'_>,
    text: &[u8],
) -> Result<LineContent, Stop>
    ensures { Runs run.old run.new (line_content (place_of scope.now.at) (bindings_of scope.now.bindings.now) true (line_tokens 0 text.now)) (end_of content_of result) }
{
    let mut front = LineFront {
        tokens: Vec::new(run.alloc()),
        may_assign: true,
    };
    let mut rest = text;
    'tokens: while !rest.is_empty() {
        match next_token(run, scope, rest, &mut front)? {
            ContentStep::Rest(after) => rest = after,
            ContentStep::Assigns(assignment) => return Ok(LineContent::Assigns(assignment)),
        }
    }
    Ok(LineContent::Tokens(front.tokens))
}
