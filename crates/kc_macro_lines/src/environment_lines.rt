//! Lines `option env="X"`: each asks the environment variable X as a reference to it does.
ghost use Rattle.std.specs.Prelude.{◌≡◌, ◌∷◌, true, [], option_map, IfOk, IfSome, IfNone};
ghost use Rattle.kc_macros_model.specs.LineTokens.{line_tokens};
ghost use Rattle.kc_macros_model.specs.Assignments.{is_trivia_token, line_content};
ghost use Rattle.kc_macros_model.specs.EnvironmentLines.{solid_tokens, is_run, is_equals_sign, quoted_name, asked_after_sign, asked_after_env, asked_after_option, environment_asked, environment_line, meant_line};
ghost use Rattle.kc_macros.specs.Runs.{place_of, Runs, end_of};
ghost use Rattle.kc_macros.specs.between.Variables.{bindings_of};
ghost use Rattle.kc_macro_lines.specs.between.LineContents.{content_of};
ghost use Rattle.kc_macro_lines.specs.checker.LineTexts.{token_view, has_equals_sign};

use super::line_content::{LineContent, front_token, read_tokens};
use super::line_tokens::LineToken;
use super::scope::Scope;
use kc_macros::{Bindings, ExpansionState, Place, Stop, is_text};
use kc_macros_model::is_environment_name;
use std::alloc::{AllocError, Global};

/// Whether a token is white or a comment.
fn is_trivia_token(token: LineToken<'_>) -> bool
    ensures { result ≡ is_trivia_token (token_view token.entry) }
{
    matches!(token, LineToken::Trivia(_))
}

/// The first token of a text that is neither white nor a comment, and the bytes after it.
fn next_solid(text: &[u8]) -> Option<(LineToken<'_>, &[u8])>
    ensures some { IfSome result (λ r. solid_tokens (line_tokens 0 text.now) ≡ token_view r.0 ∷ solid_tokens (line_tokens 0 r.1.now)) }
    ensures none { IfNone result (solid_tokens (line_tokens 0 text.now) ≡ []) }
{
    let mut rest = text;
    'tokens: while !rest.is_empty() {
        let (token, after) = front_token(rest);
        if !is_trivia_token(token) {
            return Some((token, after));
        }
        rest = after;
    }
    None
}

/// Whether a text has a `=`.
fn has_equals_sign(text: &[u8]) -> bool
    ensures { result ≡ has_equals_sign text.now }
{
    let mut found = false;
    for byte in text {
        found |= *byte == b'=';
    }
    found
}

/// Whether a token is this run.
fn is_run(word: &[u8], token: LineToken<'_>) -> bool
    ensures { result ≡ is_run word.now (token_view token.entry) }
{
    match token {
        LineToken::Word(text) => is_text(text, word),
        _ => false,
    }
}

/// Whether a token is `=`.
fn is_equals_sign(token: LineToken<'_>) -> bool
    ensures { result ≡ is_equals_sign (token_view token.entry) }
{
    match token {
        LineToken::Other(text) => is_text(text, b"="),
        _ => false,
    }
}

/// The name between the quotes of a token, if it may be that of an environment variable.
fn quoted_name(token: LineToken<'_>) -> Option<&[u8]>
    ensures { option_map (λ name. name.now) result ≡ quoted_name (token_view token.entry) }
{
    match token {
        LineToken::Quoted(_, name) => {
            if is_environment_name(name) {
                Some(name)
            } else {
                None
            }
        }
        _ => None,
    }
}

/// The variable that `option env="X"` asks, by the bytes after `=`, which are a quoted name.
fn asked_after_sign(text: &[u8]) -> Option<&[u8]>
    ensures { option_map (λ name. name.now) result ≡ asked_after_sign (solid_tokens (line_tokens 0 text.now)) }
{
    let Some((token, after)) = next_solid(text) else {
        return None;
    };
    match next_solid(after) {
        Some(_) => None,
        None => quoted_name(token),
    }
}

/// The variable that `option env="X"` asks, by the bytes after `env`.
fn asked_after_env(text: &[u8]) -> Option<&[u8]>
    ensures { option_map (λ name. name.now) result ≡ asked_after_env (solid_tokens (line_tokens 0 text.now)) }
{
    let Some((token, after)) = next_solid(text) else {
        return None;
    };
    if !is_equals_sign(token) {
        return None;
    }
    asked_after_sign(after)
}

/// The variable that `option env="X"` asks, by the bytes after `option`.
fn asked_after_option(text: &[u8]) -> Option<&[u8]>
    ensures { option_map (λ name. name.now) result ≡ asked_after_option (solid_tokens (line_tokens 0 text.now)) }
{
    let Some((token, after)) = next_solid(text) else {
        return None;
    };
    if !is_run(b"env", token) {
        return None;
    }
    asked_after_env(after)
}

/// The environment variable X that a line `option env="X"` asks; `None` for any other line.
fn environment_asked(text: &[u8]) -> Option<&[u8]>
    ensures { option_map (λ name. name.now) result ≡ environment_asked text.now }
{
    if !has_equals_sign(text) {
        return None;
    }
    let Some((token, after)) = next_solid(text) else {
        return None;
    };
    if !is_run(b"option", token) {
        return None;
    }
    asked_after_option(after)
}

/// The line `option env` with a reference to a variable in quotes.
fn environment_line(alloc: Global, name: &[u8]) -> Result<Vec<u8>, AllocError>
    ensures { IfOk result (λ line. line.items ≡ environment_line name.now) }
{
    let mut line = Vec::from_slice(alloc, b"option env \"$(")?;
    line.extend_from_slice(name)?;
    line.extend_from_slice(b")\"")?;
    Ok(line)
}

/// The content of a logical line: an assignment, or its tokens with the values of their references. A line `option env="X"` is
/// read as `option env "$(X)"`.
///
/// # Errors
///
/// The first fault of the expansion; `Unanswered` where it isn't known whether the line is an assignment, or to which
/// name; or memory ran out.
pub fn read_line(
    run: &mut ExpansionState<'_>,
    at: Place<'_>,
    bindings: &Bindings,
    text: &[u8],
) -> Result<LineContent, Stop>
    ensures { Runs run.old run.new (line_content (place_of at.entry) (bindings_of bindings.now) true (line_tokens 0 (meant_line text.now))) (end_of content_of result) }
{
    let scope = Scope { at, bindings };
    match environment_asked(text) {
        Some(name) => {
            let line = environment_line(run.alloc(), name)?;
            read_tokens(run, &scope, &line)
        }
        None => read_tokens(run, &scope, text),
    }
}
