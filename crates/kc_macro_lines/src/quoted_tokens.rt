//! Quoted tokens, and all tokens of a line, with the values of their references.
ghost use Rattle.std.specs.Prelude.{◌≡◌, ◌<◌, [], true, length, IfOk};
ghost use Rattle.kc_macros_model.specs.References.{items};
ghost use Rattle.kc_macros_model.specs.WrittenTokens.{quoted_text_of, written_items, written_token, token_of_quoted_text};
ghost use Rattle.kc_macros.specs.between.Variables.{bindings_of};
ghost use Rattle.kc_macro_forms.specs.between.WrittenTokens.{token_of};
ghost use Rattle.kc_macros.specs.Runs.{place_of, Runs, end_of};
ghost use Rattle.kc_macro_lines.specs.checker.QuotedTexts.{quoted_text_view, has_dollar_or_backslash, quoted_text_left};
ghost use Rattle.kc_macros.specs.checker.ProgramSteps.{Steps};
ghost use Rattle.kc_macro_lines.specs.checker.LineTexts.{token_view};

use super::line_tokens::{LineToken, is_pair};
use super::scope::Scope;
use super::token_values::{QuotedText, push_byte, push_pair, push_reference, written_word};
use kc_macro_forms::{WrittenToken, new_token};
use kc_macros::{
    Bytes, ExpansionState, Stop, begins_reference_at, fault, reference_at_front, text_value,
};
use kc_macros_model::{MacroKind, TokenSort};
use std::alloc::{AllocError, Global};

/// Appends the item at the front of a text between quotes to `out`, of a reference its value; returns the rest.
fn next_item<'t>(
    run: &mut ExpansionState<'_>,
    scope: &Scope<'_>,
    quote: u8,
    text: &'t [u8],
    out: &mut QuotedText,
) -> Result<&'t [u8], Stop>
    requires not_empty { 0 < length text.now }
    ensures steps { Steps run.old run.new (quoted_text_left (place_of scope.now.at) (bindings_of scope.now.bindings.now) quote (quoted_text_view out.old) (items true 0 text.now)) (λ rest. quoted_text_left (place_of scope.now.at) (bindings_of scope.now.bindings.now) quote (quoted_text_view out.new) (items true 0 rest.now)) result }
    ensures shorter { IfOk result (λ rest. length rest.now < length text.now) }
{
    if begins_reference_at(text, 0) {
        let Some((inside, after)) = reference_at_front(text) else {
            return Err(fault(run.alloc(), scope.at, MacroKind::Unterminated, b""));
        };
        let value = text_value(run, scope.at, scope.bindings, &text[..inside.len() + 3])?;
        push_reference(out, quote, &value)?;
        return Ok(after);
    }
    if is_pair(text, true) {
        push_pair(out, text[1])?;
        return Ok(&text[2..]);
    }
    push_byte(out, text[0])?;
    Ok(&text[1..])
}

/// Whether a text has a `$` or a `\`.
fn has_dollar_or_backslash(text: &[u8]) -> bool
    ensures { result ≡ has_dollar_or_backslash text.now }
{
    let mut found = false;
    for byte in text {
        found |= *byte == b'$' || *byte == b'\\';
    }
    found
}

/// Bytes between quotes that are written as they are.
fn plain_quoted_text(alloc: Global, text: &[u8]) -> Result<QuotedText, AllocError>
    ensures { IfOk result (λ quoted_text. quoted_text_view quoted_text ≡ quoted_text_of text.now text.now) }
{
    Ok(QuotedText {
        bytes: Vec::from_slice(alloc, text)?,
        meaning: Vec::from_slice(alloc, text)?,
        known: true,
    })
}

/// No bytes between quotes, with capacity for `capacity` bytes.
fn empty_quoted_text(alloc: Global, capacity: usize) -> Result<QuotedText, AllocError>
    ensures { IfOk result (λ quoted_text. quoted_text_view quoted_text ≡ quoted_text_of [] []) }
{
    Ok(QuotedText {
        bytes: Vec::with_capacity(alloc, capacity)?,
        meaning: Vec::with_capacity(alloc, capacity)?,
        known: true,
    })
}

/// The bytes between quotes as they are written.
fn written_quoted_text(
    run: &mut ExpansionState<'_>,
    scope: &Scope<'_>,
    quote: u8,
    text: &[u8],
) -> Result<QuotedText, Stop>
    ensures { Runs run.old run.new (written_items (place_of scope.now.at) (bindings_of scope.now.bindings.now) quote (items true 0 text.now)) (end_of quoted_text_view result) }
{
    if !has_dollar_or_backslash(text) {
        return Ok(plain_quoted_text(run.alloc(), text)?);
    }
    let mut out = empty_quoted_text(run.alloc(), text.len())?;
    let mut rest = text;
    'items: while !rest.is_empty() {
        rest = next_item(run, scope, quote, rest, &mut out)?;
    }
    Ok(out)
}

/// Bytes between quotes as a token.
fn token_of_quoted_text(
    alloc: Global,
    quote: u8,
    quoted_text: QuotedText,
) -> Result<WrittenToken, AllocError>
    ensures { IfOk result (λ t. token_of t ≡ token_of_quoted_text quote (quoted_text_view quoted_text)) }
{
    let mut bytes = Vec::with_capacity(alloc, quoted_text.bytes.len().saturating_add(2))?;
    bytes.push(quote)?;
    bytes.extend_from_slice(quoted_text.bytes.as_slice())?;
    bytes.push(quote)?;
    let meaning = if quoted_text.known {
        Some(Bytes::from_vec(quoted_text.meaning))
    } else {
        None
    };
    Ok(WrittenToken {
        sort: TokenSort::Quoted,
        bytes: Bytes::from_vec(bytes),
        meaning,
    })
}

/// A token of a line as the expansion writes it, with the values of its references.
pub(crate) fn written_token(
    run: &mut ExpansionState<'_>,
    scope: &Scope<'_>,
    token: LineToken<'_>,
) -> Result<WrittenToken, Stop>
    ensures { Runs run.old run.new (written_token (place_of scope.now.at) (bindings_of scope.now.bindings.now) (token_view token.entry)) (end_of token_of result) }
{
    match token {
        LineToken::Trivia(text) => Ok(new_token(run.alloc(), TokenSort::Trivia, text, b"")?),
        LineToken::Word(text) => written_word(run, scope, text),
        LineToken::Quoted(quote, text) => {
            let quoted_text = written_quoted_text(run, scope, quote, text)?;
            Ok(token_of_quoted_text(run.alloc(), quote, quoted_text)?)
        }
        LineToken::Other(text) => Ok(new_token(run.alloc(), TokenSort::Other, text, b"")?),
        LineToken::Broken(_) => Err(fault(run.alloc(), scope.at, MacroKind::Unterminated, b"")),
    }
}
