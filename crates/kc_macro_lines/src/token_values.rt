//! The tokens of a line with the values of their references.
ghost use Rattle.std.specs.Prelude.{◌≡◌, ◌==◌, ◌<◌, [], ◌∷◌, false, length, OnOk, if◌then◌else◌};
ghost use Rattle.std.specs.List.{list_any};
ghost use Rattle.kc_macros_model.specs.References.{is_reference, is_plain_dollar, items};
ghost use Rattle.kc_macros_model.specs.WrittenTokens.{run_value, written_run, joined_quoted_texts, quoted_text_of, quoted_text_of_value};
ghost use Rattle.kc_macros.specs.between.Variables.{bindings_of};
ghost use Rattle.kc_macro_forms.specs.between.WrittenTokens.{token_of};
ghost use Rattle.kc_macros.specs.Runs.{place_of, Runs, end_of};
ghost use Rattle.kc_macro_lines.specs.checker.QuotedTexts.{quoted_text_view};
ghost use Rattle.kc_macro_lines.specs.checker.RunContents.{IsRunContent};
ghost use Rattle.kc_macro_lines.specs.checker.LineTexts.{first_item_of};

use super::line_tokens::item_length;
use super::scope::Scope;
use kc_macro_forms::{WrittenToken, new_token, push_escaped, token_of_value};
use kc_macros::{Bytes, ExpansionState, Stop, begins_reference_at, inside_length, text_value};
use kc_macros_model::TokenSort;
use std::alloc::AllocError;

/// Whether a text has a `$`.
pub(crate) fn has_dollar(text: &[u8]) -> bool
    ensures { result ≡ list_any (λ c. c == 36) text.now }
{
    text.iter().any(|&byte| byte == b'$')
}

/// The value of a run, a token of word bytes and references; it is its own text if it has no `$`.
pub(crate) fn run_value(
    run: &mut ExpansionState<'_>,
    scope: &Scope<'_>,
    text: &[u8],
) -> Result<Option<Bytes>, Stop>
    ensures { Runs run.old run.new (run_value (place_of scope.now.at) (bindings_of scope.now.bindings.now) text.now) (end_of (λ v. v) result) }
{
    if has_dollar(text) {
        return text_value(run, scope.at, scope.bindings, text);
    }
    Ok(Some(Bytes::copied(run.alloc(), text)?))
}

/// Whether a text begins with a reference that ends.
fn is_reference_front(text: &[u8]) -> bool
    requires not_empty { 0 < length text.now }
    ensures value { result ≡ is_reference (first_item_of false text.now) }
{
    begins_reference_at(text, 0) && inside_length(&text[2..]).is_some()
}

/// Whether a text begins with a `$` that begins no reference.
fn is_plain_dollar_front(text: &[u8]) -> bool
    requires not_empty { 0 < length text.now }
    ensures value { result ≡ is_plain_dollar (first_item_of false text.now) }
{
    !begins_reference_at(text, 0) && text[0] == b'$'
}

/// What a run has: a `$` that begins no reference, else a reference, or only word bytes.
#[derive(Clone, Copy)]
enum RunContent {
    PlainDollar,
    Reference,
    Word,
}

/// What a run has.
fn run_content(text: &[u8]) -> RunContent
    ensures { IsRunContent (items false 0 text.now) result }
{
    let mut has_reference = false;
    let mut rest = text;
    'items: while !rest.is_empty() {
        if is_plain_dollar_front(rest) {
            return RunContent::PlainDollar;
        }
        has_reference = has_reference || is_reference_front(rest);
        rest = &rest[item_length(rest, false)..];
    }
    if has_reference {
        RunContent::Reference
    } else {
        RunContent::Word
    }
}

/// A run, a token of word bytes and references, as the expansion writes it: its value as one token. A run with a `$` that begins
/// no reference is kept, so that the reader of the written line refuses it.
pub(crate) fn written_word(
    run: &mut ExpansionState<'_>,
    scope: &Scope<'_>,
    text: &[u8],
) -> Result<WrittenToken, Stop>
    ensures { Runs run.old run.new (written_run (place_of scope.now.at) (bindings_of scope.now.bindings.now) text.now) (end_of token_of result) }
{
    match run_content(text) {
        RunContent::PlainDollar => Ok(new_token(run.alloc(), TokenSort::Other, text, b"")?),
        RunContent::Reference => {
            let value = text_value(run, scope.at, scope.bindings, text)?;
            Ok(token_of_value(run.alloc(), &value)?)
        }
        RunContent::Word => Ok(new_token(run.alloc(), TokenSort::Word, text, text)?),
    }
}

/// The bytes that are written between two quotes so far, and the text that they mean, if it is known.
#[derive(Drop)]
pub(crate) struct QuotedText {
    pub(crate) bytes: Vec<u8>,
    pub(crate) meaning: Vec<u8>,
    pub(crate) known: bool,
}

/// Appends a byte to those written between two quotes; a `$` gets a backslash.
pub(crate) fn push_byte(out: &mut QuotedText, byte: u8) -> Result<(), AllocError>
    ensures { OnOk result (quoted_text_view out.new ≡ joined_quoted_texts (quoted_text_view out.old) (quoted_text_of (if byte == 36 then 92 ∷ byte ∷ [] else byte ∷ []) (byte ∷ []))) }
{
    if byte == b'$' {
        out.bytes.push(b'\\')?;
    }
    out.bytes.push(byte)?;
    out.meaning.push(byte)?;
    Ok(())
}

/// Appends a backslash and another byte to those written between two quotes.
pub(crate) fn push_pair(out: &mut QuotedText, byte: u8) -> Result<(), AllocError>
    ensures { OnOk result (quoted_text_view out.new ≡ joined_quoted_texts (quoted_text_view out.old) (quoted_text_of (92 ∷ byte ∷ []) (byte ∷ []))) }
{
    out.bytes.push(b'\\')?;
    out.bytes.push(byte)?;
    out.meaning.push(byte)?;
    Ok(())
}

/// Appends the value of a reference to the bytes written between two quotes, with backslashes where they are needed.
pub(crate) fn push_reference(
    out: &mut QuotedText,
    quote: u8,
    value: &Option<Bytes>,
) -> Result<(), AllocError>
    ensures { OnOk result (quoted_text_view out.new ≡ joined_quoted_texts (quoted_text_view out.old) (quoted_text_of_value quote value.now)) }
{
    match value {
        Some(text) => {
            push_escaped(&mut out.bytes, quote, text.as_slice())?;
            out.meaning.extend_from_slice(text.as_slice())?;
        }
        None => out.known = false,
    }
    Ok(())
}
