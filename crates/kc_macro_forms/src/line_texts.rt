//! The bytes of written lines.
ghost use Rattle.std.specs.Prelude.{◌≡◌, ◌++◌, ◌∷◌, [], codes, OnOk, IfOk};
ghost use Rattle.kc_macros_model.specs.declared.token_sort.TokenSort.TheVariants.{Word};
ghost use Rattle.kc_macros_model.specs.WrittenTokens.{WrittenToken as Written, written_as};
ghost use Rattle.kc_macros_model.specs.LineForms.{with_nth_token, line_bytes, with_replacement, quoted_text_token};
ghost use Rattle.kc_macros_model.specs.TreeExpansion.{source_line};
ghost use Rattle.kc_macro_forms.specs.between.WrittenTokens.{tokens_of};

use super::significant_tokens::trivia_count;
use super::written_tokens::{WrittenToken, quoted_text_token};
use kc_macros::is_text;
use std::alloc::{AllocError, Global};

/// Appends the bytes of tokens to a text.
fn push_tokens(out: &mut Vec<u8>, tokens: &[WrittenToken]) -> Result<(), AllocError>
    ensures { OnOk result (out.new.items ≡ out.old.items ++ line_bytes (tokens_of tokens.now)) }
{
    'tokens: for i in 0..tokens.len() {
        out.extend_from_slice(tokens[i].bytes.as_slice())?;
    }
    Ok(())
}

/// Appends the bytes of tokens to a text, with `bytes` in place of the first token that isn't white, a comment or empty in value.
fn push_with_first(
    out: &mut Vec<u8>,
    tokens: &[WrittenToken],
    bytes: &[u8],
) -> Result<(), AllocError>
    ensures { OnOk result ((new : Written) → new.bytes ≡ bytes.now → out.new.items ≡ out.old.items ++ line_bytes (with_nth_token 0 new (tokens_of tokens.now))) }
{
    let place = trivia_count(tokens);
    push_tokens(out, &tokens[..place])?;
    if place >= tokens.len() {
        return Ok(());
    }
    out.extend_from_slice(bytes)?;
    push_tokens(out, &tokens[place + 1..])?;
    Ok(())
}

/// The bytes of tokens, with `bytes` in place of the second token that isn't white, a comment or empty in value.
fn with_second(alloc: Global, tokens: &[WrittenToken], bytes: &[u8]) -> Result<Vec<u8>, AllocError>
    ensures { IfOk result (λ t. t.items ≡ line_bytes (with_nth_token 1 (written_as Word bytes.now []) (tokens_of tokens.now))) }
{
    let mut text = Vec::new(alloc);
    let place = trivia_count(tokens);
    if place >= tokens.len() {
        push_tokens(&mut text, tokens)?;
        return Ok(text);
    }
    push_tokens(&mut text, &tokens[..place + 1])?;
    push_with_first(&mut text, &tokens[place + 1..], bytes)?;
    Ok(text)
}

/// The bytes of a line, by its written tokens.
///
/// # Errors
///
/// Memory ran out.
pub fn line_bytes(alloc: Global, tokens: &[WrittenToken]) -> Result<Vec<u8>, AllocError>
    ensures { IfOk result (λ t. t.items ≡ line_bytes (tokens_of tokens.now)) }
{
    let mut text = Vec::new(alloc);
    push_tokens(&mut text, tokens)?;
    Ok(text)
}

/// The bytes of a line with the prompt `text` in double quotes in place of its second token, not counting trivia (white, comments
/// and tokens with an empty value).
///
/// # Errors
///
/// Memory ran out.
pub fn with_bare_prompt(
    alloc: Global,
    tokens: &[WrittenToken],
    text: &[u8],
) -> Result<Vec<u8>, AllocError>
    ensures { IfOk result (λ t. t.items ≡ line_bytes (with_nth_token 1 (written_as Word (34 ∷ (text.now ++ 34 ∷ [])) []) (tokens_of tokens.now))) }
{
    let mut prompt = Vec::new(alloc);
    prompt.push(b'"')?;
    prompt.extend_from_slice(text)?;
    prompt.push(b'"')?;
    with_second(alloc, tokens, prompt.as_slice())
}

/// The bytes of a line with `text` in place of its first token that isn't white, a comment or empty in value, and of all tokens
/// after that one.
///
/// # Errors
///
/// Memory ran out.
pub fn with_replacement(
    alloc: Global,
    tokens: &[WrittenToken],
    text: &[u8],
) -> Result<Vec<u8>, AllocError>
    ensures { IfOk result (λ t. t.items ≡ with_replacement text.now (tokens_of tokens.now)) }
{
    let mut line = Vec::new(alloc);
    push_tokens(&mut line, &tokens[..trivia_count(tokens)])?;
    line.extend_from_slice(text)?;
    Ok(line)
}

/// The bytes of a line without the name of a choice, its second token that isn't white, a comment or empty in value.
///
/// # Errors
///
/// Memory ran out.
pub fn without_choice_name(alloc: Global, tokens: &[WrittenToken]) -> Result<Vec<u8>, AllocError>
    ensures { IfOk result (λ t. t.items ≡ line_bytes (with_nth_token 1 (written_as Word [] []) (tokens_of tokens.now))) }
{
    with_second(alloc, tokens, b"")
}

/// The bytes of a `source` line with `source` as its first word, and with `key` in double quotes in place of its path; where the
/// path `given` on the line is the key, the path stays as it is written.
///
/// # Errors
///
/// Memory ran out.
pub fn source_line(
    alloc: Global,
    tokens: &[WrittenToken],
    given: &[u8],
    key: &[u8],
) -> Result<Vec<u8>, AllocError>
    ensures { IfOk result (λ t. t.items ≡ source_line (tokens_of tokens.now) given.now key.now) }
{
    let mut text = Vec::new(alloc);
    if is_text(key, given) {
        push_with_first(&mut text, tokens, b"source")?;
        return Ok(text);
    }
    push_with_key(alloc, &mut text, tokens, key)?;
    Ok(text)
}

/// Appends a `source` line to a text, with this key in place of its path.
fn push_with_key(
    alloc: Global,
    out: &mut Vec<u8>,
    tokens: &[WrittenToken],
    key: &[u8],
) -> Result<(), AllocError>
    ensures { OnOk result (out.new.items ≡ out.old.items ++ line_bytes (with_nth_token 1 (quoted_text_token key.now) (with_nth_token 0 (written_as Word (codes "source") []) (tokens_of tokens.now)))) }
{
    let place = trivia_count(tokens);
    push_tokens(out, &tokens[..place])?;
    if place >= tokens.len() {
        return Ok(());
    }
    out.extend_from_slice(b"source")?;
    let path = quoted_text_token(alloc, key)?;
    push_with_first(out, &tokens[place + 1..], path.bytes.as_slice())?;
    Ok(())
}
