//! The text for a line of a tree.
ghost use Rattle.std.specs.Prelude.{◌≡◌, ◌+◌, Ok, IfOk, string_bytes};
ghost use Rattle.std.specs.Str.{continuation_len};
ghost use Rattle.kc_tokens.specs.Token.{lexemes_of, lexemes_from};
ghost use Rattle.kmin_details.specs.LineTexts.{first_token, form_text, left_out_text, bad_token_text, character_at};

use kc_statements::keyword_of;
use kc_tokens::{ExprKind, Language, Token, push_tokens};
use kc_tree_model::Keyword;
use std::alloc::{AllocError, Global};

/// The text for a line whose first word is at fault: that word. Empty if the line has a fault of its tokens.
pub fn first_token<'a>(
    alloc: Global,
    language: Language,
    line: &'a str,
) -> Result<&'a str, AllocError>
    ensures { IfOk result (λ word. word.now ≡ first_token (lexemes_from language 0 0 line.now)) }
{
    let mut found = Vec::new(alloc);
    match push_tokens(language, line, &mut found) {
        Ok(()) => Ok(first_text(&found)),
        Err(fault) => match fault.kind {
            ExprKind::OutOfMemory => Err(AllocError),
            _ => Ok(""),
        },
    }
}

/// The text of the first token; empty if there is none.
fn first_text<'a>(tokens: &[Token<'a>]) -> &'a str
    ensures { result.now ≡ first_token (Ok (lexemes_of tokens.now)) }
{
    match tokens.first() {
        Some(token) => token.text,
        None => "",
    }
}

/// The text for a line with a form that is left out: which form.
pub fn left_out_text(alloc: Global, language: Language, line: &str) -> Result<String, AllocError>
    ensures { IfOk result (λ text. string_bytes text ≡ left_out_text (lexemes_from language 0 0 line.now)) }
{
    let mut found = Vec::new(alloc);
    match push_tokens(language, line, &mut found) {
        Ok(()) => form_text(alloc, &found),
        Err(fault) => match fault.kind {
            ExprKind::OutOfMemory => Err(AllocError),
            _ => String::from_str(alloc, "a macro"),
        },
    }
}

/// The form of a line that is left out, by its tokens.
fn form_text(alloc: Global, tokens: &[Token<'_>]) -> Result<String, AllocError>
    ensures { IfOk result (λ text. string_bytes text ≡ form_text (lexemes_of tokens.now)) }
{
    let Some(first) = tokens.first() else {
        return Ok(String::new(alloc));
    };
    match keyword_of(first) {
        Some(Keyword::Option) => ["option ", first_text(&tokens[1..])].concat(alloc),
        Some(Keyword::Choice) => String::from_str(alloc, "a named choice"),
        Some(Keyword::Source) => String::from_str(alloc, "a pattern"),
        Some(Keyword::Type(_)) => String::from_str(alloc, "a tristate choice"),
        _ => String::from_str(alloc, first.text),
    }
}

/// The text for a line with a byte that begins no token: the character there, or that it is a byte order mark.
pub fn bad_token_text(alloc: Global, language: Language, line: &str) -> Result<String, AllocError>
    ensures { IfOk result (λ text. string_bytes text ≡ bad_token_text line.now (lexemes_from language 0 0 line.now)) }
{
    let mut found = Vec::new(alloc);
    match push_tokens(language, line, &mut found) {
        Ok(()) => Ok(String::new(alloc)),
        Err(fault) => match fault.kind {
            ExprKind::OutOfMemory => Err(AllocError),
            _ => character_text(alloc, line.as_bytes(), fault.offset),
        },
    }
}

/// The character at a place of a text, or that it is a byte order mark.
fn character_text(alloc: Global, text: &[u8], at: usize) -> Result<String, AllocError>
    ensures { IfOk result (λ found. string_bytes found ≡ character_at text.now at) }
{
    if at >= text.len() {
        return Ok(String::new(alloc));
    }
    let rest = &text[at..];
    if rest.starts_with(b"\xEF\xBB\xBF") {
        return String::from_str(alloc, "a byte order mark");
    }
    let len = character_len(rest[0]).min(rest.len());
    String::from_utf8_lossy(alloc, &rest[..len])
}

/// How many bytes a character has, by its first byte.
fn character_len(first: u8) -> usize
    ensures { result ≡ continuation_len first + 1 }
{
    match first {
        0..=0x7F => 1,
        0x80..=0xDF => 2,
        0xE0..=0xEF => 3,
        _ => 4,
    }
}
