//! Words, quoted texts and operators of a line.
ghost use Rattle.std.specs.Prelude.{◌≡◌, ◌<◌, ◌≤◌, ◌⊎◌, true, false, length, take, IfSome, IfOk, IfErr, OnOk, OnErr, position, take_while, ◌==◌, ◌-◌, slice_index, [], ◌∷◌};
ghost use Rattle.kc_tokens.specs.MemoryFaults.{IsOutOfMemory};
ghost use Rattle.kc_tokens.specs.Token.{is_quote, is_white_byte, is_word_byte, bare_dollar, dollar_left_out, next_token, next_quoted, next_operator, lexemes_from, lexemes_of};
ghost use Rattle.kc_tokens.specs.checker.TokenEnds.{Reaches};
ghost use Rattle.kc_tokens.specs.TokenGrammar.{IsCut, IsFirstTokenFault};
ghost use Rattle.kc_tokens.specs.Token.{with_front};

use super::byte_kinds::{is_white, is_word, word_len};
use super::fault::{ExprFault, ExprKind};
use super::language::Language;
use super::plain_quotes::plain_closing_quote;
use kc_value::closing_quote;
use std::alloc::Global;

/// The operator of a relation between two operands.
#[derive(Clone, Copy, Debug, PartialEq, Eq)]
pub enum Relop {
    Equal,
    NotEqual,
    Less,
    Greater,
    LessEqual,
    GreaterEqual,
}

/// The kind of a token.
#[derive(Clone, Copy, Debug, PartialEq, Eq)]
pub enum TokenKind {
    Word,
    Quoted,
    Relation(Relop),
    Not,
    And,
    Or,
    Open,
    Close,
}

/// A token of a line: its kind, the places in the line of its first byte and of the byte after it, counted from 0, and its text.
#[derive(Clone, Copy)]
pub struct Token<'a> {
    pub kind: TokenKind,
    pub start: usize,
    pub end: usize,
    pub text: &'a str,
}

/// What bytes begin with: white space, a comment, a token with its length in bytes, or a fault with the place of its byte,
/// counted from the first.
#[derive(Clone, Copy)]
pub enum NextToken {
    White,
    Comment,
    Token(TokenKind, usize),
    Fault(ExprKind, usize),
}

/// The place of the first `$` of a text.
fn first_dollar(text: &[u8]) -> Option<usize>
    ensures place { result ≡ position (λ c. c == 36) text.now }
    ensures within { IfSome result (λ k. k < length text.now) }
{
    text.iter().position(|b| *b == b'$')
}

/// The place of the first `$` that isn't in a pair of a backslash and a character.
fn bare_dollar(text: &[u8]) -> Option<usize>
    ensures place { result ≡ bare_dollar false text.now }
    ensures within { IfSome result (λ k. k < length text.now) }
{
    let mut escaped = false;
    for (i, byte) in text.iter().enumerate() {
        if escaped {
            escaped = false;
        } else if *byte == b'$' {
            return Some(i);
        } else {
            escaped = *byte == b'\\';
        }
    }
    None
}

/// The place of the first `$` of a quoted text that the language leaves out.
fn dollar_left_out(language: Language, text: &[u8]) -> Option<usize>
    ensures place { result ≡ dollar_left_out language text.now }
    ensures within { IfSome result (λ k. k < length text.now) }
{
    match language {
        Language::Strict => first_dollar(text),
        Language::Linux(_) => bare_dollar(text),
    }
}

/// The quoted token at the front of bytes that begin with a quote, whatever is between the quotes.
#[inline(never)]
fn any_quoted_at_front(language: Language, bytes: &[u8]) -> NextToken
    requires some { 0 < length bytes.now }
    requires quote { slice_index bytes.now 0 < 128 }
    ensures lead { result ≡ next_quoted language bytes.now }
    ensures reaches { Reaches bytes.now result }
{
    match closing_quote(bytes[0], &bytes[1..]) {
        None => NextToken::Fault(ExprKind::UnclosedQuote, 0),
        Some(n) => match dollar_left_out(language, &bytes[..n + 1]) {
            None => NextToken::Token(TokenKind::Quoted, n + 1),
            Some(k) => NextToken::Fault(ExprKind::LeftOut, k),
        },
    }
}

/// The quoted token at the front of bytes that begin with a quote. Most have neither a backslash nor a `$`.
fn quoted_at_front(language: Language, bytes: &[u8]) -> NextToken
    requires some { 0 < length bytes.now }
    requires quote { is_quote (slice_index bytes.now 0) ≡ true }
    ensures lead { result ≡ next_quoted language bytes.now }
    ensures reaches { Reaches bytes.now result }
{
    match plain_closing_quote(bytes) {
        Some(place) => NextToken::Token(TokenKind::Quoted, place + 1),
        None => any_quoted_at_front(language, bytes),
    }
}

/// The operator at the front of bytes.
fn operator_at_front(first: u8, second: u8) -> NextToken
    ensures lead { result ≡ next_operator first second }
    ensures reaches { Reaches (first ∷ second ∷ []) result }
    ensures one { second ≡ 0 → Reaches (first ∷ []) result }
{
    match (first, second) {
        (b'!', b'=') => NextToken::Token(TokenKind::Relation(Relop::NotEqual), 2),
        (b'<', b'=') => NextToken::Token(TokenKind::Relation(Relop::LessEqual), 2),
        (b'>', b'=') => NextToken::Token(TokenKind::Relation(Relop::GreaterEqual), 2),
        (b'&', b'&') => NextToken::Token(TokenKind::And, 2),
        (b'|', b'|') => NextToken::Token(TokenKind::Or, 2),
        (b'!', _) => NextToken::Token(TokenKind::Not, 1),
        (b'=', _) => NextToken::Token(TokenKind::Relation(Relop::Equal), 1),
        (b'<', _) => NextToken::Token(TokenKind::Relation(Relop::Less), 1),
        (b'>', _) => NextToken::Token(TokenKind::Relation(Relop::Greater), 1),
        (b'(', _) => NextToken::Token(TokenKind::Open, 1),
        (b')', _) => NextToken::Token(TokenKind::Close, 1),
        (b'$', _) => NextToken::Fault(ExprKind::LeftOut, 0),
        _ => NextToken::Fault(ExprKind::BadToken, 0),
    }
}

/// The token or white space at the front of bytes.
#[tactic(auto, unfolding(crate::specs::Token::next_token))]
fn token_at_front(language: Language, bytes: &[u8]) -> NextToken
    requires there { 0 < length bytes.now }
    ensures lead { result ≡ next_token language bytes.now }
    ensures reaches { Reaches bytes.now result }
{
    let first = bytes[0];
    if is_white(first) {
        NextToken::White
    } else if first == b'#' {
        NextToken::Comment
    } else if is_word(first) {
        NextToken::Token(TokenKind::Word, word_len(bytes))
    } else if first == b'"' || first == b'\'' {
        quoted_at_front(language, bytes)
    } else {
        let second = if bytes.len() > 1 { bytes[1] } else { 0 };
        operator_at_front(first, second)
    }
}

/// The tokens of a line, up to a comment, or its first fault.
pub fn tokens(alloc: Global, language: Language, line: &str) -> Result<Vec<Token<'_>>, ExprFault>
    ensures ok { IfOk result (λ v. IsCut language 0 line.now (lexemes_of v.items)) }
    ensures fault { IfErr result (λ e. IsOutOfMemory e ⊎ IsFirstTokenFault language 0 line.now e) }
{
    let mut found = Vec::new(alloc);
    push_tokens(language, line, &mut found)?;
    Ok(found)
}

/// Appends to `found` the tokens of a line, up to a comment. An `Err` is the line's first fault or out of memory, and leaves
/// `found` as it was.
pub fn push_tokens<'a>(
    language: Language,
    line: &'a str,
    found: &mut Vec<Token<'a>>,
) -> Result<(), ExprFault>
    ensures tokens { OnOk result (with_front (lexemes_of found.old.items) (lexemes_from language 0 0 line.now) ≡ Ok (lexemes_of found.new.items)) }
    ensures fault { IfErr result (λ e. IsOutOfMemory e ⊎ (lexemes_from language 0 0 line.now ≡ Err e)) }
    ensures err { OnErr result (found.new.items ≡ found.old.items) }
{
    let kept = found.len();
    match scan_line(language, line, found) {
        Ok(()) => Ok(()),
        Err(fault) => {
            found.truncate(kept);
            Err(fault)
        }
    }
}

/// Appends the tokens of a line, up to a comment or a fault.
fn scan_line<'a>(
    language: Language,
    line: &'a str,
    found: &mut Vec<Token<'a>>,
) -> Result<(), ExprFault>
    ensures tokens { OnOk result (with_front (lexemes_of found.old.items) (lexemes_from language 0 0 line.now) ≡ Ok (lexemes_of found.new.items)) }
    ensures fault { IfErr result (λ e. IsOutOfMemory e ⊎ (lexemes_from language 0 0 line.now ≡ Err e)) }
    ensures kept { take (length found.old.items) found.new.items ≡ found.old.items }
{
    let bytes = line.as_bytes();
    let mut at = 0;
    while at < bytes.len() {
        match token_at_front(language, &bytes[at..]) {
            NextToken::White => at += 1,
            NextToken::Comment => break,
            NextToken::Token(kind, len) => {
                let end = at + len;
                let text = &line[at..end];
                found.push(Token {
                    kind,
                    start: at,
                    end,
                    text,
                })?;
                at = end;
            }
            NextToken::Fault(kind, ahead) => {
                return Err(ExprFault {
                    offset: at + ahead,
                    kind,
                });
            }
        }
    }
    Ok(())
}
