//! Tests of one token.
ghost use Rattle.std.specs.Prelude.{◌≡◌, ◌||◌, ◌&&◌, codes, bytes_eq, nat_lt, length};
ghost use Rattle.std.specs.List.{list_all};
ghost use Rattle.kc_expr.specs.Grammar.{is_operand_kind};
ghost use Rattle.kc_tokens.specs.Token.{lexeme_of, is_name_byte};
ghost use Rattle.kc_tree_model.specs.Keywords.{is_word_kind, is_quoted_kind, is_the_word, is_name};

use kc_tokens::{Token, TokenKind, are_name_bytes};

/// Whether a token is a bare word.
pub(crate) fn is_word(token: &Token<'_>) -> bool
    ensures { result ≡ is_word_kind token.now.kind }
{
    matches!(token.kind, TokenKind::Word)
}

/// Whether a token is a quoted text.
pub(crate) fn is_quoted(token: &Token<'_>) -> bool
    ensures { result ≡ is_quoted_kind token.now.kind }
{
    matches!(token.kind, TokenKind::Quoted)
}

/// Whether a token is the bare word `word`.
pub(crate) fn is_the_word(word: &str, token: &Token<'_>) -> bool
    ensures { result ≡ is_the_word word.now (lexeme_of token.now) }
{
    is_word(token) && token.text == word
}

/// Whether a token is the name of a symbol: a bare word of letters, digits and `_`, and none of the constants `n`, `m` and `y`.
pub(crate) fn is_name(token: &Token<'_>) -> bool
    ensures { result ≡ is_name (lexeme_of token.now) }
{
    is_word(token) && has_name_bytes(token.text) && !is_constant(token.text)
}

/// Whether a word has one or more letters, digits and `_`, and nothing else.
fn has_name_bytes(word: &str) -> bool
    ensures { result ≡ (nat_lt 0 (length word.now) && list_all is_name_byte word.now) }
{
    !word.is_empty() && are_name_bytes(word.as_bytes())
}

/// Whether a word is one of the constants `n`, `m` and `y`.
fn is_constant(word: &str) -> bool
    ensures { result ≡ (bytes_eq word.now (codes "n") || bytes_eq word.now (codes "m") || bytes_eq word.now (codes "y")) }
{
    matches!(word.as_bytes(), [b'n' | b'm' | b'y'])
}

/// Whether a token can be an operand: a bare word or a quoted text.
pub(crate) fn is_operand(token: &Token<'_>) -> bool
    ensures { result ≡ is_operand_kind token.now.kind }
{
    matches!(token.kind, TokenKind::Word | TokenKind::Quoted)
}
