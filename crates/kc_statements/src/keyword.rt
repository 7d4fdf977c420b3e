//! The keywords that the first tokens of lines are.
ghost use Rattle.std.specs.Prelude.{◌≡◌};
ghost use Rattle.kc_tokens.specs.Token.{lexeme_of};
ghost use Rattle.kc_tree_model.specs.Keywords.{keyword_of as defined_keyword};

use kc_tokens::{Token, TokenKind};
use kc_tree_model::{Keyword, keyword_named};

/// The keyword that the first token of a line is; `None` if no statement and no attribute begins with it ("Kconfig syntax", "Menu
/// attributes").
pub fn keyword_of(token: &Token<'_>) -> Option<Keyword>
    ensures { result ≡ defined_keyword (lexeme_of token.now) }
{
    match token.kind {
        TokenKind::Word => keyword_named(token.text.as_bytes()),
        _ => None,
    }
}
