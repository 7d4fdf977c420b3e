//! Words with a meaning in the language of trees.
ghost use Rattle.std.specs.Prelude.{◌≡◌, bytes_eq};
ghost use Rattle.std.specs.List.{list_any};
ghost use Rattle.kc_tree_model.specs.Keywords.{keywords};
ghost use Rattle.kc_macros_model.specs.WrittenTokens.{is_keyword};

use kc_macros::is_text;
use kc_tree_model::keyword_named;

/// Words with a meaning inside a statement.
static INNER_KEYWORDS: [&[u8]; 4] = [b"on", b"env", b"defconfig_list", b"allnoconfig_y"];

/// Whether a word is among `words`.
pub(crate) fn is_among(words: &[&[u8]], word: &[u8]) -> bool
    ensures { result ≡ list_any (λ w. bytes_eq w.now word.now) words.now }
{
    words.iter().any(|other| is_text(other, word))
}

/// Whether a word begins statements or attributes.
fn is_line_keyword(word: &[u8]) -> bool
    ensures { result ≡ list_any (λ e. bytes_eq e.0 word.now) keywords }
{
    keyword_named(word).is_some()
}

/// Whether a word has a meaning inside a statement.
fn is_inner_keyword(word: &[u8]) -> bool
    ensures { result ≡ list_any (λ k. bytes_eq word.now k.now) INNER_KEYWORDS }
{
    INNER_KEYWORDS.iter().any(|keyword| is_text(word, keyword))
}

/// Whether a word is a keyword of Kconfig.
pub fn is_keyword(word: &[u8]) -> bool
    ensures { result ≡ is_keyword word.now }
{
    is_line_keyword(word) || is_inner_keyword(word)
}
