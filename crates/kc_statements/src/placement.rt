//! The checks of a line before its form: forms that are left out of the language, and the attributes of each entry.
ghost use Rattle.std.specs.Prelude.{◌≡◌, ◌&&◌, ◌||◌, ◌==◌, not, List, drop, codes};
ghost use Rattle.std.specs.List.{list_any};
ghost use Rattle.kc_value.specs.Kinds.{is_tri_kind};
ghost use Rattle.kc_tokens.specs.Token.{lexemes_of, lexeme_of};
ghost use Rattle.kc_tree_model.specs.Blocks.{Group};
ghost use Rattle.kc_tree_model.specs.Keywords.{is_quoted_kind, is_the_word};
ghost use Rattle.kc_tree_model.specs.Placement.{first_is, is_strict, is_left_out_option, is_left_out, is_choice_open, open_entry, is_glob_path, allows_attribute};

use super::token::{is_operand, is_quoted, is_the_word, is_word};
use kc_tokens::{Language, Token};
use kc_tree_model::{Keyword, OpenEntry};
use kc_value::Kind;

/// Whether an entry may have the attribute that begins with this keyword ("Kconfig syntax": config, choice, menu, comment).
pub fn allows_attribute(entry: OpenEntry, keyword: Keyword) -> bool
    ensures { result ≡ allows_attribute entry keyword }
{
    match entry {
        OpenEntry::Config => config_allows(keyword),
        OpenEntry::Choice => choice_allows(keyword),
        OpenEntry::Menu => matches!(keyword, Keyword::Depends | Keyword::Visible),
        OpenEntry::Comment => matches!(keyword, Keyword::Depends),
    }
}

/// Whether a `config` entry may have the attribute that begins with this keyword.
fn config_allows(keyword: Keyword) -> bool
    ensures { result ≡ allows_attribute OpenEntry.Config keyword }
{
    matches!(
        keyword,
        Keyword::Type(_)
            | Keyword::DefaultType(_)
            | Keyword::Prompt
            | Keyword::Default
            | Keyword::Depends
            | Keyword::Select
            | Keyword::Imply
            | Keyword::Range
            | Keyword::Help
            | Keyword::Modules
            | Keyword::Option
    )
}

/// Whether a `choice` entry may have the attribute that begins with this keyword.
fn choice_allows(keyword: Keyword) -> bool
    ensures { result ≡ allows_attribute OpenEntry.Choice keyword }
{
    matches!(
        keyword,
        Keyword::Type(Kind::Bool)
            | Keyword::Prompt
            | Keyword::Default
            | Keyword::Depends
            | Keyword::Help
            | Keyword::Optional
    )
}

/// Whether a byte makes a path a pattern: `*`, `?` or `[`.
fn is_glob_byte(byte: u8) -> bool
    ensures { result ≡ (byte == 42 || (byte == 63) || (byte == 91)) }
{
    matches!(byte, b'*' | b'?' | b'[')
}

/// Whether a text has one of the bytes `*`, `?` and `[`, which make a path a pattern.
fn has_glob_byte(text: &[u8]) -> bool
    ensures { result ≡ list_any (λ c. c == 42 || (c == 63) || (c == 91)) text.now }
{
    text.iter().any(|byte| is_glob_byte(*byte))
}

/// Whether a token is a path with `*`, `?` or `[`, which is a pattern. Quotes and backslashes are none of these, so the text of a
/// quoted token is tested as it is written.
fn is_glob_path(token: &Token<'_>) -> bool
    ensures { result ≡ is_glob_path (lexeme_of token.now) }
{
    is_operand(token) && has_glob_byte(token.text.as_bytes())
}

fn is_strict(language: Language) -> bool
    ensures { result ≡ is_strict language }
{
    match language {
        Language::Strict => true,
        Language::Linux(_) => false,
    }
}

/// Whether attributes like `def_int`, of this type, are left out of the language: in the strict language, if the type is neither
/// bool nor tristate.
fn is_default_type_left_out(language: Language, kind: Kind) -> bool
    ensures { result ≡ (is_strict language && not (is_tri_kind kind)) }
{
    match language {
        Language::Strict => !matches!(kind, Kind::Bool | Kind::Tristate),
        Language::Linux(_) => false,
    }
}

/// Whether the second token is a quoted text.
fn has_quoted_second(tokens: &[Token<'_>]) -> bool
    ensures { result ≡ first_is (λ t. is_quoted_kind t.kind) (drop 1 (lexemes_of tokens.now)) }
{
    tokens.len() > 1 && is_quoted(&tokens[1])
}

/// Whether a token is the word of an option of other tools: `defconfig_list` or `allnoconfig_y`.
fn is_option_of_other_tools(token: &Token<'_>) -> bool
    ensures { result ≡ (is_the_word (codes "defconfig_list") (lexeme_of token.now) || is_the_word (codes "allnoconfig_y") (lexeme_of token.now)) }
{
    is_the_word("defconfig_list", token) || is_the_word("allnoconfig_y", token)
}

/// Whether the tokens after `option` are an option that this language leaves out: `defconfig_list`, `allnoconfig_y` or `env`, but
/// in the languages of Linux not `env` before a quoted text.
fn is_left_out_option(language: Language, tokens: &[Token<'_>]) -> bool
    ensures { result ≡ is_left_out_option language (lexemes_of tokens.now) }
{
    if tokens.is_empty() {
        return false;
    }
    if is_the_word("env", &tokens[0]) {
        return is_strict(language) || !has_quoted_second(tokens);
    }
    is_option_of_other_tools(&tokens[0])
}

/// Whether a line has a form that this language leaves out, by the keyword of its first token, the tokens after that, and whether
/// the open entry is a choice.
///
/// Left out are words such as `rsource`, options of other tools, named choices, tristate choices, paths that are patterns, and in
/// the strict language also `def_int`, `def_hex` and `def_string`, and `optional` choices ("Kconfig syntax").
pub fn is_left_out(
    language: Language,
    keyword: Keyword,
    tokens: &[Token<'_>],
    choice_is_open: bool,
) -> bool
    ensures { (read : List Group) → is_choice_open (open_entry read) ≡ choice_is_open
        → result ≡ is_left_out language read keyword (lexemes_of tokens.now) }
{
    match keyword {
        Keyword::LeftOut => true,
        Keyword::Option => is_left_out_option(language, tokens),
        Keyword::Choice => !tokens.is_empty() && is_word(&tokens[0]),
        Keyword::Source => !tokens.is_empty() && is_glob_path(&tokens[0]),
        Keyword::Type(Kind::Tristate) => choice_is_open,
        Keyword::DefaultType(kind) => is_default_type_left_out(language, kind),
        Keyword::Optional => is_strict(language),
        _ => false,
    }
}
