//! Forms of lines that plain Kconfig lacks, by the line's tokens.
ghost use Rattle.std.specs.Prelude.{◌≡◌, ◌&&◌, option_map};
ghost use Rattle.std.specs.List.{list_any};
ghost use Rattle.kc_tree_model.specs.Limits.{is_in_list};
ghost use Rattle.kc_macros_model.specs.Assignments.{is_unknown};
ghost use Rattle.kc_macros_model.specs.LineForms.{help_words, is_word, sort_of_source, form_of_two_words, form_of, without_trivia, is_help_line, is_undecided};
ghost use Rattle.kc_macro_forms.specs.between.WrittenTokens.{token_of, tokens_of};
ghost use Rattle.kc_macro_forms.specs.between.LineFormViews.{source_sort_of, form_view};
ghost use Rattle.kc_macro_forms.specs.checker.SignificantTokens.{is_decisive_word, form_of_words};

use super::form_words::{is_help_word, is_prompt_word, is_source_word};
use super::keywords::is_among;
use super::significant_tokens::{is_empty_line, next_significant};
use super::token_sorts::{is_bare_prompt, is_path, is_unknown, is_word};
use super::written_tokens::WrittenToken;
use kc_macros::is_text;

/// The sort of a `source` line: whether its path is relative to the folder of the file with the line, and whether its files may
/// be missing.
#[derive(Clone, Copy, Debug, PartialEq, Eq)]
pub struct SourceSort {
    pub relative: bool,
    pub optional: bool,
}

/// How a line departs from plain Kconfig: not at all; its second token is a prompt without quotes; this text replaces all from
/// its first token on; it gives a choice a name; it sources the files of a path, if the path is known.
#[derive(Clone, Copy)]
pub enum LineForm<'t> {
    Plain,
    BarePrompt(&'t [u8]),
    ReplacedBy(&'t [u8]),
    NamedChoice(&'t [u8]),
    Sources(SourceSort, Option<&'t [u8]>),
}

/// The text that a token means, if it is known.
fn meaning_of(token: &WrittenToken) -> Option<&[u8]>
    ensures { option_map (λ t. t.now) result ≡ token.now.meaning }
{
    match &token.meaning {
        Some(text) => Some(text.as_slice()),
        None => None,
    }
}

/// Words of a `source` whose path begins in the folder of the file.
static RELATIVE_SOURCES: [&[u8]; 2] = [b"rsource", b"orsource"];

/// Words of a `source` whose files may be missing.
static OPTIONAL_SOURCES: [&[u8]; 2] = [b"osource", b"orsource"];

/// The sort of `source` that a word means.
fn sort_of_source(word: &[u8]) -> SourceSort
    ensures { source_sort_of result ≡ sort_of_source word.now }
{
    SourceSort {
        relative: is_among(&RELATIVE_SOURCES, word),
        optional: is_among(&OPTIONAL_SOURCES, word),
    }
}

/// The form of a line of two tokens, of which the first is this word.
fn form_of_two_words<'t>(word: &[u8], token: &'t WrittenToken) -> LineForm<'t>
    ensures { form_view result ≡ form_of_two_words word.now (token_of token.now) }
{
    let bytes = token.bytes.as_slice();
    if is_source_word(word) && is_path(token) {
        return LineForm::Sources(sort_of_source(word), meaning_of(token));
    }
    if is_text(word, b"choice") && is_word(token) {
        return LineForm::NamedChoice(bytes);
    }
    if is_text(word, b"option") && is_text(bytes, b"defconfig_list") {
        return LineForm::ReplacedBy(b"depends on n");
    }
    if is_text(word, b"option") && is_text(bytes, b"allnoconfig_y") {
        return LineForm::ReplacedBy(b"");
    }
    LineForm::Plain
}

/// The form of a line by its first word, its second token, and whether no token comes after it.
fn form_of_words<'t>(word: &[u8], token: &'t WrittenToken, alone: bool) -> LineForm<'t>
    ensures { form_view result ≡ form_of_words word.now (token_of token.now) alone }
{
    if is_prompt_word(word) && is_bare_prompt(token) {
        return LineForm::BarePrompt(token.bytes.as_slice());
    }
    if alone {
        return form_of_two_words(word, token);
    }
    LineForm::Plain
}

/// How a line departs from plain Kconfig, by its written tokens.
pub fn line_form(tokens: &[WrittenToken]) -> LineForm<'_>
    ensures { form_view result ≡ form_of (without_trivia (tokens_of tokens.now)) }
{
    let Some((first, after_first)) = next_significant(tokens) else {
        return LineForm::Plain;
    };
    let Some((second, after_second)) = next_significant(after_first) else {
        return LineForm::Plain;
    };
    if !is_word(first) {
        return LineForm::Plain;
    }
    form_of_words(first.bytes.as_slice(), second, is_empty_line(after_second))
}

/// Whether a token is `help` or `---help---`.
fn is_help_token(token: &WrittenToken) -> bool
    ensures { result ≡ (is_word (token_of token.now) && is_in_list token.now.bytes help_words) }
{
    is_word(token) && is_help_word(token.bytes.as_slice())
}

/// Whether a help text follows a line, by its written tokens: apart from white, comments and tokens with an empty value, the
/// line is only the word `help` or `---help---`.
pub fn is_help_line(tokens: &[WrittenToken]) -> bool
    ensures { result ≡ is_help_line (without_trivia (tokens_of tokens.now)) }
{
    match next_significant(tokens) {
        Some((first, after)) => is_empty_line(after) && is_help_token(first),
        None => false,
    }
}

/// Whether a token begins a `source` line or a help text.
fn is_decisive(token: &WrittenToken) -> bool
    ensures { result ≡ (is_word (token_of token.now) && is_decisive_word token.now.bytes) }
{
    is_word(token) && is_decisive_word(token.bytes.as_slice())
}

/// Whether a word begins a `source` line or a help text.
fn is_decisive_word(word: &[u8]) -> bool
    ensures { result ≡ is_decisive_word word.now }
{
    is_source_word(word) || is_help_word(word)
}

/// Whether one of some tokens depends on a question without an answer.
fn has_unknown(tokens: &[WrittenToken]) -> bool
    ensures { result ≡ list_any (λ t. is_unknown (token_of t)) tokens.now }
{
    tokens.iter().any(|token| is_unknown(token))
}

/// Whether the form of a line isn't known: it begins with a `source` or help word, and a later token depends on a question
/// without an answer, so that its value may be empty.
pub fn is_undecided(tokens: &[WrittenToken]) -> bool
    ensures { result ≡ is_undecided (without_trivia (tokens_of tokens.now)) }
{
    match next_significant(tokens) {
        Some((first, after)) => is_decisive(first) && has_unknown(after),
        None => false,
    }
}
