//! The limits that lines of a tree pass.
ghost use Rattle.std.specs.Prelude.{◌≡◌, ◌∷◌, Ok, IfOk, nat_le, if◌then◌else◌};
ghost use Rattle.std.specs.List.{count_by};
ghost use Rattle.kc_tokens.specs.Token.{lexeme_of, lexemes_from, lexemes_of};
ghost use Rattle.kc_tree_model.specs.TreeReading.{reading};
ghost use Rattle.kc_value.specs.declared.limits.TheConstants.{MAX_FILES};
ghost use Rattle.kmin_faults.specs.declared.passed_limits.Limit.TheVariants.{Files, TreeBytes};
ghost use Rattle.kmin_faults.specs.PassedLimits.{expansion_limit, limit_of, limit_of_name, limit_of_source};
ghost use Rattle.kmin_faults.specs.between.StoredStatements.{is_source_head};

use crate::listings::listing_of;
use crate::sourced_paths::is_source_word;
use kc_parser::{Group, GroupHead};
use kc_statements::keyword_of;
use kc_tokens::{ExprKind, Token, push_tokens};
use kc_tree::Texts;
use kc_tree_model::Keyword;
use kc_value::{MAX_FILES, MAX_NAME_BYTES};
use std::alloc::{AllocError, Global};

/// A limit of a tree, or of its expansion.
#[derive(Clone, Copy, Debug, PartialEq, Eq)]
pub enum Limit {
    Symbols,
    Choices,
    Files,
    /// The bytes of all files.
    TreeBytes,
    /// The bytes of a symbol's name.
    NameBytes,
    /// The names in the folders of patterns.
    ListedNames,
    /// The work of an expansion.
    Work,
}

/// The limit that a line of a tree passes, whose texts are read from the path `first` on; `None` where that isn't known. An `Err`
/// means out of memory.
pub fn limit_of(
    alloc: Global,
    texts: &Texts,
    first: &str,
    line: &str,
) -> Result<Option<Limit>, AllocError>
    ensures { IfOk result (λ limit. limit ≡ limit_of (reading texts.now first.now).read (lexemes_from texts.now.language 0 0 line.now)) }
{
    let mut found = Vec::new(alloc);
    match push_tokens(texts.language(), line, &mut found) {
        Ok(()) => limit_of_tokens(alloc, texts, first, &found),
        Err(fault) => match fault.kind {
            ExprKind::OutOfMemory => Err(AllocError),
            _ => Ok(None),
        },
    }
}

/// The limit that a line with these tokens passes.
fn limit_of_tokens(
    alloc: Global,
    texts: &Texts,
    first: &str,
    tokens: &[Token<'_>],
) -> Result<Option<Limit>, AllocError>
    ensures { IfOk result (λ limit. limit ≡ limit_of (reading texts.now first.now).read (Ok (lexemes_of tokens.now))) }
{
    match tokens {
        [] => Ok(None),
        [word, rest @ ..] => limit_after(alloc, texts, first, word, rest),
    }
}

/// The limit that a line passes, by its first token and those after that.
fn limit_after(
    alloc: Global,
    texts: &Texts,
    first: &str,
    word: &Token<'_>,
    rest: &[Token<'_>],
) -> Result<Option<Limit>, AllocError>
    ensures { IfOk result (λ limit. limit ≡ limit_of (reading texts.now first.now).read (Ok (lexeme_of word.now ∷ lexemes_of rest.now))) }
{
    match keyword_of(word) {
        Some(Keyword::Config) => Ok(Some(limit_of_name(rest))),
        Some(Keyword::Select | Keyword::Imply) => Ok(Some(Limit::NameBytes)),
        Some(Keyword::Choice) => Ok(Some(Limit::Choices)),
        Some(Keyword::Source) => {
            let limit = limit_of_source(alloc, texts, first)?;
            Ok(Some(limit))
        }
        _ => Ok(None),
    }
}

/// The limit that a definition passes, by the tokens after its keyword: that of a name's bytes where its name is too long, else that
/// of symbols.
fn limit_of_name(rest: &[Token<'_>]) -> Limit
    ensures { result ≡ limit_of_name (lexemes_of rest.now) }
{
    match rest {
        [name, ..] if name.text.len() > MAX_NAME_BYTES => Limit::NameBytes,
        _ => Limit::Symbols,
    }
}

/// The limit that the last `source` of a tree passes, at which its reading ends: that of files where as many are read as may be, else
/// that of their bytes.
fn limit_of_source(alloc: Global, texts: &Texts, first: &str) -> Result<Limit, AllocError>
    ensures { IfOk result (λ limit. limit ≡ limit_of_source (reading texts.now first.now).read) }
{
    let listing = listing_of(alloc, texts, first)?;
    let count = count_of_sources(&listing.groups);
    Ok(limit_of_count(count))
}

/// The limit that the last of `count` `source` lines passes.
fn limit_of_count(count: usize) -> Limit
    ensures { result ≡ (if nat_le MAX_FILES count then Files else TreeBytes) }
{
    if count >= MAX_FILES {
        return Limit::Files;
    }
    Limit::TreeBytes
}

/// The number of `source` lines among the statements of a tree.
fn count_of_sources(groups: &[Group]) -> usize
    ensures { result ≡ count_by (λ group. is_source_head group.head) groups.now }
{
    groups
        .iter()
        .filter(|group| is_source_head(group.head))
        .count()
}

/// Whether the head of a statement is a `source`.
fn is_source_head(head: GroupHead) -> bool
    ensures { result ≡ is_source_head head }
{
    matches!(head, GroupHead::Source(_))
}

/// The limit that a line of a tree passes in its expansion, by the line's first word: that of work; `None` for a line that sources
/// files, where that isn't known.
pub fn expansion_limit(word: &[u8]) -> Option<Limit>
    ensures { result ≡ expansion_limit word.now }
{
    if is_source_word(word) {
        return None;
    }
    Some(Limit::Work)
}
