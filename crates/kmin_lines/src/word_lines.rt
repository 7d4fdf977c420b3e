//! Words in the lines of files.
ghost use Rattle.std.specs.Prelude.{◌≡◌, true, false, map, IfOk, IsErrOf};
ghost use Rattle.std.specs.List.{list_all};
ghost use Rattle.std.specs.Str.{is_utf8};
ghost use Rattle.kmin_lines.specs.WordLines.{are_utf8, is_word_line, words_in};
ghost use Rattle.kmin_lines.specs.between.Texts.{files_view, lists_view, texts_of};
ghost use Rattle.kmin_lines.specs.declared.word_lines.WordFault.TheVariants.{OutOfMemory};

use crate::pieces::{first_piece, trim_carriage_return};
use std::alloc::{AllocError, AllocFailed, Global};
use thiserror::Error;

/// Why the words in a file aren't read. A fault's text is its name.
#[derive(Clone, Copy, Debug, PartialEq, Eq, Error)]
pub enum WordFault {
    /// A word isn't UTF-8.
    #[error("NotUtf8")]
    NotUtf8,
    /// Memory ran out.
    #[error("OutOfMemory")]
    OutOfMemory,
}

impl<T: Drop> From<AllocFailed<T>> for WordFault {
    ghost from_gives = { λ _ fault. fault ≡ OutOfMemory };

    fn from(_: AllocFailed<T>) -> WordFault {
        WordFault::OutOfMemory
    }
}

/// The words in each of these files.
///
/// # Errors
///
/// `NotUtf8` if a word isn't UTF-8, `OutOfMemory` if memory runs out.
pub(crate) fn word_lists(alloc: Global, files: &[Vec<u8>]) -> Result<Vec<Vec<&str>>, WordFault>
    ensures words { IfOk result (λ lists. lists_view lists.items ≡ map words_in (files_view files.now)) }
    ensures utf8 { IfOk result (λ lists. are_utf8 (files_view files.now) ≡ true) }
    ensures not_utf8 { IsErrOf result WordFault.NotUtf8 → are_utf8 (files_view files.now) ≡ false }
{
    let mut lists = Vec::new(alloc);
    for file in files {
        lists.push(words_in(alloc, file)?)?;
    }
    Ok(lists)
}

/// The words in a file: its lines, but for empty ones and those that begin with `#`.
fn words_in(alloc: Global, file: &[u8]) -> Result<Vec<&str>, WordFault>
    ensures words { IfOk result (λ words. texts_of words.items ≡ words_in file.now) }
    ensures utf8 { IfOk result (λ words. list_all is_utf8 (words_in file.now) ≡ true) }
    ensures not_utf8 { IsErrOf result WordFault.NotUtf8 → list_all is_utf8 (words_in file.now) ≡ false }
{
    let mut words = Vec::new(alloc);
    let mut rest = file;
    while let Some((piece, after)) = first_piece(rest, b'\n') {
        let line = trim_carriage_return(piece);
        if is_word_line(line) {
            words.push(word_of(line)?)?;
        }
        rest = after;
    }
    Ok(words)
}

/// The word of these bytes, which is refused if it isn't UTF-8.
fn word_of(bytes: &[u8]) -> Result<&str, WordFault>
    ensures word { IfOk result (λ word. word.now ≡ bytes.now) }
    ensures utf8 { IfOk result (λ word. is_utf8 bytes.now ≡ true) }
    ensures not_utf8 { IsErrOf result WordFault.NotUtf8 → is_utf8 bytes.now ≡ false }
{
    match str::from_utf8(bytes) {
        Ok(word) => Ok(word),
        Err(_) => Err(WordFault::NotUtf8),
    }
}

/// Whether a line is a word: it isn't empty, and doesn't begin with `#`.
fn is_word_line(line: &[u8]) -> bool
    ensures { result ≡ is_word_line line.now }
{
    match line.first() {
        Some(byte) => *byte != b'#',
        None => false,
    }
}
