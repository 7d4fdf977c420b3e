//! Words of a command line, of which each `@FILE` represents the words in a file.
ghost use Rattle.std.specs.Prelude.{◌≡◌, ◌++◌, true, false, drop, option_map, IfOk, OnOk, IsErrOf};
ghost use Rattle.kmin_lines.specs.WordLines.{are_utf8};
ghost use Rattle.kmin_lines.specs.WordFiles.{file_of, files_of, first_list, further_lists, lists_after, with_files, with_lists, words_for};
ghost use Rattle.kmin_lines.specs.between.Texts.{files_view, lists_view, texts_of};

use crate::word_lines::{WordFault, word_lists};
use std::alloc::{AllocError, Global};

/// The paths of the files of the words `@FILE`, in order. A word after `--` names no file.
pub fn files_of<'a>(alloc: Global, words: &[&'a str]) -> Result<Vec<&'a str>, AllocError>
    ensures { IfOk result (λ paths. texts_of paths.items ≡ files_of (texts_of words.now)) }
{
    let mut paths = Vec::new(alloc);
    for word in words {
        if *word == "--" {
            return Ok(paths);
        }
        if let Some(path) = file_of(word) {
            paths.push(path)?;
        }
    }
    Ok(paths)
}

/// The path of the file of a word `@FILE`; `None` for any other word.
fn file_of(word: &str) -> Option<&str>
    ensures { option_map (λ path. path.now) result ≡ file_of word.now }
{
    word.strip_prefix('@')
}

/// Words with the words in its file in place of each `@FILE` before a `--`, where these are the bytes of the files that `files_of`
/// names, in its order.
///
/// # Errors
///
/// `NotUtf8` if a word in a file isn't UTF-8, `OutOfMemory` if memory runs out.
pub fn with_files<'a>(
    alloc: Global,
    words: &[&'a str],
    files: &'a [Vec<u8>],
) -> Result<Vec<&'a str>, WordFault>
    ensures words { IfOk result (λ all. texts_of all.items ≡ with_files (texts_of words.now) (files_view files.now)) }
    ensures utf8 { IfOk result (λ all. are_utf8 (files_view files.now) ≡ true) }
    ensures not_utf8 { IsErrOf result WordFault.NotUtf8 → are_utf8 (files_view files.now) ≡ false }
{
    let lists = word_lists(alloc, files)?;
    match with_lists(alloc, words, &lists) {
        Ok(all) => Ok(all),
        Err(_) => Err(WordFault::OutOfMemory),
    }
}

/// Words with a list of words in place of each `@FILE` before a `--`.
fn with_lists<'a>(
    alloc: Global,
    words: &[&'a str],
    lists: &[Vec<&'a str>],
) -> Result<Vec<&'a str>, AllocError>
    ensures { IfOk result (λ all. texts_of all.items ≡ with_lists (texts_of words.now) (lists_view lists.now)) }
{
    let mut all = Vec::new(alloc);
    let mut used = 0;
    for (place, word) in words.iter().enumerate() {
        if *word == "--" {
            all.extend_from_slice(&words[place..])?;
            return Ok(all);
        }
        used = push_words(&mut all, word, lists, used)?;
    }
    Ok(all)
}

/// Appends the words that a word represents: those of the first list that isn't used for `@FILE`, and else the word itself. Returns
/// how many lists are used then, where `used` were before.
fn push_words<'a>(
    all: &mut Vec<&'a str>,
    word: &'a str,
    lists: &[Vec<&'a str>],
    used: usize,
) -> Result<usize, AllocError>
    ensures words { OnOk result (texts_of all.new.items ≡ texts_of all.old.items ++ words_for word.now (drop used (lists_view lists.now))) }
    ensures used { IfOk result (λ after. drop after (lists_view lists.now) ≡ lists_after word.now (drop used (lists_view lists.now))) }
{
    match file_of(word) {
        Some(_) => push_list(all, lists, used),
        None => {
            all.push(word)?;
            Ok(used)
        }
    }
}

/// Appends the words of the first list that isn't used, if there is one. Returns how many lists are used then, where `used` were
/// before.
fn push_list<'a>(
    all: &mut Vec<&'a str>,
    lists: &[Vec<&'a str>],
    used: usize,
) -> Result<usize, AllocError>
    ensures words { OnOk result (texts_of all.new.items ≡ texts_of all.old.items ++ first_list (drop used (lists_view lists.now))) }
    ensures used { IfOk result (λ after. drop after (lists_view lists.now) ≡ further_lists (drop used (lists_view lists.now))) }
{
    if used >= lists.len() {
        return Ok(used);
    }
    all.extend_from_slice(&lists[used])?;
    Ok(used + 1)
}
