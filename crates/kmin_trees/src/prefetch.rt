//! Guesses which files a Kconfig file sources, before it is parsed. A wrong guess only opens a file in vain.
use bstr::ByteSlice;
use kc_tree::Texts;
use kc_value::MAX_FILES;
use kmin_lines::first_piece;
use std::alloc::{AllocError, Global};

/// The keyword of a line that sources a file.
const SOURCE: &[u8] = b"source";

/// The paths that lines of file `number` of the texts seem to source, and that the texts lack; `None` after the last file.
pub(crate) fn absent_paths_of_file(
    alloc: Global,
    texts: &Texts,
    number: u32,
) -> Result<Option<Vec<String>>, AllocError> {
    let Some(path) = texts.path_at(number) else {
        return Ok(None);
    };
    let bytes = texts.get(path).unwrap_or(&[]);
    Ok(Some(absent_paths(alloc, texts, bytes)?))
}

/// The paths that the lines of a file source and the texts lack, up to `MAX_FILES` of them.
fn absent_paths(alloc: Global, texts: &Texts, bytes: &[u8]) -> Result<Vec<String>, AllocError> {
    let mut paths = Vec::new(alloc);
    for place in bytes.find_iter(SOURCE) {
        push_absent(alloc, texts, sourced_path(bytes, place), &mut paths)?;
        if paths.len() >= MAX_FILES {
            break;
        }
    }
    Ok(paths)
}

/// Appends a path if the texts lack it.
fn push_absent(
    alloc: Global,
    texts: &Texts,
    path: Option<&str>,
    paths: &mut Vec<String>,
) -> Result<(), AllocError> {
    match path {
        Some(path) if texts.get(path).is_none() => {
            paths.push(String::from_str(alloc, path)?)?;
            Ok(())
        }
        _ => Ok(()),
    }
}

/// The path of the `source` line whose keyword is at this offset, if the line is written the usual way.
fn sourced_path(bytes: &[u8], place: usize) -> Option<&str> {
    let (before, rest) = bytes.split_at_checked(place)?;
    if begins_line(before) {
        path_after_word(line_from(rest))
    } else {
        None
    }
}

/// The bytes up to the first newline.
fn line_from(bytes: &[u8]) -> &[u8] {
    match first_piece(bytes, b'\n') {
        Some((line, _)) => line,
        None => bytes,
    }
}

/// The path of a `source` line, if the line is written the usual way.
fn path_after_word(line: &[u8]) -> Option<&str> {
    let path = std::str::from_utf8(line).ok()?.strip_prefix("source")?;
    Some(path.trim().trim_matches('"'))
}

/// Whether there are only spaces and tabs after the last newline.
fn begins_line(before: &[u8]) -> bool {
    for byte in before.iter().rev() {
        match *byte {
            b'\n' => return true,
            b' ' | b'\t' => {}
            _ => return false,
        }
    }
    true
}
