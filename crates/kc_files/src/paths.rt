//! The paths of `source` lines.
ghost use Rattle.std.specs.Prelude.{◌≡◌, ◌==◌, ◌&&◌, IfOk};
ghost use Rattle.std.specs.List.{list_any};
ghost use Rattle.kc_macros_model.specs.PathPatterns.{is_pattern, is_wildcard};
ghost use Rattle.kc_macros_model.specs.TreeExpansion.{begins_with_slash, folder_of, list_name};
ghost use Rattle.kc_macros.specs.Runs.{place_of};
ghost use Rattle.kc_files.specs.checker.PathViews.{path_from};

use itoa::Buffer;
use kc_macros::Place;
use std::alloc::{AllocError, Global};

/// Whether a byte is `*` or `?`.
pub(crate) fn is_wildcard(byte: u8) -> bool
    ensures { result ≡ is_wildcard byte }
{
    byte == b'*' || byte == b'?'
}

/// Whether a path has a `*` or a `?`.
pub fn is_pattern(path: &[u8]) -> bool
    ensures { result ≡ is_pattern path.now }
{
    path.iter().any(|byte| is_wildcard(*byte))
}

/// Whether a path has a `[`.
pub fn has_bracket(path: &[u8]) -> bool
    ensures { result ≡ list_any (λ c. c == 91) path.now }
{
    path.iter().any(|byte| *byte == b'[')
}

/// Whether a path begins with a slash.
fn begins_with_slash(path: &[u8]) -> bool
    ensures { result ≡ begins_with_slash path.now }
{
    match path.first() {
        Some(byte) => *byte == b'/',
        None => false,
    }
}

/// The folder of a path, with its last slash.
fn folder_of(path: &[u8]) -> &[u8]
    ensures { result.now ≡ folder_of path.now }
{
    let mut end = path.len();
    while end > 0 && path[end - 1] != b'/' {
        end -= 1;
    }
    &path[..end]
}

/// The path that a `source` line of a file means: with `relative`, the given path is in the folder of the file, unless it begins
/// with a slash.
///
/// # Errors
///
/// Memory runs out.
pub fn path_meant(
    alloc: Global,
    relative: bool,
    file: &[u8],
    given: &[u8],
) -> Result<Vec<u8>, AllocError>
    ensures { IfOk result (λ path. path.items ≡ path_from relative file.now given.now) }
{
    if relative && !begins_with_slash(given) {
        let mut path = Vec::from_slice(alloc, folder_of(file))?;
        path.extend_from_slice(given)?;
        return Ok(path);
    }
    Vec::from_slice(alloc, given)
}

/// The name of the list of files that a line sources: the path of the line's file, `:` and the number of the line.
///
/// # Errors
///
/// Memory runs out.
pub fn list_name(alloc: Global, at: Place<'_>) -> Result<Vec<u8>, AllocError>
    ensures { IfOk result (λ name. name.items ≡ list_name (place_of at.entry)) }
{
    let mut buffer = Buffer::new();
    let mut name = Vec::from_slice(alloc, at.file)?;
    name.push(b':')?;
    name.extend_from_slice(buffer.format(at.line).as_bytes())?;
    Ok(name)
}
