//! Lists of paths: the paths in the bytes of a list, each ended by a newline or by NUL.
ghost use Rattle.std.specs.Prelude.{◌≡◌, true, false, map, IfOk, IsErrOf};
ghost use Rattle.std.specs.List.{list_all};
ghost use Rattle.std.specs.Str.{is_utf8};
ghost use Rattle.kmin_lines.specs.Lists.{paths_in, is_one_line, ender_of};
ghost use Rattle.kmin_lines.specs.declared.list.ListFault.TheVariants.{OutOfMemory};

use crate::pieces::first_piece;
use bstr::ByteSlice;
use std::alloc::{AllocError, AllocFailed, Global};
use thiserror::Error;

/// Why a list of paths is refused. A fault's text is its name.
#[derive(Clone, Copy, Debug, PartialEq, Eq, Error)]
pub enum ListFault {
    /// A path of the list isn't UTF-8.
    #[error("NotUtf8")]
    NotUtf8,
    /// A path of the list, whose paths are ended by NUL, has a newline.
    #[error("HasNewline")]
    HasNewline,
    /// Memory ran out.
    #[error("OutOfMemory")]
    OutOfMemory,
}

impl<T: Drop> From<AllocFailed<T>> for ListFault {
    ghost from_gives = { λ _ fault. fault ≡ OutOfMemory };

    fn from(_: AllocFailed<T>) -> ListFault {
        ListFault::OutOfMemory
    }
}

/// The paths of a list, in order: one per line, or each ended by a zero byte if `ended_by_nul`; the last path needs no end.
/// Empty paths are left out.
///
/// # Errors
///
/// `NotUtf8` or `HasNewline` for the first path that isn't UTF-8 or has a newline, `OutOfMemory` if memory runs out.
pub fn listed_paths(alloc: Global, list: &[u8], ended_by_nul: bool) -> Result<Vec<&str>, ListFault>
    ensures paths { IfOk result (λ paths. map (λ path. path.now) paths.items ≡ paths_in ended_by_nul list.now) }
    ensures utf8 { IfOk result (λ paths. list_all is_utf8 (paths_in ended_by_nul list.now) ≡ true) }
    ensures one_line { IfOk result (λ paths. list_all is_one_line (paths_in ended_by_nul list.now) ≡ true) }
    ensures not_utf8 { IsErrOf result ListFault.NotUtf8 → list_all is_utf8 (paths_in ended_by_nul list.now) ≡ false }
    ensures has_newline { IsErrOf result ListFault.HasNewline → list_all is_one_line (paths_in ended_by_nul list.now) ≡ false }
{
    let ender = ender_of(ended_by_nul);
    let mut paths = Vec::new(alloc);
    let mut rest = list;
    while let Some((piece, after)) = first_piece(rest, ender) {
        if !piece.is_empty() {
            paths.push(path_of(piece)?)?;
        }
        rest = after;
    }
    Ok(paths)
}

/// The byte that ends each path in a list of paths: NUL if `ended_by_nul`, else a newline.
fn ender_of(ended_by_nul: bool) -> u8
    ensures { result ≡ ender_of ended_by_nul }
{
    if ended_by_nul { 0 } else { b'\n' }
}

/// The path of these bytes, which is refused if it isn't UTF-8 or has a newline.
fn path_of(bytes: &[u8]) -> Result<&str, ListFault>
    ensures path { IfOk result (λ path. path.now ≡ bytes.now) }
    ensures utf8 { IfOk result (λ path. is_utf8 bytes.now ≡ true) }
    ensures one_line { IfOk result (λ path. is_one_line bytes.now ≡ true) }
    ensures not_utf8 { IsErrOf result ListFault.NotUtf8 → is_utf8 bytes.now ≡ false }
    ensures has_newline { IsErrOf result ListFault.HasNewline → is_one_line bytes.now ≡ false }
{
    let Ok(path) = str::from_utf8(bytes) else {
        return Err(ListFault::NotUtf8);
    };
    if is_one_line(bytes) {
        Ok(path)
    } else {
        Err(ListFault::HasNewline)
    }
}

/// Whether a path has no newline.
fn is_one_line(path: &[u8]) -> bool
    ensures { result ≡ is_one_line path.now }
{
    path.iter().all(|byte| *byte != b'\n')
}
