//! The files that patterns of paths match.
ghost use Rattle.std.specs.Prelude.{◌≡◌, ◌≢◌, ℕ, ◌<◌, ◌++◌, ◌∷◌, [], IfOk, IfSome, IfNone, OnOk, filter, length, map, slice_index, if◌then◌else◌};
ghost use Rattle.kc_macros_model.specs.Programs.{Place, list_folder, does};
ghost use Rattle.kc_macros_model.specs.Worlds.{returned};
ghost use Rattle.kc_macros_model.specs.PathPatterns.{matches_name, matching_listed, paths_in_folders, paths_below, path_pieces, paths_with_files, files_of_pattern};
ghost use Rattle.kc_files.specs.TextViews.{items_of, texts_of};
ghost use Rattle.kc_files.specs.between.KnownFiles.{Grows};
ghost use Rattle.kc_files.specs.between.FileRuns.{Comes};
ghost use Rattle.kc_files.specs.checker.FileViews.{known_of};
ghost use Rattle.kc_files.specs.checker.PatternRuns.{found_of, IsCutPattern, Finds, FindsMore};
ghost use Rattle.kc_files.specs.TreeContents.{StaysKnown};

use super::file_cache::{FileCache, is_there};
use super::files::TreeFiles;
use super::name_matches::matches_name;
use super::paths::is_pattern;
use kc_value::MAX_LISTED_NAMES;
use std::alloc::{AllocError, Global};

/// The paths that a pattern matches, and how many names in folders were listed for the tree so far.
#[derive(Drop)]
pub struct FoundPaths {
    pub paths: Vec<Vec<u8>>,
    pub listed: usize,
}

/// Why the files of a pattern aren't found: too many names were listed, a folder that is there can't be listed, or memory ran out.
#[derive(Drop)]
pub enum PatternStop {
    TooMany,
    Unlisted,
    OutOfMemory,
}

impl From<AllocError> for PatternStop {
    ghost use Rattle.std.specs.Prelude.{◌≡◌};
    ghost use Rattle.kc_files.specs.declared.patterns.PatternStop.TheVariants.{OutOfMemory};

    ghost from_gives = { λ _ e. e ≡ OutOfMemory };

    fn from(_error: AllocError) -> PatternStop {
        PatternStop::OutOfMemory
    }
}

/// A text with another after it.
fn joined(alloc: Global, front: &[u8], back: &[u8]) -> Result<Vec<u8>, AllocError>
    ensures { IfOk result (λ text. text.items ≡ front.now ++ back.now) }
{
    let mut text = Vec::from_slice(alloc, front)?;
    text.extend_from_slice(back)?;
    Ok(text)
}

/// Appends the names that match a piece, as paths in a folder.
fn push_matching(
    alloc: Global,
    names: &[Vec<u8>],
    piece: &[u8],
    folder: &[u8],
    paths: &mut Vec<Vec<u8>>,
) -> Result<(), AllocError>
    ensures { OnOk result (texts_of paths.new ≡ texts_of paths.old ++ map (λ name. folder.now ++ name) (filter (matches_name piece.now) (items_of names.now))) }
{
    for name in names {
        if matches_name(alloc, piece, name)? {
            let path = joined(alloc, folder, name)?;
            paths.push(path)?;
        }
    }
    Ok(())
}

/// Lists a folder, and appends those of its names that match a piece, as paths.
fn push_listed<F: TreeFiles>(
    alloc: Global,
    store: &mut FileCache,
    files: &mut F,
    piece: &[u8],
    folder: &[u8],
    found: &mut FoundPaths,
) -> Result<(), PatternStop>
    ensures same { StaysKnown (F.contents files.old) (F.contents files.new) }
    ensures grows { Grows (F.contents files.old) (F.contents files.new) (known_of store.old) (known_of store.new) }
    ensures finds { (at : Place) → FindsMore (known_of store.new) at (does (list_folder folder.now) (matching_listed at piece.now folder.now found.old.listed)) (found_of found.old) (found_of found.new) result }
{
    store.list(alloc, files, folder)?;
    let names = store.names_in(folder)?;
    let listed = found.listed.saturating_add(names.len());
    if listed > MAX_LISTED_NAMES {
        return Err(PatternStop::TooMany);
    }
    push_matching(alloc, names, piece, folder, &mut found.paths)?;
    found.listed = listed;
    Ok(())
}

/// Texts with another after each.
fn each_joined(alloc: Global, fronts: &[Vec<u8>], back: &[u8]) -> Result<Vec<Vec<u8>>, AllocError>
    ensures { IfOk result (λ texts. texts_of texts ≡ map (λ front. front ++ back.now) (items_of fronts.now)) }
{
    let mut texts = Vec::new(alloc);
    for front in fronts {
        let text = joined(alloc, front, back)?;
        texts.push(text)?;
    }
    Ok(texts)
}

/// The paths that a piece of a pattern matches in some folders; a piece that is no pattern is taken as a name, and nothing is
/// listed.
fn paths_in_folders<F: TreeFiles>(
    alloc: Global,
    store: &mut FileCache,
    files: &mut F,
    piece: &[u8],
    folders: &[Vec<u8>],
    listed: usize,
) -> Result<FoundPaths, PatternStop>
    ensures same { StaysKnown (F.contents files.old) (F.contents files.new) }
    ensures grows { Grows (F.contents files.old) (F.contents files.new) (known_of store.old) (known_of store.new) }
    ensures finds { (at : Place) → Finds (known_of store.new) at (paths_in_folders at piece.now (items_of folders.now) listed) result }
{
    if !is_pattern(piece) {
        let paths = each_joined(alloc, folders, piece)?;
        return Ok(FoundPaths { paths, listed });
    }
    let mut found = FoundPaths {
        paths: Vec::new(alloc),
        listed,
    };
    for folder in folders {
        push_listed(alloc, store, files, piece, folder, &mut found)?;
    }
    Ok(found)
}

/// The place of the first slash.
fn place_of_slash(path: &[u8]) -> Option<usize>
    ensures some { IfSome result (λ at. (at < length path.now) × (slice_index path.now at ≡ 47) × ((k : ℕ) → k < at → slice_index path.now k ≢ 47)) }
    ensures none { IfNone result ((k : ℕ) → k < length path.now → slice_index path.now k ≢ 47) }
{
    for (at, byte) in path.iter().enumerate() {
        if *byte == b'/' {
            return Some(at);
        }
    }
    None
}

/// A path, cut at its first slash: the piece before it and the rest after it.
#[derive(Clone, Copy)]
struct CutPath<'a> {
    piece: &'a [u8],
    tail: &'a [u8],
}

/// Cuts a path at its first slash, if it has one.
fn cut_at_slash(path: &[u8]) -> Option<CutPath<'_>>
    ensures some { IfSome result (λ c. IsCutPattern path.now c.piece.now c.tail.now) }
    ensures none { IfNone result (path_pieces path.now ≡ path.now ∷ []) }
{
    match place_of_slash(path) {
        Some(at) => Some(CutPath {
            piece: &path[..at],
            tail: &path[at + 1..],
        }),
        None => None,
    }
}

/// The root folder alone, whose path is empty.
fn root_folder(alloc: Global) -> Result<Vec<Vec<u8>>, AllocError>
    ensures { IfOk result (λ folders. texts_of folders ≡ [] ∷ []) }
{
    let mut folders = Vec::new(alloc);
    folders.push(Vec::new(alloc))?;
    Ok(folders)
}

/// The paths below some folders that match a pattern.
fn paths_below<F: TreeFiles>(
    alloc: Global,
    store: &mut FileCache,
    files: &mut F,
    pattern: &[u8],
    mut found: FoundPaths,
) -> Result<FoundPaths, PatternStop>
    ensures same { StaysKnown (F.contents files.old) (F.contents files.new) }
    ensures grows { Grows (F.contents files.old) (F.contents files.new) (known_of store.old) (known_of store.new) }
    ensures finds { (at : Place) → Finds (known_of store.new) at (paths_below at (path_pieces pattern.now) (texts_of found.paths) found.listed) result }
{
    let mut rest = pattern;
    while let Some(cut) = cut_at_slash(rest) {
        let matched = paths_in_folders(alloc, store, files, cut.piece, &found.paths, found.listed)?;
        found = FoundPaths {
            paths: each_joined(alloc, &matched.paths, b"/")?,
            listed: matched.listed,
        };
        rest = cut.tail;
    }
    paths_in_folders(alloc, store, files, rest, &found.paths, found.listed)
}

/// Appends a path where `there` is true.
fn push_if(
    alloc: Global,
    there: bool,
    path: &[u8],
    paths: &mut Vec<Vec<u8>>,
) -> Result<(), AllocError>
    ensures { OnOk result (texts_of paths.new ≡ (if there then texts_of paths.old ++ path.now ∷ [] else texts_of paths.old)) }
{
    if there {
        let copy = Vec::from_slice(alloc, path)?;
        paths.push(copy)?;
    }
    Ok(())
}

/// Those paths of a list at which files are, in the order of the list, also those that can't be read. An `Err` means out of memory.
pub fn paths_with_files<F: TreeFiles>(
    alloc: Global,
    store: &mut FileCache,
    files: &mut F,
    paths: &[Vec<u8>],
) -> Result<Vec<Vec<u8>>, AllocError>
    ensures same { StaysKnown (F.contents files.old) (F.contents files.new) }
    ensures grows { Grows (F.contents files.old) (F.contents files.new) (known_of store.old) (known_of store.new) }
    ensures reads { IfOk result (λ found. Comes (known_of store.new) (paths_with_files (items_of paths.now)) (returned (texts_of found))) }
{
    let mut found = Vec::new(alloc);
    for path in paths {
        let read = store.file(alloc, files, path)?;
        push_if(alloc, is_there(&read), path, &mut found)?;
    }
    Ok(found)
}

/// The files of a pattern: the paths that match it and at which files are, in ascending order of their bytes.
pub fn files_of_pattern<F: TreeFiles>(
    alloc: Global,
    store: &mut FileCache,
    files: &mut F,
    pattern: &[u8],
    listed: usize,
) -> Result<FoundPaths, PatternStop>
    ensures same { StaysKnown (F.contents files.old) (F.contents files.new) }
    ensures grows { Grows (F.contents files.old) (F.contents files.new) (known_of store.old) (known_of store.new) }
    ensures finds { (at : Place) → Finds (known_of store.new) at (files_of_pattern at pattern.now listed) result }
{
    let root = FoundPaths {
        paths: root_folder(alloc)?,
        listed,
    };
    let found = paths_below(alloc, store, files, pattern, root)?;
    let mut paths = paths_with_files(alloc, store, files, &found.paths)?;
    paths.sort()?;
    Ok(FoundPaths {
        paths,
        listed: found.listed,
    })
}
