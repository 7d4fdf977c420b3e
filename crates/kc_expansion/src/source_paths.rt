//! The paths that a `source` line reads.
ghost use Rattle.std.specs.Prelude.{◌≡◌, ◌∷◌, [], ◌||◌, not, nat_lt, length, Some, IfOk};
ghost use Rattle.kc_macros_model.specs.Worlds.{returned};
ghost use Rattle.kc_macros_model.specs.PathPatterns.{paths_with_files};
ghost use Rattle.kc_macros_model.specs.TreeExpansion.{SourceReader, path_read};
ghost use Rattle.kc_macros.specs.Runs.{place_of};
ghost use Rattle.kc_macro_forms.specs.between.LineFormViews.{source_sort_of};
ghost use Rattle.kc_files.specs.TextViews.{items_of, texts_of};
ghost use Rattle.kc_files.specs.between.FileRuns.{Comes};
ghost use Rattle.kc_files.specs.between.KnownFiles.{Grows};
ghost use Rattle.kc_files.specs.checker.FileViews.{known_of};
ghost use Rattle.kc_expansion.specs.checker.ProgramSteps.{Steps};
ghost use Rattle.kc_expansion.specs.checker.ReadingViews.{state_of, file_run_of, paths_left, pattern_followed};
ghost use Rattle.kc_files.specs.TreeContents.{StaysKnown};

use super::faults::fault;
use super::tree_expander::TreeExpander;
use kc_files::{
    FileCache, FoundPaths, PatternStop, TreeFiles, files_of_pattern, is_pattern, paths_with_files,
};
use kc_macro_forms::SourceSort;
use kc_macros::{MacroKind, Place, Stop};
use std::alloc::{AllocError, Global};

/// Whether a pattern must have files and has none.
fn lacks_files(paths: &[Vec<u8>], optional: bool) -> bool
    ensures { result ≡ not (nat_lt 0 (length (items_of paths.now)) || optional) }
{
    paths.is_empty() && !optional
}

/// The files that a pattern matches, also those that can't be read; a pattern without files is a fault, unless they may be
/// missing, and so is a folder that is there and can't be listed.
fn pattern_paths<F: TreeFiles>(
    reading: &mut TreeExpander<'_>,
    files: &mut F,
    at: Place<'_>,
    sort: SourceSort,
    pattern: &[u8],
) -> Result<Vec<Vec<u8>>, Stop>
    ensures { (sub : SourceReader) → Steps (file_run_of (F.contents files.old) reading.old) (file_run_of (F.contents files.new) reading.new) (pattern_followed sub (place_of at.entry) (source_sort_of sort) pattern.now (state_of reading.old)) (λ found. paths_left sub (place_of at.entry) pattern.now (Some found) (state_of reading.new)) result }
{
    match files_of_pattern(
        reading.alloc,
        &mut reading.store,
        files,
        pattern,
        reading.listed,
    ) {
        Ok(found) => {
            if lacks_files(&found.paths, sort.optional) {
                return Err(fault(reading.alloc, at, MacroKind::MissingFile));
            }
            reading.listed = found.listed;
            Ok(found.paths)
        }
        Err(PatternStop::TooMany) => Err(fault(reading.alloc, at, MacroKind::TooMany)),
        Err(PatternStop::Unlisted) => Err(fault(reading.alloc, at, MacroKind::MissingFile)),
        Err(PatternStop::OutOfMemory) => Err(Stop::OutOfMemory),
    }
}

/// A list of one path, or of none where no file is at it.
fn path_if_there<F: TreeFiles>(
    alloc: Global,
    store: &mut FileCache,
    files: &mut F,
    path: &[u8],
) -> Result<Vec<Vec<u8>>, AllocError>
    ensures same { StaysKnown (F.contents files.old) (F.contents files.new) }
    ensures grows { Grows (F.contents files.old) (F.contents files.new) (known_of store.old) (known_of store.new) }
    ensures reads { IfOk result (λ found. Comes (known_of store.new) (paths_with_files (path.now ∷ [])) (returned (texts_of found))) }
{
    let mut paths = Vec::new(alloc);
    let copy = Vec::from_slice(alloc, path)?;
    paths.push(copy)?;
    paths_with_files(alloc, store, files, &paths)
}

/// The files that a `source` line reads as a list: those of a pattern, or one that may be missing; `None` where it reads the
/// one file of its path.
pub(crate) fn paths_to_read<F: TreeFiles>(
    reading: &mut TreeExpander<'_>,
    files: &mut F,
    at: Place<'_>,
    sort: SourceSort,
    path: &[u8],
) -> Result<Option<Vec<Vec<u8>>>, Stop>
    ensures { (sub : SourceReader) → Steps (file_run_of (F.contents files.old) reading.old) (file_run_of (F.contents files.new) reading.new) (path_read sub (place_of at.entry) (source_sort_of sort) path.now (state_of reading.old)) (λ found. paths_left sub (place_of at.entry) path.now found (state_of reading.new)) result }
{
    if is_pattern(path) {
        let found = pattern_paths(reading, files, at, sort, path)?;
        return Ok(Some(found));
    }
    if sort.optional {
        let paths = path_if_there(reading.alloc, &mut reading.store, files, path)?;
        return Ok(Some(paths));
    }
    Ok(None)
}
