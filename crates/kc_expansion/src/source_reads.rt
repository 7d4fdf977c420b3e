//! The files and lists that a `source` line reads, before and after their lines are read.
ghost use Rattle.std.specs.Prelude.{◌≤◌, List, ℕ, length};
ghost use Rattle.kc_macros_model.specs.Programs.{returns};
ghost use Rattle.kc_macros_model.specs.ReadingStates.{progress, stored_file};
ghost use Rattle.kc_macros_model.specs.TreeExpansion.{one_file, file_list, list_read};
ghost use Rattle.kc_macros.specs.Runs.{place_of, end_of};
ghost use Rattle.kc_files.specs.TreeContents.{TreeContents};
ghost use Rattle.kc_expansion.specs.between.Reads.{Reads};
ghost use Rattle.kc_expansion.specs.checker.ReadingViews.{state_of, file_run_of, reader_for, reader_of};
ghost use Rattle.kc_expansion.specs.checker.SourceReads.{Opens, OpensFile};
ghost use Rattle.kc_expansion.specs.checker.StepResults.{StepsTo};

use super::faults::fault;
use super::open_files::OpenFiles;
use super::source_faults::bytes_to_read;
use super::tree_expander::TreeExpander;
use kc_files::{FileRead, TreeFiles};
use kc_macros::{Place, Stop};
use kc_value::MAX_OPEN_FILES;
use std::rc::Rc;

/// Reads the bytes of the file of a path, and counts them; a fault where it may not be read.
pub(crate) fn file_to_read<F: TreeFiles>(
    reading: &mut TreeExpander<'_>,
    files: &mut F,
    opened: &OpenFiles<'_>,
    at: Place<'_>,
    path: &[u8],
) -> Result<Rc<Vec<u8>>, Stop>
    requires few { length opened.now.paths.now ≤ MAX_OPEN_FILES }
    ensures { StepsTo (file_run_of (F.contents files.old) reading.old) (file_run_of (F.contents files.new) reading.new) (reader_of opened.now (place_of at.entry) (one_file path.now) (state_of reading.old))
        (λ bytes. OpensFile (file_run_of (F.contents files.old) reading.old) (file_run_of (F.contents files.new) reading.new) opened.now path.now (reader_of opened.now (place_of at.entry) (one_file path.now) (state_of reading.old)) (state_of reading.new) bytes.value.items) result }
{
    let read = reading.store.file(reading.alloc, files, path)?;
    match bytes_to_read(opened.paths, reading.counts, path, read) {
        Ok(bytes) => {
            reading.counts = reading.counts.with(bytes.len());
            Ok(bytes)
        }
        Err(kind) => Err(fault(reading.alloc, at, kind)),
    }
}

/// Counts a list of files as a file without bytes; a fault where it may not be read.
pub(crate) fn list_to_read(
    reading: &mut TreeExpander<'_>,
    opened: &OpenFiles<'_>,
    at: Place<'_>,
    name: &[u8],
) -> Result<(), Stop>
    requires few { length opened.now.paths.now ≤ MAX_OPEN_FILES }
    ensures { (contents : TreeContents) (files : List (List ℕ)) → StepsTo (file_run_of contents reading.old) (file_run_of contents reading.new) (reader_of opened.now (place_of at.entry) (file_list name.now files) (state_of reading.old))
        (λ _. Opens (file_run_of contents reading.old) (file_run_of contents reading.new) opened.now name.now (reader_of opened.now (place_of at.entry) (file_list name.now files) (state_of reading.old))
        (λ paths. list_read (reader_for opened.now.root.now paths) (place_of at.entry) files (state_of reading.new))) result }
{
    let empty = FileRead::Whole(Rc::new(reading.alloc, Vec::new(reading.alloc))?);
    if let Err(kind) = bytes_to_read(opened.paths, reading.counts, name, empty) {
        return Err(fault(reading.alloc, at, kind));
    }
    reading.counts = reading.counts.with(0);
    Ok(())
}

/// Keeps the expanded text of a path; returns its key.
pub(crate) fn keep_text(
    reading: &mut TreeExpander<'_>,
    root: &[u8],
    path: &[u8],
    text: Rc<Vec<u8>>,
) -> Result<Vec<u8>, Stop>
    ensures { (contents : TreeContents) → Reads (file_run_of contents reading.old) (file_run_of contents reading.new) (returns (stored_file root.now path.now (progress text.value.items (state_of reading.old)))) (end_of (λ key. progress key.items (state_of reading.new)) result) }
{
    Ok(reading.expanded.insert(root, path, text)?)
}

/// Keeps the text of a list of files; returns its key.
pub(crate) fn keep_list(
    reading: &mut TreeExpander<'_>,
    root: &[u8],
    name: &[u8],
    text: Vec<u8>,
) -> Result<Vec<u8>, Stop>
    ensures { (contents : TreeContents) → Reads (file_run_of contents reading.old) (file_run_of contents reading.new) (returns (stored_file root.now name.now (progress text.items (state_of reading.old)))) (end_of (λ key. progress key.items (state_of reading.new)) result) }
{
    let text = Rc::new(reading.alloc, text)?;
    keep_text(reading, root, name, text)
}
