//! Reads the files of a tree.
ghost use Rattle.std.specs.Prelude.{◌≡◌, ◌⊎◌, ◌≤◌, [], length, Some};
ghost use Rattle.kc_tree_model.specs.Limits.{FileSource, size_in, bytes_in};
ghost use Rattle.kc_tree_model.specs.TreeReading.{read_root, reading, lenient_reading};
ghost use Rattle.kc_parser.specs.between.ListingView.{RepresentsListing};
ghost use Rattle.kc_parser.specs.between.MemoryFaults.{no_memory};
ghost use Rattle.kc_parser.specs.checker.StateViews.{Describes, file_source_of};
ghost use Rattle.kc_parser.specs.checker.Roots.{ReturnsOutcome, of_first};

use super::listing::{Listing, SymbolTable};
use super::reader::read_open_file;
use super::sources::file_of;
use super::state::{ReaderState, SourceFile, SourceFiles};
use kc_expr::Arena;
use kc_tree_model::{Texts, TreeFault, TreeKind};
use kc_value::{MAX_OPEN_FILES, MAX_TREE_BYTES, Seed};
use std::alloc::Global;

impl Listing {
    /// Nothing was read. Takes no memory. Names are hashed by this seed.
    fn new(alloc: Global, seed: Seed) -> Listing
        ensures { RepresentsListing result [] }
    {
        Listing {
            names: SymbolTable {
                arena: Arena::with_seed(alloc, seed),
                symbols: Vec::new(alloc),
                numbers: Vec::new(alloc),
            },
            texts: Vec::new(alloc),
            groups: Vec::new(alloc),
            lines: Vec::new(alloc),
        }
    }
}

impl ReaderState {
    /// The state before a first file of this size.
    fn new(alloc: Global, seed: Seed, bytes: usize) -> ReaderState
        requires small { bytes ≤ MAX_TREE_BYTES }
        ensures empty { (r : FileSource) → bytes ≡ size_in r r.root → Describes r result [] }
    {
        ReaderState {
            alloc,
            listing: Listing::new(alloc, seed),
            stack: Vec::new(alloc),
            choices: 0,
            files: 1,
            bytes,
        }
    }
}

/// Reads the first file and all that it sources, where there is room for its bytes.
fn read_first(
    alloc: Global,
    from: SourceFiles<'_>,
    file: SourceFile<'_>,
) -> (Listing, Option<TreeFault>)
    requires small { length file.bytes.now ≤ MAX_TREE_BYTES }
    ensures read { file.entry.number ≡ (file_source_of from.entry).number (file_source_of from.entry).root → file.entry.bytes.now ≡ bytes_in (file_source_of from.entry) (file_source_of from.entry).root
        → ReturnsOutcome (of_first (file_source_of from.entry)) result }
{
    let mut read = ReaderState::new(alloc, from.texts.seed(), file.bytes.len());
    let fault = match read_open_file(&mut read, from, MAX_OPEN_FILES, file) {
        Ok(()) => None,
        Err(fault) => Some(fault),
    };
    (read.listing, fault)
}

/// Reads the first file, which may be absent or too large, and all that it sources. An absent file may be read as an empty one.
fn read_all(
    alloc: Global,
    texts: &Texts,
    root: &str,
    absent_is_empty: bool,
) -> (Listing, Option<TreeFault>)
    ensures { let from = file_source_of (record { texts = texts.entry; root = root.entry; absent_is_empty = absent_is_empty }) in
        ReturnsOutcome (read_root from (from.bytes from.root)) result }
{
    let from = SourceFiles {
        texts,
        root,
        absent_is_empty,
    };
    let file = match file_of(from, from.root) {
        Ok(file) => file,
        Err(kind) => {
            let fault = TreeFault {
                file: None,
                line: 0,
                kind,
            };
            return (Listing::new(alloc, from.texts.seed()), Some(fault));
        }
    };
    if file.bytes.len() > MAX_TREE_BYTES {
        let fault = TreeFault::at_line(file.number, 0, TreeKind::TooMany);
        return (Listing::new(alloc, from.texts.seed()), Some(fault));
    }
    read_first(alloc, from, file)
}

/// The statements of a tree's files, from a first file on, and the first fault of reading.
///
/// The listing has all statements up to that fault. If memory runs out, the fault is `OutOfMemory`, without a file, and
/// the listing can be anything. A path whose number doesn't fit in 32 bits also gives `OutOfMemory`.
pub fn read_files(alloc: Global, texts: &Texts, root: &str) -> (Listing, Option<TreeFault>)
    ensures fault { (result.1 ≡ Some no_memory) ⊎ (result.1 ≡ (reading texts.now root.now).fault) }
    ensures read { (result.1 ≡ Some no_memory) ⊎ RepresentsListing result.0 (reading texts.now root.now).read }
{
    read_all(alloc, texts, root, false)
}

/// The statements of a tree's files and the first fault, as `read_files` gives them, but an absent path is read as an empty file.
pub fn read_files_leniently(
    alloc: Global,
    texts: &Texts,
    root: &str,
) -> (Listing, Option<TreeFault>)
    ensures fault { (result.1 ≡ Some no_memory) ⊎ (result.1 ≡ (lenient_reading texts.now root.now).fault) }
    ensures read { (result.1 ≡ Some no_memory) ⊎ RepresentsListing result.0 (lenient_reading texts.now root.now).read }
{
    read_all(alloc, texts, root, true)
}
