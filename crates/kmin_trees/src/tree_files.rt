//! The files of a tree that is read without the expansion of macros.
ghost use Rattle.std.specs.Prelude.{◌≡◌, ◌≢◌, ◌<◌, ◌≤◌, ◌^◌, None, true, false, length, map, string_bytes, IfOk, IfErr, IfSome, IfNone, OnOk};
ghost use Rattle.std.specs.List.{All};
ghost use Rattle.kc_tree_model.specs.TreeFiles.{file_at};
ghost use Rattle.kc_tree_model.specs.declared.fault.TreeKind.TheVariants.{MissingFile};
ghost use Rattle.kmin_inputs.specs.FileContents.{AreTextsBelow, MatchContentStart, path_below};
ghost use Rattle.kmin_trees.specs.MissingFiles.{MayBeMissing, LacksOnlyMissing};
ghost use Rattle.kmin_trees.specs.between.Gatherings.{AreBelow, Gathers};
ghost use Rattle.kmin_trees.specs.between.InsertedFiles.{AreInserted};
ghost use Rattle.kmin_trees.specs.between.Readings.{IsReadWith};

use crate::prefetch::absent_paths_of_file;
use crate::read_trees::{KeptLines, ReadTree};
use kc_builder::wanted;
use kc_files::read_front;
use kc_tokens::Language;
use kc_tree::{Texts, TreeFault, TreeKind};
use kc_value::{MAX_BLOCK_BYTES, MAX_FILE_BYTES, MAX_FILES};
use kmin_expansions::path_below;
use kmin_inputs::Files;
use std::alloc::{AllocError, Global};

/// The texts of a tree's files, and the result of reading them as a tree, with what is kept of their lines.
#[derive(Drop)]
pub(crate) struct GatheredFiles<L> {
    pub(crate) texts: Texts,
    pub(crate) read: Result<ReadTree<L>, TreeFault>,
}

/// What the files of a tree are read with: what is left of their number and of their bytes, and the block that each is read into.
#[derive(Drop)]
struct Budget {
    files: u32,
    bytes: usize,
    block: [u8; MAX_BLOCK_BYTES],
}

impl Budget {
    /// The budget of a whole tree.
    fn whole() -> Budget {
        Budget {
            files: MAX_FILES as u32,
            bytes: MAX_FILE_BYTES,
            block: [0; MAX_BLOCK_BYTES],
        }
    }

    /// Takes one file of this number of bytes from it.
    fn take(&mut self, bytes: usize) {
        self.files = self.files.saturating_sub(1);
        self.bytes = self.bytes.saturating_sub(bytes);
    }

    /// Whether nothing is left.
    fn is_used(&self) -> bool {
        self.files == 0 || self.bytes == 0
    }
}

/// The files of a tree as they are gathered from below its root, to be read from the file at the path `first` on.
#[derive(Drop)]
struct Gathering<'a> {
    alloc: Global,
    root: &'a str,
    first: &'a str,
    texts: Texts,
    budget: Budget,
}

/// The files of a tree, and the result of reading them. The first file is opened, and files that `source` lines seem to name; if
/// the reading lacks a file, further ones are added until it lacks none that can be opened and read.
pub(crate) fn gather<L: KeptLines, F: Files>(
    alloc: Global,
    root: &str,
    first: &str,
    language: Language,
    files: &mut F,
) -> Result<GatheredFiles<L>, AllocError>
    ensures same { F.surroundings files.new ≡ F.surroundings files.old }
    ensures below { IfOk result (λ g. AreTextsBelow (F.surroundings files.old).content root.now language g.texts) }
    ensures read { IfOk result (λ g. IsReadWith L L.are_of g.texts first.now g.read) }
    ensures missing { IfOk result (λ g. IfErr g.read (λ fault. fault.kind ≡ MissingFile → LacksOnlyMissing (F.surroundings files.old).content root.now first.now g.texts (F.failures files.old) (F.failures files.new))) }
    ensures rising { F.failures files.old ≤ F.failures files.new }
{
    let mut gathering = Gathering {
        alloc,
        root,
        first,
        texts: Texts::with_language(alloc, files.seed(), language),
        budget: Budget::whole(),
    };
    gathering.open_first(files)?;
    let read = L::read(alloc, &gathering.texts, first);
    if lacks_file(&read) {
        drop(read);
        return gather_wanted::<L, F>(gathering, files);
    }
    let Gathering { texts, .. } = gathering;
    Ok(GatheredFiles { texts, read })
}

/// Adds the files that a tree wants beside those that are gathered, until a reading misses none, and returns the result of
/// that reading.
fn gather_wanted<L: KeptLines, F: Files>(
    mut gathering: Gathering<'_>,
    files: &mut F,
) -> Result<GatheredFiles<L>, AllocError>
    requires below { AreBelow (F.surroundings files.old) gathering }
    ensures same { F.surroundings files.new ≡ F.surroundings files.old }
    ensures below { IfOk result (λ g. AreTextsBelow (F.surroundings files.old).content gathering.entry.root.now gathering.entry.texts.language g.texts) }
    ensures read { IfOk result (λ g. IsReadWith L L.are_of g.texts gathering.entry.first.now g.read) }
    ensures missing { IfOk result (λ g. LacksOnlyMissing (F.surroundings files.old).content gathering.entry.root.now gathering.entry.first.now g.texts (F.failures files.old) (F.failures files.new)) }
    ensures rising { F.failures files.old ≤ F.failures files.new }
{
    gathering.open_wanted(files)?;
    let Gathering {
        alloc,
        first,
        texts,
        ..
    } = gathering;
    let read = L::read(alloc, &texts, first);
    Ok(GatheredFiles { texts, read })
}

/// Whether a reading missed a file.
fn lacks_file<T>(read: &Result<T, TreeFault>) -> bool
    ensures { result ≡ false → IfErr read.now (λ fault. fault.kind ≢ MissingFile) }
{
    match read {
        Ok(_) => false,
        Err(fault) => fault.kind == TreeKind::MissingFile,
    }
}

impl Gathering<'_> {
    /// Inserts the first file of the tree, and the files that the lines of its files seem to source.
    fn open_first<F: Files>(&mut self, files: &mut F) -> Result<(), AllocError>
        requires below { AreBelow (F.surroundings files.old) self.old }
        ensures gathered { Gathers (F.surroundings files.old) (F.surroundings files.new) (F.failures files.old) (F.failures files.new) self.old self.new }
    {
        let first = self.first;
        self.insert_one(first, files)?;
        self.open_ahead(files)
    }

    /// Inserts the files that the lines of the texts seem to source, within the budget. A file that no reading
    /// sources has no influence on the tree.
    fn open_ahead<F: Files>(&mut self, files: &mut F) -> Result<(), AllocError>
        requires below { AreBelow (F.surroundings files.old) self.old }
        ensures gathered { Gathers (F.surroundings files.old) (F.surroundings files.new) (F.failures files.old) (F.failures files.new) self.old self.new }
    {
        for number in 0..MAX_FILES as u32 {
            if self.budget.is_used() {
                return Ok(());
            }
            let Some(paths) = absent_paths_of_file(self.alloc, &self.texts, number)? else {
                return Ok(());
            };
            self.insert_all(&paths, files)?;
        }
        Ok(())
    }

    /// Inserts the files that a reading wants, until it wants none that can be opened and read.
    fn open_wanted<F: Files>(&mut self, files: &mut F) -> Result<(), AllocError>
        requires below { AreBelow (F.surroundings files.old) self.old }
        ensures gathered { Gathers (F.surroundings files.old) (F.surroundings files.new) (F.failures files.old) (F.failures files.new) self.old self.new }
        ensures missing { OnOk result (LacksOnlyMissing (F.surroundings files.old).content self.old.root.now self.old.first.now self.new.texts (F.failures files.old) (F.failures files.new)) }
    {
        'rounds: while self.open_round(files)? {}
        Ok(())
    }

    /// Inserts the files that a reading wants and that can be opened and read, within the budget, and returns whether any was
    /// inserted.
    fn open_round<F: Files>(&mut self, files: &mut F) -> Result<bool, AllocError>
        requires below { AreBelow (F.surroundings files.old) self.old }
        ensures gathered { Gathers (F.surroundings files.old) (F.surroundings files.new) (F.failures files.old) (F.failures files.new) self.old self.new }
        ensures more { IfOk result (λ more. more ≡ true → (length self.old.texts.list < length self.new.texts.list) × (length self.new.texts.list < 2 ^ 64)) }
        ensures missing { IfOk result (λ more. more ≡ false → LacksOnlyMissing (F.surroundings files.old).content self.old.root.now self.old.first.now self.new.texts (F.failures files.old) (F.failures files.new)) }
    {
        let count = self.texts.len();
        match wanted(self.alloc, &self.texts, self.first) {
            Ok(paths) => {
                self.budget = Budget::whole();
                self.insert_all(&paths, files)?;
                Ok(self.texts.len() > count)
            }
            Err(fault) if fault.kind == TreeKind::OutOfMemory => Err(AllocError),
            Err(_) => Ok(false),
        }
    }

    /// Inserts the files of these paths that the texts lack and that can be opened and read, until the budget is used.
    fn insert_all<F: Files>(&mut self, paths: &[String], files: &mut F) -> Result<(), AllocError>
        requires below { AreBelow (F.surroundings files.old) self.old }
        ensures gathered { Gathers (F.surroundings files.old) (F.surroundings files.new) (F.failures files.old) (F.failures files.new) self.old self.new }
        ensures inserted { OnOk result (AreInserted (F.surroundings files.old).content self.old.root.now (map string_bytes paths.now) self.old.texts self.new.texts (F.failures files.old) (F.failures files.new)) }
    {
        'paths: for path in paths {
            let inserted = self.insert_one(path.as_str(), files)?;
            if inserted && self.budget.is_used() {
                return Ok(());
            }
        }
        Ok(())
    }

    /// Inserts the file of a path, unless the texts have it or it can't be opened or read, and returns whether it did.
    fn insert_one<F: Files>(&mut self, path: &str, files: &mut F) -> Result<bool, AllocError>
        requires below { AreBelow (F.surroundings files.old) self.old }
        ensures gathered { Gathers (F.surroundings files.old) (F.surroundings files.new) (F.failures files.old) (F.failures files.new) self.old self.new }
        ensures inserted { IfOk result (λ inserted. inserted ≡ true → length self.old.texts.list < length self.new.texts.list) }
        ensures same_texts { IfOk result (λ inserted. inserted ≡ false → self.new.texts ≡ self.old.texts) }
        ensures missing { IfOk result (λ inserted. inserted ≡ false → file_at self.old.texts path.now ≡ None → MayBeMissing ((F.surroundings files.old).content (path_below self.old.root.now path.now)) (F.failures files.old) (F.failures files.new)) }
    {
        if self.texts.get(path).is_some() {
            return Ok(false);
        }
        let block = &mut self.budget.block;
        let Some(bytes) = read_below(self.alloc, self.root, path, files, block)? else {
            self.budget.take(0);
            return Ok(false);
        };
        self.budget.take(bytes.len());
        self.texts.insert_whole(path, bytes)?;
        Ok(true)
    }
}

/// The bytes of the file of a path below the root, read by way of `block`; `None` if it can't be opened or read.
fn read_below<F: Files>(
    alloc: Global,
    root: &str,
    path: &str,
    files: &mut F,
    block: &mut [u8; MAX_BLOCK_BYTES],
) -> Result<Option<Vec<u8>>, AllocError>
    ensures same { F.surroundings files.new ≡ F.surroundings files.old }
    ensures bytes { IfOk result (λ found. IfSome found (λ bytes. MatchContentStart ((F.surroundings files.old).content (path_below root.now path.now)) bytes.items)) }
    ensures missing { IfOk result (λ found. IfNone found (MayBeMissing ((F.surroundings files.old).content (path_below root.now path.now)) (F.failures files.old) (F.failures files.new))) }
    ensures rising { F.failures files.old ≤ F.failures files.new }
{
    let place = path_below(alloc, root, path)?;
    match files.reader_if_there(&place) {
        Some(mut reader) => {
            let capacity = files.size_of(&reader).min(MAX_FILE_BYTES);
            let found = read_front(alloc, &mut reader, capacity, block);
            files.close(reader);
            found
        }
        None => Ok(None),
    }
}
