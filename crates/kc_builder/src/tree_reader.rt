//! Reads the tree of Kconfig files.
ghost use Rattle.std.specs.Prelude.{◌≡◌, ◌⊎◌, IfOk, IfErr};
ghost use Rattle.kc_tree_model.specs.TreesOfFiles.{IsTreeOfFiles, IsReportedFault};
ghost use Rattle.kc_parser.specs.between.MemoryFaults.{no_memory};
ghost use Rattle.kc_builder.specs.between.TreeLines.{IsTreeWithLines};
ghost use Rattle.kc_builder.specs.checker.Assembly.{IsGathered};

use super::builder::lists_of;
use super::tree_lines::{TreeLines, TreeWithLines};
use kc_parser::read_files;
use kc_tree::{Tree, TreeLists};
use kc_tree_model::{Texts, TreeFault};
use std::alloc::Global;

/// Reads the files of a tree, makes the checks on the whole tree, and collects its lists; the faults are those of `read_tree`.
fn read_lists(alloc: Global, texts: &Texts, root: &str) -> Result<(TreeLists, TreeLines), TreeFault>
    ensures ok { IfOk result (λ r. IsGathered texts.now root.now r.0 r.1) }
    ensures fault { IfErr result (λ fault. (fault ≡ no_memory) ⊎ IsReportedFault texts.now root.now fault) }
{
    let (listing, fault) = read_files(alloc, texts, root);
    match fault {
        Some(fault) => return Err(fault),
        None => {}
    }
    lists_of(alloc, texts.language(), listing)
}

/// Reads the tree of Kconfig files, beginning with the file of path `root`.
///
/// `root` and the paths of `source` lines are looked up among `texts` byte for byte. The files are read in the order of the lines
/// ("Menu entries" and "Menu structure" of kconfig-language.rst); each `source` represents the lines of its file.
///
/// # Errors
///
/// The first fault, with its file and line: in reading order the first fault of a line, of a `source` or of a file's end, or if
/// there is none the first fault of the checks on the whole tree, for example a symbol without a type. If memory runs out,
/// `OutOfMemory` with no file.
pub fn read_tree(alloc: Global, texts: &Texts, root: &str) -> Result<Tree, TreeFault>
    ensures tree { IfOk result (λ tree. IsTreeOfFiles texts.now root.now tree.tree) }
    ensures fault { IfErr result (λ fault. (fault ≡ no_memory) ⊎ IsReportedFault texts.now root.now fault) }
{
    let (lists, lines) = read_lists(alloc, texts, root)?;
    drop(lines);
    match lists.into_tree(alloc) {
        Ok(tree) => Ok(tree),
        Err(_) => Err(TreeFault::out_of_memory()),
    }
}

/// Reads the tree of Kconfig files as `read_tree` does, and keeps the lines of its attributes.
///
/// # Errors
///
/// As those of `read_tree`.
pub fn read_tree_with_lines(
    alloc: Global,
    texts: &Texts,
    root: &str,
) -> Result<TreeWithLines, TreeFault>
    ensures lines { IfOk result (λ r. IsTreeWithLines texts.now root.now r.tree r.lines) }
    ensures fault { IfErr result (λ fault. (fault ≡ no_memory) ⊎ IsReportedFault texts.now root.now fault) }
{
    let (lists, lines) = read_lists(alloc, texts, root)?;
    match lists.into_tree(alloc) {
        Ok(tree) => Ok(TreeWithLines { tree, lines }),
        Err(_) => Err(TreeFault::out_of_memory()),
    }
}
