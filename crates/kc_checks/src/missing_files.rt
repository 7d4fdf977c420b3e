//! The missing files of a tree.
ghost use Rattle.std.specs.Prelude.{◌≡◌, ◌≢◌, ◌⊎◌, ◌∷◌, ◌++◌, [], false, true, List, Ok, Err, Some, IfOk, IfErr, OnOk, filter, filter_map, map, option_map, string_bytes};
ghost use Rattle.kc_tree_model.specs.declared.fault.TreeKind.TheVariants.{OutOfMemory};
ghost use Rattle.kc_tree_model.specs.Blocks.{Group, sourced_path};
ghost use Rattle.kc_tree_model.specs.Limits.{without_repeats};
ghost use Rattle.kc_tree_model.specs.TreeReading.{lenient_reading, paths_or_fault, files_wanted};
ghost use Rattle.kc_tree_model.specs.TreesOfFiles.{AreWanted};
ghost use Rattle.kc_parser.specs.between.ListingView.{RepresentsListing};
ghost use Rattle.kc_parser.specs.between.MemoryFaults.{no_memory};
ghost use Rattle.kc_checks.specs.checker.MissingPaths.{paths_in, is_absent, with_absent, path_in};

use super::paths::Paths;
use kc_parser::{GroupHead, Listing, read_files_leniently};
use kc_tree_model::{Texts, TreeFault, TreeKind};
use kc_value::Text;
use std::alloc::{AllocError, Global};

/// Whether reading ended for lack of memory.
pub fn is_out_of_memory(fault: Option<TreeFault>) -> bool
    ensures other { result ≡ false → fault ≢ Some no_memory }
    ensures memory { result ≡ true → option_map (λ f. f.kind) fault ≡ Some OutOfMemory }
{
    match fault {
        Some(fault) => fault.kind == TreeKind::OutOfMemory,
        None => false,
    }
}

/// The path that a group sources.
fn path_of<'a>(texts: &'a [Text], head: &GroupHead) -> Option<&'a str>
    ensures { option_map (λ p. p.now) result ≡ path_in texts.now head.now }
{
    match head {
        GroupHead::Source(place) => match texts.get(*place) {
            Some(text) => Some(text.as_str()),
            None => None,
        },
        _ => None,
    }
}

/// Appends a path if it is absent.
fn push_absent(paths: &mut Paths, texts: &Texts, path: &str) -> Result<(), AllocError>
    ensures { OnOk result (paths_in paths.new ≡ with_absent texts.now (paths_in paths.old) (Some path.now)) }
{
    match texts.get(path) {
        Some(_) => Ok(()),
        None => paths.insert(path),
    }
}

/// Appends the path that a group sources, if it is absent.
fn push_source(
    paths: &mut Paths,
    texts: &Texts,
    wanted_or_fault: &[Text],
    head: &GroupHead,
) -> Result<(), AllocError>
    ensures { OnOk result (paths_in paths.new ≡ with_absent texts.now (paths_in paths.old) (path_in wanted_or_fault.now head.now)) }
{
    match path_of(wanted_or_fault, head) {
        Some(path) => push_absent(paths, texts, path),
        None => Ok(()),
    }
}

/// The absent paths of what was read, the first path's too.
fn absent_paths(
    alloc: Global,
    texts: &Texts,
    root: &str,
    listing: &Listing,
) -> Result<Paths, AllocError>
    ensures { (read : List Group) → RepresentsListing listing.now read
        → IfOk result (λ p. paths_in p ≡ filter (is_absent texts.now) (without_repeats (filter_map sourced_path read ++ root.now ∷ []))) }
{
    let mut paths = Paths::new(alloc, texts.seed());
    push_absent(&mut paths, texts, root)?;
    for group in &listing.groups {
        push_source(&mut paths, texts, &listing.texts, &group.head)?;
    }
    Ok(paths)
}

/// The absent paths, or if there are none, the fault of reading.
fn wanted_or_fault(paths: &Paths, fault: Option<TreeFault>) -> Result<Vec<String>, TreeFault>
    ensures paths { IfOk result (λ list. paths_or_fault (paths_in paths.now) fault ≡ Ok (map string_bytes list.items)) }
    ensures fault { IfErr result (λ f. (f ≡ no_memory) ⊎ (paths_or_fault (paths_in paths.now) fault ≡ Err f)) }
{
    if paths.is_empty()
        && let Some(fault) = fault
    {
        return Err(fault);
    }
    match paths.to_list() {
        Ok(list) => Ok(list),
        Err(_) => Err(TreeFault::out_of_memory()),
    }
}

/// The result of `wanted`, from the statements and the fault of a reading.
fn missing_paths(
    alloc: Global,
    texts: &Texts,
    root: &str,
    listing: &Listing,
    fault: Option<TreeFault>,
) -> Result<Vec<String>, TreeFault>
    requires fault { (fault ≡ Some no_memory) ⊎ (fault ≡ (lenient_reading texts.now root.now).fault) }
    requires read { (fault ≡ Some no_memory) ⊎ RepresentsListing listing.now (lenient_reading texts.now root.now).read }
    ensures paths { IfOk result (λ list. files_wanted texts.now root.now ≡ Ok (map string_bytes list.items)) }
    ensures fault { IfErr result (λ f. (f ≡ no_memory) ⊎ (files_wanted texts.now root.now ≡ Err f)) }
{
    if is_out_of_memory(fault) {
        return Err(TreeFault::out_of_memory());
    }
    match absent_paths(alloc, texts, root, listing) {
        Ok(paths) => wanted_or_fault(&paths, fault),
        Err(_) => Err(TreeFault::out_of_memory()),
    }
}

/// The paths that a tree lacks: those among `root` and the paths of the `source` lines read for which `texts` has no file. Such a
/// path is read as an empty file. Each path occurs once, in reading order.
///
/// If the list is empty, the files can be read by `read_tree` of kc_builder. After files of the returned paths were added
/// to `texts`, further paths may be wanted.
///
/// # Errors
///
/// If no path is absent, the first fault of reading, with its file and line (kconfig-language.rst, "Kconfig syntax"); if memory
/// runs out, `OutOfMemory` with no file.
pub fn wanted(alloc: Global, texts: &Texts, root: &str) -> Result<Vec<String>, TreeFault>
    ensures paths { IfOk result (λ paths. AreWanted texts.now root.now (Ok (map string_bytes paths.items))) }
    ensures fault { IfErr result (λ f. (f ≡ no_memory) ⊎ AreWanted texts.now root.now (Err f)) }
{
    let read = read_files_leniently(alloc, texts, root);
    missing_paths(alloc, texts, root, &read.0, read.1)
}
