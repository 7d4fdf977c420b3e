//! Collects the lists of the tree of a listing.
ghost use Rattle.std.specs.Prelude.{◌≡◌, ℕ, List, None, IfErr, IfOk, slice_get};
ghost use Rattle.kc_tree_model.specs.TreeFiles.{Files};
ghost use Rattle.kc_tree_model.specs.Contents.{contents_of};
ghost use Rattle.kc_tree_model.specs.TreeFaults.{tree_faults};
ghost use Rattle.kc_tree_model.specs.Limits.{names_defined};
ghost use Rattle.kc_tree_model.specs.TreeReading.{reading};
ghost use Rattle.kc_builder.specs.checker.GroupParts.{AreParts};
ghost use Rattle.kc_builder.specs.checker.Rows.{AreRowsOf};
ghost use Rattle.kc_builder.specs.checker.Assembly.{AreFew, IsFaultRead, IsGatheredRead, IsReadIn, IsWalk, lines_from, lists_from};
ghost use Rattle.kc_checks.specs.between.Summaries.{IsSummed};
ghost use Rattle.kc_value.specs.declared.tri.Tri.TheVariants.{N};
ghost use Rattle.kc_expr.specs.Expr.{alone, constant};
ghost use Rattle.kc_expr.specs.between.Arena.{Represents};

use super::group_parts::{GroupParts, checked_parts};
use super::rows::symbol_rows;
use super::tree_lines::TreeLines;
use kc_checks::Summary;
use kc_conditions::{WalkedListing, walk_all};
use kc_parser::Listing;
use kc_tokens::Language;
use kc_tree::{SymbolRow, TreeLists};
use kc_tree_model::TreeFault;
use std::alloc::Global;

/// The collected lists and the lines of a tree, from a walked listing, its summary, what its groups give and the rows of its symbols.
fn gathered(
    walked: WalkedListing,
    summary: Summary,
    groups: GroupParts,
    symbols: Vec<SymbolRow>,
) -> (TreeLists, TreeLines)
    ensures lists { result.0 ≡ lists_from walked.language walked.listing symbols groups summary }
    ensures lines { result.1 ≡ lines_from walked.listing walked.no }
{
    let listing = walked.listing;
    let names = listing.names;
    let lists = TreeLists {
        arena: names.arena,
        symbols,
        attributes: groups.attributes,
        choices: groups.rows,
        members: summary.own_members,
        member_defaults: groups.defaults,
        entries: groups.entries,
        titles: listing.texts,
        units: summary.units,
        language: walked.language,
    };
    let lines = TreeLines {
        groups: listing.groups,
        lines: listing.lines,
        no: walked.no,
    };
    (lists, lines)
}

/// Makes the checks on the whole tree over a walked listing, which has this summary, and collects what its groups give and the rows
/// of its symbols.
///
/// # Errors
///
/// The first fault of these checks, in reading order; if memory runs out, `OutOfMemory` with no file.
fn tree_parts(
    alloc: Global,
    walked: &WalkedListing,
    summary: &Summary,
) -> Result<(GroupParts, Vec<SymbolRow>), TreeFault>
    requires few { AreFew walked.now }
    requires walk { (files : Files) × (root : List ℕ) × IsWalk walked.now files root }
    requires summary { IsSummed walked.now.listing summary.now }
    ensures faultless { (files : Files) (root : List ℕ) → IsWalk walked.now files root → IfOk result (λ _. None ≡ slice_get (tree_faults files.language (reading files root).read) 0) }
    ensures groups { (files : Files) (root : List ℕ) → IsWalk walked.now files root → IfOk result (λ p. AreParts files.language walked.now.listing (reading files root).read p.0) }
    ensures symbols { (files : Files) (root : List ℕ) → IsWalk walked.now files root → IfOk result (λ p. AreRowsOf walked.now.listing.names.arena (contents_of (reading files root).read) (names_defined (reading files root).read) p.1.items) }
    ensures fault { (files : Files) (root : List ℕ) → IsWalk walked.now files root → IfErr result (IsFaultRead files root) }
{
    let groups = checked_parts(alloc, walked, summary)?;
    match symbol_rows(alloc, &walked.listing, summary.symbols.as_slice()) {
        Ok(symbols) => Ok((groups, symbols)),
        Err(_) => Err(TreeFault::out_of_memory()),
    }
}

/// Makes the checks on the whole tree over a walked listing, which has this summary, and collects the lists of its tree and its
/// lines.
///
/// # Errors
///
/// The first fault of these checks, in reading order; if memory runs out, `OutOfMemory` with no file.
fn gathered_of(
    alloc: Global,
    walked: WalkedListing,
    summary: Summary,
) -> Result<(TreeLists, TreeLines), TreeFault>
    requires few { AreFew walked }
    requires walk { (files : Files) × (root : List ℕ) × IsWalk walked files root }
    requires summary { IsSummed walked.listing summary }
    requires no { Represents walked.listing.names.arena walked.no (alone (constant N)) }
    ensures ok { (files : Files) (root : List ℕ) → IsWalk walked files root → IfOk result (λ r. IsGatheredRead files root r.0 r.1) }
    ensures fault { (files : Files) (root : List ℕ) → IsWalk walked files root → IfErr result (IsFaultRead files root) }
{
    match tree_parts(alloc, &walked, &summary) {
        Ok((groups, symbols)) => Ok(gathered(walked, summary, groups, symbols)),
        Err(fault) => {
            drop(walked);
            drop(summary);
            Err(fault)
        }
    }
}

/// The collected lists and the lines of a listing of files in `language`.
///
/// # Errors
///
/// The first fault of the checks on the whole tree, in reading order; if memory runs out, `OutOfMemory` with no file.
pub(crate) fn lists_of(
    alloc: Global,
    language: Language,
    listing: Listing,
) -> Result<(TreeLists, TreeLines), TreeFault>
    requires read { (files : Files) × (root : List ℕ) × IsReadIn language listing files root }
    ensures ok { (files : Files) (root : List ℕ) → IsReadIn language listing files root → IfOk result (λ r. IsGatheredRead files root r.0 r.1) }
    ensures fault { (files : Files) (root : List ℕ) → IsReadIn language listing files root → IfErr result (IsFaultRead files root) }
{
    let Ok(summary) = Summary::new(alloc, &listing) else {
        return Err(TreeFault::out_of_memory());
    };
    let Ok(walked) = walk_all(alloc, language, listing) else {
        return Err(TreeFault::out_of_memory());
    };
    gathered_of(alloc, walked, summary)
}
