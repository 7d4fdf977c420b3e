//! Reading and settling a tree, with a report if it is refused.
ghost use Rattle.std.specs.Prelude.{◌≡◌, ◌≢◌, [], ℕ, List, IfOk, IfErr, OnOk, unwrap_or, slice_get};
ghost use Rattle.kc_tree_model.specs.TreeFiles.{path_at};
ghost use Rattle.kc_tree_model.specs.TreesOfFiles.{IsTreeOfFiles, IsReportedFault};
ghost use Rattle.kc_tree_model.specs.declared.fault.TreeKind.TheVariants.{OutOfMemory};
ghost use Rattle.kc_rules.specs.between.SettledViews.{tree_model_of, tree_of_settled, profile_of};
ghost use Rattle.kmin_trees.specs.AcceptedTrees.{AreAccepted};
ghost use Rattle.kmin_report.specs.Reports.{ErrorLine, tree_fault_line, tree_cycle_line, cycle_place, unit_place};
ghost use Rattle.kmin_report.specs.StandardError.{TakesLine, TakesLines};
ghost use Rattle.kmin_trees.specs.between.FileNames.{names_of, texts_of};
ghost use Rattle.kmin_trees.specs.between.Readings.{IsRead, IsReadWith};
ghost use Rattle.kmin_report.specs.between.RunErrors.{status_of};
ghost use Rattle.kmin_trees.specs.between.TreeStops.{StopsAtTexts, settle_status, settle_lines};

use crate::file_names::FileNames;
use crate::read_trees::{KeptLines, ReadTree};
use kc_builder::read_tree;
use kc_rules::{Profile, SettleFault, Settled, settle};
use kc_tree::{Texts, Tree, TreeFault, TreeKind, Unit};
use kmin_report::{Message, Messages, RunError};
use std::alloc::Global;

/// The result of reading texts as a tree, from the file at the path `first` on.
pub fn read_texts(alloc: Global, texts: &Texts, first: &str) -> Result<Tree, TreeFault>
    ensures { IsRead texts.now first.now result }
{
    read_tree(alloc, texts, first)
}

/// The settled tree of texts, given the result of reading them. Reports why they are refused, with these names of
/// files.
pub fn settled_tree<E: Messages>(
    alloc: Global,
    names: &FileNames<'_>,
    first: &str,
    read: Result<Tree, TreeFault>,
    profile: Profile,
    err: &mut E,
) -> Result<Settled, RunError>
    requires read { IsRead (texts_of names.now) first.now read }
    ensures accepted { IfOk result (λ settled. AreAccepted (texts_of names.now) first.now (tree_of_settled settled)) }
    ensures profile { IfOk result (λ settled. profile_of settled ≡ profile) }
    ensures unreported { OnOk result (TakesLines (E.taken err.old) (E.failures err.old) [] (E.taken err.new) (E.failures err.new)) }
    ensures stopped { IfErr result (λ stop. (lines : List ErrorLine) × StopsAtTexts (texts_of names.now) (names_of names.now) first.now (status_of stop) lines × TakesLines (E.taken err.old) (E.failures err.old) lines (E.taken err.new) (E.failures err.new)) }
    ensures remembered { IfErr result (λ stop. status_of stop ≡ 3 → IfErr read (λ fault. fault.kind ≢ OutOfMemory)) }
{
    match read {
        Ok(tree) => settled_of(alloc, names, first, tree, profile, err),
        Err(fault) => Err(refuse_texts(names, first, fault, err)),
    }
}

/// The settled tree of texts that were read, with what is kept of their lines. Reports why they are refused, with these names of
/// files.
pub(crate) fn settled_read<L: KeptLines, E: Messages>(
    alloc: Global,
    names: &FileNames<'_>,
    first: &str,
    read: Result<ReadTree<L>, TreeFault>,
    profile: Profile,
    err: &mut E,
) -> Result<(Settled, L), RunError>
    requires read { IsReadWith L L.are_of (texts_of names.now) first.now read }
    ensures accepted { IfOk result (λ both. AreAccepted (texts_of names.now) first.now (tree_of_settled both.0)) }
    ensures lines { IfOk result (λ both. L.are_of (texts_of names.now) first.now (tree_model_of both.0) both.1) }
    ensures profile { IfOk result (λ both. profile_of both.0 ≡ profile) }
    ensures unreported { OnOk result (TakesLines (E.taken err.old) (E.failures err.old) [] (E.taken err.new) (E.failures err.new)) }
    ensures stopped { IfErr result (λ stop. (lines : List ErrorLine) × StopsAtTexts (texts_of names.now) (names_of names.now) first.now (status_of stop) lines × TakesLines (E.taken err.old) (E.failures err.old) lines (E.taken err.new) (E.failures err.new)) }
    ensures remembered { IfErr result (λ stop. status_of stop ≡ 3 → IfErr read (λ fault. fault.kind ≢ OutOfMemory)) }
{
    match read {
        Ok(ReadTree { tree, lines }) => {
            match settled_of(alloc, names, first, tree, profile, err) {
                Ok(settled) => Ok((settled, lines)),
                Err(stop) => Err(stop),
            }
        }
        Err(fault) => Err(refuse_texts(names, first, fault, err)),
    }
}

/// Settles the tree of texts. Reports its cycle, if it has one, with these names of files.
fn settled_of<E: Messages>(
    alloc: Global,
    names: &FileNames<'_>,
    first: &str,
    tree: Tree,
    profile: Profile,
    err: &mut E,
) -> Result<Settled, RunError>
    requires read { IsTreeOfFiles (texts_of names.now) first.now tree.tree }
    ensures accepted { IfOk result (λ settled. AreAccepted (texts_of names.now) first.now (tree_of_settled settled)) }
    ensures tree { IfOk result (λ settled. tree_model_of settled ≡ tree) }
    ensures profile { IfOk result (λ settled. profile_of settled ≡ profile) }
    ensures unreported { OnOk result (TakesLines (E.taken err.old) (E.failures err.old) [] (E.taken err.new) (E.failures err.new)) }
    ensures stopped { IfErr result (λ stop. (lines : List ErrorLine) × StopsAtTexts (texts_of names.now) (names_of names.now) first.now (status_of stop) lines × TakesLines (E.taken err.old) (E.failures err.old) lines (E.taken err.new) (E.failures err.new)) }
{
    match settle(alloc, tree, profile) {
        Ok(settled) => Ok(settled),
        Err((tree, fault)) => {
            let stop = report_settle_fault(names, first, &tree, &fault, err);
            drop(tree);
            Err(stop)
        }
    }
}

/// Reports the fault of texts, with these names of files, and returns the error that ends the run. Out of memory is reported later.
fn refuse_texts<'a, E: Messages>(
    names: &FileNames<'a>,
    first: &'a str,
    fault: TreeFault,
    err: &mut E,
) -> RunError
    requires reported { fault.kind ≢ OutOfMemory → IsReportedFault (texts_of names.now) first.now fault }
    ensures stopped { (lines : List ErrorLine) × StopsAtTexts (texts_of names.now) (names_of names.now) first.now (status_of result) lines × TakesLines (E.taken err.old) (E.failures err.old) lines (E.taken err.new) (E.failures err.new) }
    ensures remembered { status_of result ≡ 3 → fault.kind ≢ OutOfMemory }
{
    if fault.kind == TreeKind::OutOfMemory {
        return RunError::Memory;
    }
    report_tree_fault(names, first, fault, err);
    RunError::Tree
}

/// Reports a fault of a tree.
fn report_tree_fault<'a, E: Messages>(
    names: &FileNames<'a>,
    first: &'a str,
    fault: TreeFault,
    err: &mut E,
)
    ensures { TakesLine (E.taken err.old) (E.failures err.old) (tree_fault_line (texts_of names.now) (names_of names.now) first.now fault) (E.taken err.new) (E.failures err.new) }
{
    let path = match fault.file {
        Some(number) => path_of_file(names, first, number),
        None => first.as_bytes(),
    };
    let TreeFault { file, line, kind } = fault;
    err.write_report(Message::TreeFault {
        path,
        line,
        kind,
        file,
        texts: names.texts,
        first,
        expanded: names.expanded,
    });
}

/// The name of the file of this number; that of the first file if there is none.
fn path_of_file<'a>(names: &FileNames<'a>, first: &'a str, number: u32) -> &'a [u8]
    ensures { result.now ≡ unwrap_or (path_at (names_of names.now) number) first.now }
{
    names.name_at(number).unwrap_or(first.as_bytes())
}

/// Reports why a tree can't be settled, and returns the error that ends the run. Out of memory is reported later.
fn report_settle_fault<E: Messages>(
    names: &FileNames<'_>,
    first: &str,
    tree: &Tree,
    fault: &SettleFault,
    err: &mut E,
) -> RunError
    ensures status { status_of result ≡ settle_status fault.now }
    ensures reported { TakesLines (E.taken err.old) (E.failures err.old) (settle_lines (names_of names.now) first.now tree.now.tree fault.now) (E.taken err.new) (E.failures err.new) }
{
    match fault {
        SettleFault::OutOfMemory => RunError::Memory,
        SettleFault::Cycle(units) => {
            report_cycle(names, first, tree, units, err);
            RunError::Tree
        }
    }
}

/// Reports a cycle, at the place of its first unit.
fn report_cycle<'a, E: Messages>(
    names: &FileNames<'a>,
    first: &'a str,
    tree: &'a Tree,
    units: &'a [u32],
    err: &mut E,
)
    ensures { TakesLine (E.taken err.old) (E.failures err.old) (tree_cycle_line (names_of names.now) first.now tree.now.tree units.now) (E.taken err.new) (E.failures err.new) }
{
    let (file, line) = place_of_cycle(tree, units);
    let path = path_of_file(names, first, file);
    err.write_report(Message::Cycle {
        path,
        line,
        tree,
        units,
    });
}

/// The file and the line of a cycle: those of its first unit.
fn place_of_cycle(tree: &Tree, units: &[u32]) -> (u32, u32)
    ensures { result ≡ cycle_place tree.now.tree units.now }
{
    match units.first() {
        Some(unit) => place_of_unit(tree, *unit),
        None => (0, 0),
    }
}

/// The file and the line at which a unit begins.
fn place_of_unit(tree: &Tree, unit: u32) -> (u32, u32)
    ensures { result ≡ unit_place tree.now.tree (slice_get tree.now.tree.units unit) }
{
    if unit >= tree.len() {
        return (0, 0);
    }
    match tree.unit(unit) {
        Unit::Symbol(s) => {
            let symbol = tree.symbol(s);
            (symbol.file, symbol.line)
        }
        Unit::Choice(c) => {
            let choice = tree.choice(c);
            (choice.file, choice.line)
        }
    }
}
