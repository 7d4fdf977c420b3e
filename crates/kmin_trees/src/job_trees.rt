//! The tree of a job, read with or without the expansion of macros.
ghost use Rattle.std.specs.Prelude.{◌≡◌, ◌≢◌, ◌≤◌, [], ℕ, List, IfOk, IfErr, OnOk};
ghost use Rattle.kc_tree_model.specs.declared.fault.TreeKind.TheVariants.{OutOfMemory};
ghost use Rattle.kc_rules.specs.between.SettledViews.{tree_of_settled, profile_of};
ghost use Rattle.kmin_options.specs.Jobs.{expansion_view, settings_view};
ghost use Rattle.kmin_trees.specs.AcceptedTrees.{AreAccepted};
ghost use Rattle.kmin_expansions.specs.JobTexts.{TreeTexts, AreExpandedTexts, AreTextsOfJob};
ghost use Rattle.kmin_report.specs.StandardError.{TakesLines};
ghost use Rattle.kc_files.specs.TreeContents.{HasRisen};
ghost use Rattle.kmin_trees.specs.Stops.{StopsAtTree, StopsInExpansion};
ghost use Rattle.kmin_trees.specs.between.ExpandedStops.{StopsAtExpanded};
ghost use Rattle.kmin_trees.specs.between.FileNames.{texts_named};
ghost use Rattle.kmin_trees.specs.between.JobTrees.{IsJobTree};
ghost use Rattle.kmin_trees.specs.between.Readings.{IsReadWith};
ghost use Rattle.kmin_report.specs.between.RunErrors.{status_of};
ghost use Rattle.kmin_report.specs.FileNames.{named_texts};
ghost use Rattle.kmin_report.specs.Reports.{ErrorLine};
ghost use Rattle.kmin_trees.specs.between.TreeStops.{StopsAtTexts};

use crate::file_names::FileNames;
use crate::read_trees::{KeptLines, ReadTree};
use crate::tree_files::{GatheredFiles, gather};
use crate::trees::settled_read;
use kc_expansion::ExpandedTree;
use kc_rules::{Profile, Settled};
use kc_tree::{Texts, TreeFault};
use kmin_expansions::{ExpandedTexts, expanded_tree};
use kmin_inputs::{Files, job_answers};
use kmin_options::{ExpansionOptions, Settings};
use kmin_report::{Messages, RunError};
use std::alloc::Global;

/// The settled tree of a job, what is kept of the lines of its files, their texts, and the expanded files if macros were expanded.
#[derive(Drop)]
pub(crate) struct JobTree<L> {
    pub(crate) settled: Settled,
    pub(crate) lines: L,
    pub(crate) texts: Texts,
    pub(crate) expanded: Option<ExpandedTree>,
}

/// The settled tree of a job. Reports the notices of the expansion of its macros, and why it is refused: for a missing file that is
/// known to be there only if a call on a file failed, which was counted.
pub fn job_tree<F: Files, E: Messages>(
    alloc: Global,
    settings: &Settings<'_>,
    files: &mut F,
    err: &mut E,
) -> Result<Settled, RunError>
    ensures same { (F.surroundings files.new).content ≡ (F.surroundings files.old).content }
    ensures accepted { IfOk result (λ settled. (t : TreeTexts) × AreTextsOfJob (F.surroundings files.old) (settings_view settings.now) t × AreAccepted t.texts settings.now.tree.now (tree_of_settled settled) × TakesLines (E.taken err.old) (E.failures err.old) t.lines (E.taken err.new) (E.failures err.new)) }
    ensures profile { IfOk result (λ settled. profile_of settled ≡ settings.now.profile) }
    ensures stopped { IfErr result (λ stop. (lines : List ErrorLine) × StopsAtTree (F.surroundings files.old) (F.failures files.old) (F.failures files.new) (settings_view settings.now) (status_of stop) lines × TakesLines (E.taken err.old) (E.failures err.old) lines (E.taken err.new) (E.failures err.new)) }
    ensures rising { F.failures files.old ≤ F.failures files.new }
    ensures failed { IfErr result (λ stop. status_of stop ≡ 5 → HasRisen (F.failures files.old) (F.failures files.new)) }
{
    match kept_tree::<(), F, E>(alloc, settings, files, err) {
        Ok(JobTree { settled, .. }) => Ok(settled),
        Err(stop) => Err(stop),
    }
}

/// The settled tree of a job, with its texts and what is kept of their lines. Reports the notices of the expansion of its macros, and
/// why it is refused, as `job_tree` does.
pub(crate) fn kept_tree<L: KeptLines, F: Files, E: Messages>(
    alloc: Global,
    settings: &Settings<'_>,
    files: &mut F,
    err: &mut E,
) -> Result<JobTree<L>, RunError>
    ensures same { (F.surroundings files.new).content ≡ (F.surroundings files.old).content }
    ensures accepted { IfOk result (λ job. (t : TreeTexts) × AreTextsOfJob (F.surroundings files.old) (settings_view settings.now) t × IsJobTree L L.are_of t settings.now.tree.now job × TakesLines (E.taken err.old) (E.failures err.old) t.lines (E.taken err.new) (E.failures err.new)) }
    ensures profile { IfOk result (λ job. profile_of job.settled ≡ settings.now.profile) }
    ensures stopped { IfErr result (λ stop. (lines : List ErrorLine) × StopsAtTree (F.surroundings files.old) (F.failures files.old) (F.failures files.new) (settings_view settings.now) (status_of stop) lines × TakesLines (E.taken err.old) (E.failures err.old) lines (E.taken err.new) (E.failures err.new)) }
    ensures rising { F.failures files.old ≤ F.failures files.new }
    ensures failed { IfErr result (λ stop. status_of stop ≡ 5 → HasRisen (F.failures files.old) (F.failures files.new)) }
{
    match &settings.expansion {
        Some(expansion) => expanded(alloc, settings, expansion, files, err),
        None => {
            let root = settings.root;
            let first = settings.tree;
            let GatheredFiles { texts, read } = gather::<L, F>(
                alloc,
                root,
                first,
                settings.language,
                files,
            )?;
            settled_texts(alloc, first, settings.profile, texts, None, read, err)
        }
    }
}

/// The settled tree of a job whose macros are expanded. Reports the notices of the expansion, and why it is refused.
fn expanded<L: KeptLines, F: Files, E: Messages>(
    alloc: Global,
    settings: &Settings<'_>,
    expansion: &ExpansionOptions<'_>,
    files: &mut F,
    err: &mut E,
) -> Result<JobTree<L>, RunError>
    ensures same { (F.surroundings files.new).content ≡ (F.surroundings files.old).content }
    ensures accepted { IfOk result (λ job. (t : TreeTexts) × AreExpandedTexts (F.surroundings files.old) settings.now.root.now settings.now.tree.now settings.now.language (expansion_view expansion.now) t × IsJobTree L L.are_of t settings.now.tree.now job × TakesLines (E.taken err.old) (E.failures err.old) t.lines (E.taken err.new) (E.failures err.new)) }
    ensures profile { IfOk result (λ job. profile_of job.settled ≡ settings.now.profile) }
    ensures stopped { IfErr result (λ stop. (lines : List ErrorLine) × StopsAtExpanded (F.surroundings files.old) (F.failures files.old) (F.failures files.new) settings.now.root.now settings.now.tree.now settings.now.language (expansion_view expansion.now) (status_of stop) lines × TakesLines (E.taken err.old) (E.failures err.old) lines (E.taken err.new) (E.failures err.new)) }
    ensures rising { F.failures files.old ≤ F.failures files.new }
    ensures failed { IfErr result (λ stop. status_of stop ≡ 5 → HasRisen (F.failures files.old) (F.failures files.new)) }
{
    let found = expanded_files(alloc, settings, expansion, files, err)?;
    settled_expanded(alloc, settings.tree, settings.profile, found, err)
}

/// The expanded files of a job's tree. Reports the notices of the expansion, and its fault or that of an answer file.
fn expanded_files<F: Files, E: Messages>(
    alloc: Global,
    settings: &Settings<'_>,
    expansion: &ExpansionOptions<'_>,
    files: &mut F,
    err: &mut E,
) -> Result<ExpandedTexts, RunError>
    ensures same { (F.surroundings files.new).content ≡ (F.surroundings files.old).content }
    ensures expanded { IfOk result (λ tree. (t : TreeTexts) × AreExpandedTexts (F.surroundings files.old) settings.now.root.now settings.now.tree.now settings.now.language (expansion_view expansion.now) t × (t.texts ≡ tree.texts) × (t.names ≡ named_texts tree.tree tree.texts) × TakesLines (E.taken err.old) (E.failures err.old) t.lines (E.taken err.new) (E.failures err.new)) }
    ensures stopped { IfErr result (λ stop. (lines : List ErrorLine) × StopsInExpansion (F.surroundings files.old) (F.failures files.old) (F.failures files.new) settings.now.root.now settings.now.tree.now (expansion_view expansion.now) (status_of stop) lines × TakesLines (E.taken err.old) (E.failures err.old) lines (E.taken err.new) (E.failures err.new)) }
    ensures rising { F.failures files.old ≤ F.failures files.new }
    ensures failed { IfErr result (λ stop. status_of stop ≡ 5 → HasRisen (F.failures files.old) (F.failures files.new)) }
{
    let answers = job_answers(alloc, expansion, files, err)?;
    let tree = expanded_tree(alloc, settings, &answers, files, err);
    drop(answers);
    tree
}

/// The settled tree of expanded files. Reports why it is refused.
fn settled_expanded<L: KeptLines, E: Messages>(
    alloc: Global,
    first: &str,
    profile: Profile,
    found: ExpandedTexts,
    err: &mut E,
) -> Result<JobTree<L>, RunError>
    ensures accepted { IfOk result (λ job. (t : TreeTexts) → t.texts ≡ found.texts → t.names ≡ named_texts found.tree found.texts → IsJobTree L L.are_of t first.now job) }
    ensures profile { IfOk result (λ job. profile_of job.settled ≡ profile) }
    ensures unreported { IfOk result (λ job. TakesLines (E.taken err.old) (E.failures err.old) [] (E.taken err.new) (E.failures err.new)) }
    ensures stopped { IfErr result (λ stop. (lines : List ErrorLine) × StopsAtTexts found.texts (named_texts found.tree found.texts) first.now (status_of stop) lines × TakesLines (E.taken err.old) (E.failures err.old) lines (E.taken err.new) (E.failures err.new)) }
{
    let ExpandedTexts { tree, texts } = found;
    let read = L::read(alloc, &texts, first);
    settled_texts(alloc, first, profile, texts, Some(tree), read, err)
}

/// The settled tree of texts that were read. Reports why they are refused.
fn settled_texts<L: KeptLines, E: Messages>(
    alloc: Global,
    first: &str,
    profile: Profile,
    texts: Texts,
    expanded: Option<ExpandedTree>,
    read: Result<ReadTree<L>, TreeFault>,
    err: &mut E,
) -> Result<JobTree<L>, RunError>
    requires read { IsReadWith L L.are_of texts first.now read }
    ensures accepted { IfOk result (λ job. (t : TreeTexts) → t.texts ≡ texts → t.names ≡ texts_named expanded texts → IsJobTree L L.are_of t first.now job) }
    ensures profile { IfOk result (λ job. profile_of job.settled ≡ profile) }
    ensures unreported { OnOk result (TakesLines (E.taken err.old) (E.failures err.old) [] (E.taken err.new) (E.failures err.new)) }
    ensures stopped { IfErr result (λ stop. (lines : List ErrorLine) × StopsAtTexts texts (texts_named expanded texts) first.now (status_of stop) lines × TakesLines (E.taken err.old) (E.failures err.old) lines (E.taken err.new) (E.failures err.new)) }
    ensures remembered { IfErr result (λ stop. status_of stop ≡ 3 → IfErr read (λ fault. fault.kind ≢ OutOfMemory)) }
{
    let names = FileNames::of_tree(&texts, &expanded);
    match settled_read(alloc, &names, first, read, profile, err) {
        Ok((settled, lines)) => Ok(JobTree {
            settled,
            lines,
            texts,
            expanded,
        }),
        Err(stop) => Err(stop),
    }
}
