//! The tree of a job with its lines.
ghost use Rattle.std.specs.Prelude.{◌≡◌, ◌≤◌, List, IfOk, IfErr};
ghost use Rattle.kc_rules.specs.between.SettledViews.{profile_of};
ghost use Rattle.kmin_options.specs.Jobs.{settings_view};
ghost use Rattle.kmin_report.specs.Reports.{ErrorLine};
ghost use Rattle.kc_files.specs.TreeContents.{HasRisen};
ghost use Rattle.kmin_report.specs.StandardError.{TakesLines};
ghost use Rattle.kmin_report.specs.between.RunErrors.{status_of};
ghost use Rattle.kmin_expansions.specs.JobTexts.{TreeTexts, AreTextsOfJob};
ghost use Rattle.kmin_trees.specs.LinedTrees.{IsLinedTree, name_text, names_by_number};
ghost use Rattle.kmin_trees.specs.Stops.{StopsAtTree};
ghost use Rattle.kmin_trees.specs.between.FileNames.{names_of, text_at};

use crate::file_names::FileNames;
use crate::job_trees::{JobTree, kept_tree};
use kc_builder::TreeLines;
use kc_rules::Settled;
use kc_value::Text;
use kmin_inputs::Files;
use kmin_options::Settings;
use kmin_report::{Messages, RunError};
use std::alloc::{AllocError, Global};

/// A settled tree, the lines of its files, and the names of these in messages by their numbers.
#[derive(Drop)]
pub struct LinedTree {
    pub settled: Settled,
    pub lines: TreeLines,
    pub paths: Vec<Text>,
}

/// The settled tree of a job, with the lines of its files. Reports the notices of the expansion of its macros, and why it is refused,
/// as `job_tree` does.
pub fn job_tree_with_lines<F: Files, E: Messages>(
    alloc: Global,
    settings: &Settings<'_>,
    files: &mut F,
    err: &mut E,
) -> Result<LinedTree, RunError>
    ensures same { (F.surroundings files.new).content ≡ (F.surroundings files.old).content }
    ensures accepted { IfOk result (λ lined. (t : TreeTexts) × AreTextsOfJob (F.surroundings files.old) (settings_view settings.now) t × IsLinedTree t settings.now.tree.now lined × TakesLines (E.taken err.old) (E.failures err.old) t.lines (E.taken err.new) (E.failures err.new)) }
    ensures profile { IfOk result (λ lined. profile_of lined.settled ≡ settings.now.profile) }
    ensures stopped { IfErr result (λ stop. (lines : List ErrorLine) × StopsAtTree (F.surroundings files.old) (F.failures files.old) (F.failures files.new) (settings_view settings.now) (status_of stop) lines × TakesLines (E.taken err.old) (E.failures err.old) lines (E.taken err.new) (E.failures err.new)) }
    ensures rising { F.failures files.old ≤ F.failures files.new }
    ensures failed { IfErr result (λ stop. status_of stop ≡ 5 → HasRisen (F.failures files.old) (F.failures files.new)) }
{
    let JobTree {
        settled,
        lines,
        texts,
        expanded,
    } = kept_tree::<TreeLines, F, E>(alloc, settings, files, err)?;
    let paths = paths_of(alloc, &FileNames::of_tree(&texts, &expanded))?;
    Ok(LinedTree {
        settled,
        lines,
        paths,
    })
}

/// The names of a tree's files by their numbers.
fn paths_of(alloc: Global, names: &FileNames<'_>) -> Result<Vec<Text>, AllocError>
    ensures { IfOk result (λ paths. paths.items ≡ names_by_number (names_of names.now)) }
{
    let Ok(count) = u32::try_from(names.len()) else {
        return Err(AllocError);
    };
    let mut paths = Vec::new(alloc);
    for number in 0..count {
        paths.push(Text::copied(alloc, text_at(names, number))?)?;
    }
    Ok(paths)
}

/// The name of the file of this number as a text; the empty one if there is no such file, or if it isn't UTF-8.
fn text_at<'a>(names: &FileNames<'a>, number: u32) -> &'a str
    ensures { result.now ≡ text_at (names_of names.now) number }
{
    match names.name_at(number) {
        Some(name) => name_text(name),
        None => "",
    }
}

/// A name as a text; the empty one if it isn't UTF-8.
fn name_text(name: &[u8]) -> &str
    ensures { result.now ≡ name_text name.now }
{
    match std::str::from_utf8(name) {
        Ok(text) => text,
        Err(_) => "",
    }
}
