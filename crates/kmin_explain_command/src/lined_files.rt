//! A configuration of files with their last lines.
ghost use Rattle.std.specs.Prelude.{◌≡◌, ◌≤◌, ◌∷◌, ◌++◌, [], List, ℕ, map, IfOk, IfErr, OnOk};
ghost use Rattle.std.specs.Borrow.{Bor};
ghost use Rattle.kc_rules.specs.between.SettledViews.{tree_of_settled};
ghost use Rattle.kc_dotconfig_model.specs.ConfigFiles.{empty_assignment, merged_users};
ghost use Rattle.kc_dotconfig_model.specs.between.Formats.{file_format};
ghost use Rattle.kc_config.specs.ConfigStates.{IsSolved, tree_in};
ghost use Rattle.kc_dotconfig.specs.Fragments.{FitsTree, users_of};
ghost use Rattle.kmin_outputs.specs.Stops.{StopsAmongFiles};
ghost use Rattle.kmin_outputs.specs.between.LoadResults.{lists_of};
ghost use Rattle.kmin_explain_command.specs.between.LinedFiles.{AreLined};
ghost use Rattle.kmin_report.specs.Reports.{ErrorLine};
ghost use Rattle.kc_files.specs.TreeContents.{HasRisen};
ghost use Rattle.kmin_report.specs.StandardError.{TakesLines};
ghost use Rattle.kmin_report.specs.between.RunErrors.{status_of};

use crate::lined_file::{LinedFile, read_file};
use kc_config_reasons::FileLines;
use kc_rules::Settled;
use kmin_inputs::Files;
use kmin_options::Settings;
use kmin_outputs::{ReadFiles, add_fragment, unassigned};
use kmin_report::{Messages, RunError};
use std::alloc::{AllocError, Global};

/// A configuration, and the last lines of each of its files.
#[derive(Drop)]
pub(crate) struct LinedFiles<'a> {
    pub(crate) read: ReadFiles<'a>,
    pub(crate) lines: Vec<FileLines>,
}

/// The configuration of files, each of which overrides those before it, with the last lines of each. Reports the notices of their
/// lines, and why one is refused.
pub(crate) fn read_lined<'a, F: Files, E: Messages>(
    alloc: Global,
    settled: &'a Settled,
    settings: &Settings<'_>,
    paths: &[&str],
    files: &mut F,
    err: &mut E,
) -> Result<LinedFiles<'a>, RunError>
    ensures same { F.surroundings files.new ≡ F.surroundings files.old }
    ensures settled { IfOk result (λ found. found.read.config.system ≡ settled.now) }
    ensures solved { IfOk result (λ found. IsSolved found.read.config) }
    ensures lined { IfOk result (λ found. AreLined (F.surroundings files.old).content (file_format settings.now.format) settings.now.strict (tree_of_settled settled.now) (map (λ (path : Bor (List ℕ)). path.now) paths.now) (empty_assignment (tree_of_settled settled.now)) found.read.config.users [] (lists_of found.read.chosen.items) [] found.lines.items (E.taken err.old) (E.failures err.old) (E.taken err.new) (E.failures err.new)) }
    ensures stopped { IfErr result (λ stop. (lines : List ErrorLine) × StopsAmongFiles (F.surroundings files.old).content (file_format settings.now.format) settings.now.strict (tree_of_settled settled.now) (map (λ (path : Bor (List ℕ)). path.now) paths.now) (status_of stop) lines × TakesLines (E.taken err.old) (E.failures err.old) lines (E.taken err.new) (E.failures err.new)) }
    ensures rising { F.failures files.old ≤ F.failures files.new }
    ensures failed { IfErr result (λ stop. status_of stop ≡ 5 → HasRisen (F.failures files.old) (F.failures files.new)) }
{
    let mut found = no_files(alloc, settled)?;
    for path in paths {
        add_file(alloc, settled, settings, path, &mut found, files, err)?;
    }
    Ok(found)
}

/// The configuration of no files.
fn no_files(alloc: Global, settled: &Settled) -> Result<LinedFiles<'_>, AllocError>
    ensures settled { IfOk result (λ found. found.read.config.system ≡ settled.now) }
    ensures solved { IfOk result (λ found. IsSolved found.read.config) }
    ensures users { IfOk result (λ found. found.read.config.users ≡ empty_assignment (tree_of_settled settled.now)) }
    ensures chosen { IfOk result (λ found. lists_of found.read.chosen.items ≡ []) }
    ensures lines { IfOk result (λ found. found.lines.items ≡ []) }
{
    let read = unassigned(alloc, settled)?;
    let lines = Vec::new(alloc);
    Ok(LinedFiles { read, lines })
}

/// Overrides a configuration with one file, and keeps its last lines. Reports the notices of the file's lines, and why it is refused.
fn add_file<F: Files, E: Messages>(
    alloc: Global,
    settled: &Settled,
    settings: &Settings<'_>,
    path: &str,
    found: &mut LinedFiles<'_>,
    files: &mut F,
    err: &mut E,
) -> Result<(), RunError>
    requires { found.old.read.config.system ≡ settled.now }
    ensures same { F.surroundings files.new ≡ F.surroundings files.old }
    ensures settled { OnOk result (found.new.read.config.system ≡ settled.now) }
    ensures solved { OnOk result (IsSolved found.new.read.config) }
    ensures lined { OnOk result (AreLined (F.surroundings files.old).content (file_format settings.now.format) settings.now.strict (tree_of_settled settled.now) (path.now ∷ []) found.old.read.config.users found.new.read.config.users (lists_of found.old.read.chosen.items) (lists_of found.new.read.chosen.items) found.old.lines.items found.new.lines.items (E.taken err.old) (E.failures err.old) (E.taken err.new) (E.failures err.new)) }
    ensures stopped { IfErr result (λ stop. (lines : List ErrorLine) × StopsAmongFiles (F.surroundings files.old).content (file_format settings.now.format) settings.now.strict (tree_of_settled settled.now) (path.now ∷ []) (status_of stop) lines × TakesLines (E.taken err.old) (E.failures err.old) lines (E.taken err.new) (E.failures err.new)) }
    ensures rising { F.failures files.old ≤ F.failures files.new }
    ensures failed { IfErr result (λ stop. status_of stop ≡ 5 → HasRisen (F.failures files.old) (F.failures files.new)) }
{
    let file = read_file(alloc, settled, settings, path, files, err)?;
    add_lined(found, file)?;
    Ok(())
}

/// Overrides a configuration with the assignments of one more file, and keeps its last lines.
fn add_lined(found: &mut LinedFiles<'_>, file: LinedFile) -> Result<(), AllocError>
    requires { FitsTree (tree_in found.old.read.config) file.fragment.assigns.items }
    ensures settled { found.new.read.config.system ≡ found.old.read.config.system }
    ensures solved { OnOk result (IsSolved found.new.read.config) }
    ensures users { OnOk result (found.new.read.config.users ≡ merged_users (users_of (tree_in found.old.read.config) file.fragment.assigns.items) found.old.read.config.users) }
    ensures chosen { OnOk result (lists_of found.new.read.chosen.items ≡ lists_of found.old.read.chosen.items ++ file.fragment.chosen.items ∷ []) }
    ensures lines { OnOk result (found.new.lines.items ≡ found.old.lines.items ++ file.lines ∷ []) }
{
    let LinedFile { fragment, lines } = file;
    found.lines.push(lines)?;
    add_fragment(&mut found.read, fragment)
}
