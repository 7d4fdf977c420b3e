//! Configurations of a settled tree, read from files.
ghost use Rattle.std.specs.Prelude.{◌≡◌, ◌≢◌, ◌≤◌, ◌∷◌, ◌++◌, [], List, ℕ, true, false, map, unwrap_or, slice_get, IfOk, IfErr, OnOk};
ghost use Rattle.std.specs.Borrow.{Bor};
ghost use Rattle.kc_rules.specs.between.SettledViews.{tree_of_settled};
ghost use Rattle.kc_dotconfig_model.specs.ConfigFiles.{empty_assignment, merged_users};
ghost use Rattle.kc_dotconfig_model.specs.between.Formats.{file_format};
ghost use Rattle.kc_dotconfig_model.specs.OtherChoices.{other_choices_of, placed_from};
ghost use Rattle.kc_config.specs.ConfigStates.{IsSolved, tree_in};
ghost use Rattle.kc_dotconfig.specs.Fragments.{FitsTree, users_of};
ghost use Rattle.kc_dotconfig_model.specs.between.Notices.{notice_pair};
ghost use Rattle.kc_dotconfig.specs.ReadResults.{IsReadAs};
ghost use Rattle.kmin_report.specs.Reports.{ErrorLine, choice_notice_lines};
ghost use Rattle.kmin_report.specs.StandardError.{TakesLines};
ghost use Rattle.kc_files.specs.TreeContents.{HasRisen};
ghost use Rattle.kmin_outputs.specs.Stops.{StopsAmongFiles};
ghost use Rattle.kmin_outputs.specs.Strictness.{AllowsNotices, RefusesNotices};
ghost use Rattle.kmin_outputs.specs.between.LoadResults.{IsLoaded, AreLoaded, AreRead, lists_of};
ghost use Rattle.kmin_outputs.specs.between.LoadStops.{StopsLoad, StopsAtPath, StopsNoticing, fragment_notices, load_lines, load_status};
ghost use Rattle.kmin_report.specs.between.RunErrors.{status_of};

use kc_config::Config;
use kc_dotconfig::{ChoiceLine, Format, Fragment, LoadFault, LoadKind, NoticeKind, read_config};
use kc_minimal::{other_choices, placed_lines};
use kc_rules::Settled;
use kc_tree::Tree;
use kc_value::Source;
use kmin_inputs::Files;
use kmin_options::Settings;
use kmin_report::{Message, Messages, RunError, report_notices};
use std::alloc::{AllocError, Global};

/// A configuration, and the lines of members of choices in each of the files that it is read from.
#[derive(Drop)]
pub struct ReadFiles<'a> {
    pub config: Config<'a>,
    pub chosen: Vec<Vec<ChoiceLine>>,
}

/// Reads the assignments of a configuration file. Reports its notices, or its fault.
pub fn load<S: Source, E: Messages>(
    alloc: Global,
    settled: &Settled,
    format: &Format,
    path: &str,
    source: &mut S,
    err: &mut E,
) -> Result<Fragment, RunError>
    ensures ok { IfOk result (IsReadAs (file_format format.now) (tree_of_settled settled.now) (S.left source.old) (S.left source.new)) }
    ensures fits { IfOk result (λ f. FitsTree (tree_of_settled settled.now) f.assigns.items) }
    ensures notices { IfOk result (λ f. TakesLines (E.taken err.old) (E.failures err.old) (fragment_notices (tree_of_settled settled.now) path.now f) (E.taken err.new) (E.failures err.new)) }
    ensures stopped { IfErr result (λ stop. StopsLoad (file_format format.now) (tree_of_settled settled.now) path.now (S.left source.old) (S.left source.new) (S.failures source.old) (S.failures source.new) (status_of stop) (E.taken err.old) (E.failures err.old) (E.taken err.new) (E.failures err.new)) }
{
    match read_config(alloc, settled, format, source, &mut ()) {
        Ok(fragment) => {
            report_notices(path, &fragment.notices, settled.tree(), err);
            Ok(fragment)
        }
        Err(fault) => Err(report_load_fault(path, fault, err)),
    }
}

/// Reports a fault of a configuration file, and returns the error that ends the run. Out of memory is reported later.
pub fn report_load_fault<E: Messages>(path: &str, fault: LoadFault, err: &mut E) -> RunError
    ensures status { status_of result ≡ load_status fault.kind }
    ensures reported { TakesLines (E.taken err.old) (E.failures err.old) (load_lines path.now fault.line fault.kind) (E.taken err.new) (E.failures err.new) }
{
    let LoadFault { line, kind } = fault;
    match kind {
        LoadKind::OutOfMemory => RunError::Memory,
        LoadKind::Read => {
            err.write_report(Message::FileFault { path, line, kind });
            RunError::Failed
        }
        _ => {
            err.write_report(Message::FileFault { path, line, kind });
            RunError::Configuration
        }
    }
}

/// The assignments of a configuration file. An `Err` means that it has a notice and `strict` is set.
pub fn allowed(strict: bool, fragment: Fragment) -> Result<Fragment, RunError>
    ensures ok { IfOk result (λ f. (f ≡ fragment) × AllowsNotices strict (map notice_pair fragment.notices.items)) }
    ensures refused { IfErr result (λ stop. (status_of stop ≡ 4) × (strict ≡ true) × (fragment.notices.items ≢ [])) }
{
    if strict && !fragment.notices.is_empty() {
        Err(RunError::Configuration)
    } else {
        Ok(fragment)
    }
}

/// Reads the assignments of a configuration file by its path. Reports the file's notices, or its fault. Under `strict` a file that
/// has a notice is refused.
fn load_path<F: Files, E: Messages>(
    alloc: Global,
    settled: &Settled,
    settings: &Settings<'_>,
    path: &str,
    files: &mut F,
    err: &mut E,
) -> Result<Fragment, RunError>
    ensures same { F.surroundings files.new ≡ F.surroundings files.old }
    ensures fits { IfOk result (λ f. FitsTree (tree_of_settled settled.now) f.assigns.items) }
    ensures loaded { IfOk result (λ f. IsLoaded ((F.surroundings files.old).content path.now) (file_format settings.now.format) (tree_of_settled settled.now) path.now f (E.taken err.old) (E.failures err.old) (E.taken err.new) (E.failures err.new)) }
    ensures allowed { IfOk result (λ f. AllowsNotices settings.now.strict (map notice_pair f.notices.items)) }
    ensures stopped { IfErr result (λ stop. (lines : List ErrorLine) × StopsAtPath ((F.surroundings files.old).content path.now) (file_format settings.now.format) settings.now.strict (tree_of_settled settled.now) path.now (status_of stop) lines × TakesLines (E.taken err.old) (E.failures err.old) lines (E.taken err.new) (E.failures err.new)) }
    ensures rising { F.failures files.old ≤ F.failures files.new }
    ensures failed { IfErr result (λ stop. status_of stop ≡ 5 → HasRisen (F.failures files.old) (F.failures files.new)) }
{
    match files.reader_for(path) {
        Some(mut reader) => {
            let loaded = load(alloc, settled, &settings.format, path, &mut reader, err);
            files.close(reader);
            match loaded {
                Ok(fragment) => allowed(settings.strict, fragment),
                Err(stop) => Err(stop),
            }
        }
        None => {
            let kind = LoadKind::Read;
            let fault = LoadFault { line: 0, kind };
            Err(report_load_fault(path, fault, err))
        }
    }
}

/// The configuration of one file. Reports the notices of the file's lines, and why it is refused.
pub fn configured_by<'a, F: Files, E: Messages>(
    alloc: Global,
    settled: &'a Settled,
    settings: &Settings<'_>,
    path: &str,
    files: &mut F,
    err: &mut E,
) -> Result<ReadFiles<'a>, RunError>
    ensures same { F.surroundings files.new ≡ F.surroundings files.old }
    ensures settled { IfOk result (λ read. read.config.system ≡ settled.now) }
    ensures solved { IfOk result (λ read. IsSolved read.config) }
    ensures loaded { IfOk result (λ read. AreRead (F.surroundings files.old).content (file_format settings.now.format) settings.now.strict (tree_of_settled settled.now) (path.now ∷ []) (empty_assignment (tree_of_settled settled.now)) read.config.users [] (lists_of read.chosen.items) (E.taken err.old) (E.failures err.old) (E.taken err.new) (E.failures err.new)) }
    ensures stopped { IfErr result (λ stop. (lines : List ErrorLine) × StopsAmongFiles (F.surroundings files.old).content (file_format settings.now.format) settings.now.strict (tree_of_settled settled.now) (path.now ∷ []) (status_of stop) lines × TakesLines (E.taken err.old) (E.failures err.old) lines (E.taken err.new) (E.failures err.new)) }
    ensures rising { F.failures files.old ≤ F.failures files.new }
    ensures failed { IfErr result (λ stop. status_of stop ≡ 5 → HasRisen (F.failures files.old) (F.failures files.new)) }
{
    let fragment = load_path(alloc, settled, settings, path, files, err)?;
    Ok(first_read(alloc, settled, fragment)?)
}

/// The configuration of the assignments of one file.
fn first_read<'a>(
    alloc: Global,
    settled: &'a Settled,
    fragment: Fragment,
) -> Result<ReadFiles<'a>, AllocError>
    requires { FitsTree (tree_of_settled settled.now) fragment.assigns.items }
    ensures settled { IfOk result (λ read. read.config.system ≡ settled.now) }
    ensures solved { IfOk result (λ read. IsSolved read.config) }
    ensures users { IfOk result (λ read. read.config.users ≡ users_of (tree_of_settled settled.now) fragment.assigns.items) }
    ensures chosen { IfOk result (λ read. lists_of read.chosen.items ≡ fragment.chosen.items ∷ []) }
{
    let config = Config::of(alloc, settled, &fragment);
    let Fragment { chosen, .. } = fragment;
    let config = config?;
    let chosen = one_list(alloc, chosen)?;
    Ok(ReadFiles { config, chosen })
}

/// One list of lines of members.
fn one_list(alloc: Global, lines: Vec<ChoiceLine>) -> Result<Vec<Vec<ChoiceLine>>, AllocError>
    ensures { IfOk result (λ lists. lists_of lists.items ≡ lines.items ∷ []) }
{
    let mut lists = Vec::with_capacity(alloc, 1)?;
    lists.push(lines)?;
    Ok(lists)
}

/// Overrides a configuration with files, one after another. Reports the notices of their lines, and why one is refused.
fn overridden_by<'a, F: Files, E: Messages>(
    alloc: Global,
    settled: &'a Settled,
    begun: ReadFiles<'a>,
    settings: &Settings<'_>,
    paths: &[&str],
    files: &mut F,
    err: &mut E,
) -> Result<ReadFiles<'a>, RunError>
    requires settled { begun.config.system ≡ settled.now }
    requires solved { IsSolved begun.config }
    ensures same { F.surroundings files.new ≡ F.surroundings files.old }
    ensures settled { IfOk result (λ read. read.config.system ≡ settled.now) }
    ensures solved { IfOk result (λ read. IsSolved read.config) }
    ensures loaded { IfOk result (λ read. AreRead (F.surroundings files.old).content (file_format settings.now.format) settings.now.strict (tree_of_settled settled.now) (map (λ (path : Bor (List ℕ)). path.now) paths.now) begun.entry.config.users read.config.users (lists_of begun.entry.chosen.items) (lists_of read.chosen.items) (E.taken err.old) (E.failures err.old) (E.taken err.new) (E.failures err.new)) }
    ensures stopped { IfErr result (λ stop. (lines : List ErrorLine) × StopsAmongFiles (F.surroundings files.old).content (file_format settings.now.format) settings.now.strict (tree_of_settled settled.now) (map (λ (path : Bor (List ℕ)). path.now) paths.now) (status_of stop) lines × TakesLines (E.taken err.old) (E.failures err.old) lines (E.taken err.new) (E.failures err.new)) }
    ensures rising { F.failures files.old ≤ F.failures files.new }
    ensures failed { IfErr result (λ stop. status_of stop ≡ 5 → HasRisen (F.failures files.old) (F.failures files.new)) }
{
    let mut read = begun;
    for path in paths {
        override_with_file(alloc, settled, &mut read, settings, path, files, err)?;
    }
    Ok(read)
}

/// Overrides a configuration with one file. Reports the notices of the file's lines, and why it is refused.
fn override_with_file<F: Files, E: Messages>(
    alloc: Global,
    settled: &Settled,
    read: &mut ReadFiles<'_>,
    settings: &Settings<'_>,
    path: &str,
    files: &mut F,
    err: &mut E,
) -> Result<(), RunError>
    requires { read.old.config.system ≡ settled.now }
    ensures same { F.surroundings files.new ≡ F.surroundings files.old }
    ensures settled { OnOk result (read.new.config.system ≡ settled.now) }
    ensures solved { OnOk result (IsSolved read.new.config) }
    ensures loaded { OnOk result (AreRead (F.surroundings files.old).content (file_format settings.now.format) settings.now.strict (tree_of_settled settled.now) (path.now ∷ []) read.old.config.users read.new.config.users (lists_of read.old.chosen.items) (lists_of read.new.chosen.items) (E.taken err.old) (E.failures err.old) (E.taken err.new) (E.failures err.new)) }
    ensures stopped { IfErr result (λ stop. (lines : List ErrorLine) × StopsAmongFiles (F.surroundings files.old).content (file_format settings.now.format) settings.now.strict (tree_of_settled settled.now) (path.now ∷ []) (status_of stop) lines × TakesLines (E.taken err.old) (E.failures err.old) lines (E.taken err.new) (E.failures err.new)) }
    ensures rising { F.failures files.old ≤ F.failures files.new }
    ensures failed { IfErr result (λ stop. status_of stop ≡ 5 → HasRisen (F.failures files.old) (F.failures files.new)) }
{
    let fragment = load_path(alloc, settled, settings, path, files, err)?;
    add_fragment(read, fragment)?;
    Ok(())
}

/// Overrides a configuration with the assignments of one more file. An `Err` means out of memory.
pub fn add_fragment(read: &mut ReadFiles<'_>, fragment: Fragment) -> Result<(), AllocError>
    requires { FitsTree (tree_in read.old.config) fragment.assigns.items }
    ensures settled { read.new.config.system ≡ read.old.config.system }
    ensures solved { IsSolved read.new.config }
    ensures users { OnOk result (read.new.config.users ≡ merged_users (users_of (tree_in read.old.config) fragment.assigns.items) read.old.config.users) }
    ensures chosen { OnOk result (lists_of read.new.chosen.items ≡ lists_of read.old.chosen.items ++ fragment.chosen.items ∷ []) }
{
    read.config.merge(&fragment)?;
    let Fragment { chosen, .. } = fragment;
    read.chosen.push(chosen)?;
    Ok(())
}

/// The configuration of files, each of which overrides those before it. Reports the notices of their lines, and why one is refused.
pub fn configured<'a, F: Files, E: Messages>(
    alloc: Global,
    settled: &'a Settled,
    settings: &Settings<'_>,
    paths: &[&str],
    files: &mut F,
    err: &mut E,
) -> Result<ReadFiles<'a>, RunError>
    ensures same { F.surroundings files.new ≡ F.surroundings files.old }
    ensures settled { IfOk result (λ read. read.config.system ≡ settled.now) }
    ensures solved { IfOk result (λ read. IsSolved read.config) }
    ensures loaded { IfOk result (λ read. AreRead (F.surroundings files.old).content (file_format settings.now.format) settings.now.strict (tree_of_settled settled.now) (map (λ (path : Bor (List ℕ)). path.now) paths.now) (empty_assignment (tree_of_settled settled.now)) read.config.users [] (lists_of read.chosen.items) (E.taken err.old) (E.failures err.old) (E.taken err.new) (E.failures err.new)) }
    ensures stopped { IfErr result (λ stop. (lines : List ErrorLine) × StopsAmongFiles (F.surroundings files.old).content (file_format settings.now.format) settings.now.strict (tree_of_settled settled.now) (map (λ (path : Bor (List ℕ)). path.now) paths.now) (status_of stop) lines × TakesLines (E.taken err.old) (E.failures err.old) lines (E.taken err.new) (E.failures err.new)) }
    ensures rising { F.failures files.old ≤ F.failures files.new }
    ensures failed { IfErr result (λ stop. status_of stop ≡ 5 → HasRisen (F.failures files.old) (F.failures files.new)) }
{
    let Some((first, others)) = paths.split_first() else {
        return Ok(unassigned(alloc, settled)?);
    };
    let read = configured_by(alloc, settled, settings, first, files, err)?;
    overridden_by(alloc, settled, read, settings, others, files, err)
}

/// The configuration of no files. An `Err` means out of memory.
pub fn unassigned(alloc: Global, settled: &Settled) -> Result<ReadFiles<'_>, AllocError>
    ensures settled { IfOk result (λ read. read.config.system ≡ settled.now) }
    ensures solved { IfOk result (λ read. IsSolved read.config) }
    ensures users { IfOk result (λ read. read.config.users ≡ empty_assignment (tree_of_settled settled.now)) }
    ensures chosen { IfOk result (λ read. lists_of read.chosen.items ≡ []) }
{
    let config = Config::new(alloc, settled)?;
    let chosen = Vec::new(alloc);
    Ok(ReadFiles { config, chosen })
}

/// Reports the notices on the choices of a configuration of files at these paths. Under `strict` the configuration is refused for them.
pub fn notice_choices<E: Messages>(
    alloc: Global,
    settings: &Settings<'_>,
    paths: &[&str],
    read: &ReadFiles<'_>,
    err: &mut E,
) -> Result<(), RunError>
    ensures allowed { OnOk result (AllowsNotices settings.now.strict (other_choices_of (tree_in read.now.config) read.now.config.values (placed_from 0 (lists_of read.now.chosen.items)))) }
    ensures noticed { OnOk result (TakesLines (E.taken err.old) (E.failures err.old) (choice_notice_lines (map (λ (path : Bor (List ℕ)). path.now) paths.now) (other_choices_of (tree_in read.now.config) read.now.config.values (placed_from 0 (lists_of read.now.chosen.items)))) (E.taken err.new) (E.failures err.new)) }
    ensures stopped { IfErr result (λ stop. StopsNoticing (tree_in read.now.config) read.now.config.values settings.now.strict (map (λ (path : Bor (List ℕ)). path.now) paths.now) (lists_of read.now.chosen.items) (status_of stop) (E.taken err.old) (E.failures err.old) (E.taken err.new) (E.failures err.new)) }
{
    let config = &read.config;
    let lines = placed_lines(alloc, &read.chosen)?;
    let places = other_choices(alloc, config.settled(), config.values(), &lines)?;
    report_choices(paths, &places, config.settled().tree(), err);
    if is_refused(settings.strict, &places) {
        return Err(RunError::Configuration);
    }
    Ok(())
}

/// Whether a configuration is refused for the notices on choices at these places.
fn is_refused(strict: bool, places: &[(usize, u32)]) -> bool
    ensures refused { result ≡ true → RefusesNotices strict places.now }
    ensures allowed { result ≡ false → AllowsNotices strict places.now }
{
    if strict { !places.is_empty() } else { false }
}

/// Reports the notices on choices, each at its place in the files at these paths.
fn report_choices<E: Messages>(paths: &[&str], places: &[(usize, u32)], tree: &Tree, err: &mut E)
    ensures { TakesLines (E.taken err.old) (E.failures err.old) (choice_notice_lines (map (λ (path : Bor (List ℕ)). path.now) paths.now) places.now) (E.taken err.new) (E.failures err.new) }
{
    for place in places {
        let (file, line) = *place;
        let path = path_at(paths, file);
        let kind = NoticeKind::OtherChoice;
        err.write_report(Message::Notice {
            path,
            line,
            kind,
            tree,
        });
    }
}

/// The path of this number; empty if there is none.
fn path_at<'a>(paths: &[&'a str], file: usize) -> &'a str
    ensures { result.now ≡ unwrap_or (slice_get (map (λ (path : Bor (List ℕ)). path.now) paths.now) file) [] }
{
    match paths.get(file) {
        Some(path) => path,
        None => "",
    }
}
