//! The output for a bundle.
ghost use Rattle.std.specs.Prelude.{◌≡◌, ◌≢◌, ◌≤◌, ◌⊎◌, ◌∷◌, [], List, ℕ, false, codes, length, IfOk, IfErr, OnOk};
ghost use Rattle.std.specs.Io.KnownBytes.{Appends};
ghost use Rattle.kc_value.specs.declared.limits.TheConstants.{MAX_BUNDLE_BYTES};
ghost use Rattle.kc_rules.specs.between.SettledViews.{tree_of_settled, profile_of};
ghost use Rattle.kc_rules_model.specs.declared.profile.Profile.TheVariants.{Present};
ghost use Rattle.kc_rules_model.specs.declared.values.UnitValue.{UnitValue};
ghost use Rattle.kc_dotconfig_model.specs.Formats.{plain_format};
ghost use Rattle.kc_dotconfig_model.specs.ConfigLines.{LineMeaning};
ghost use Rattle.kc_minimal_model.specs.FullFile.{full_file};
ghost use Rattle.kmin_trees.specs.AcceptedTrees.{AreAccepted};
ghost use Rattle.kmin_outputs.specs.Outputs.{Resolve};
ghost use Rattle.kmin_run.specs.Bundles.{ReadsToEnd};
ghost use Rattle.kmin_run.specs.BundleOutputs.{BundleHasOutput, StopsInBundle, StopsOnBundle, WritesPart, bundle_content, bundle_files, bundle_settings};
ghost use Rattle.kmin_report.specs.Reports.{ErrorLine, notice_lines};
ghost use Rattle.kmin_report.specs.StandardError.{TakesLines};
ghost use Rattle.kc_files.specs.TreeContents.{HasRisen};
ghost use Rattle.kmin_outputs.specs.Stops.{StopsAmongFiles};
ghost use Rattle.kmin_report.specs.between.RunErrors.{status_of};
ghost use Rattle.kmin_trees.specs.between.TreeStops.{StopsAtTexts};

use crate::bundle::{read_whole, split_bundle};
use kc_config::Config;
use kc_dotconfig::Format;
use kc_minimal::full_text;
use kc_rules::{Profile, Settled};
use kc_tree::Texts;
use kc_value::{Seed, Sink, Source};
use kmin_disk::MemoryReader;
use kmin_outputs::load;
use kmin_report::{Messages, RunError, write_output};
use kmin_trees::{FileNames, read_texts, settled_tree};
use std::alloc::Global;

/// Reads a bundle from `input`, and writes the full file of its configuration to `out`. Reports its notices and its fault to
/// `err`.
pub(crate) fn run_bundle<I: Source, O: Sink, E: Messages>(
    alloc: Global,
    seed: Seed,
    input: &mut I,
    out: &mut O,
    err: &mut E,
) -> Result<(), RunError>
    ensures ok { OnOk result ((bundle text : List ℕ) × (notices : List ErrorLine) × ReadsToEnd (I.left input.old) (I.left input.new) bundle × (length bundle ≤ MAX_BUNDLE_BYTES) × BundleHasOutput bundle text notices × Appends (O.taken out.old) (O.taken out.new) text × TakesLines (E.taken err.old) (E.failures err.old) notices (E.taken err.new) (E.failures err.new)) }
    ensures unfailed { OnOk result ((I.failures input.new ≡ I.failures input.old) × (O.failures out.new ≡ O.failures out.old)) }
    ensures failures { result ≡ Err RunError.Failed → HasRisen (I.failures input.old) (I.failures input.new) ⊎ HasRisen (O.failures out.old) (O.failures out.new) }
    ensures part { result ≡ Err RunError.Failed → (O.taken out.new ≡ O.taken out.old) ⊎ WritesPart (I.left input.old) (I.left input.new) (O.taken out.old) (O.taken out.new) }
    ensures unwritten { IfErr result (λ stop. (stop ≡ RunError.Failed) ⊎ (O.taken out.new ≡ O.taken out.old)) }
    ensures stopped { IfErr result (λ stop. (lines : List ErrorLine) × StopsOnBundle (I.left input.old) (I.left input.new) (status_of stop) lines × TakesLines (E.taken err.old) (E.failures err.old) lines (E.taken err.new) (E.failures err.new)) }
{
    let bundle = read_whole(alloc, input, err)?;
    let text = bundle_text(alloc, seed, &bundle, err)?;
    match write_output(&text, out, err) {
        Ok(()) => Ok(()),
        Err(_) => Err(RunError::Failed),
    }
}

/// The full file of a bundle's configuration over its tree. Reports the notices, or the fault of the bundle.
fn bundle_text<E: Messages>(
    alloc: Global,
    seed: Seed,
    bundle: &[u8],
    err: &mut E,
) -> Result<Vec<u8>, RunError>
    ensures ok { IfOk result (λ text. (notices : List ErrorLine) × BundleHasOutput bundle.now text.items notices × TakesLines (E.taken err.old) (E.failures err.old) notices (E.taken err.new) (E.failures err.new)) }
    ensures unfailed { result ≢ Err RunError.Failed }
    ensures stopped { IfErr result (λ stop. (lines : List ErrorLine) × StopsInBundle bundle.now (status_of stop) lines × TakesLines (E.taken err.old) (E.failures err.old) lines (E.taken err.new) (E.failures err.new)) }
{
    let (tree, configuration) = split_bundle(bundle);
    let settled = bundle_tree(alloc, seed, tree, err)?;
    let text = full_over(alloc, &settled, configuration, err);
    drop(settled);
    text
}

/// The settled tree of a bundle, whose one file is `Kconfig`. Reports why it is refused.
fn bundle_tree<E: Messages>(
    alloc: Global,
    seed: Seed,
    tree: &[u8],
    err: &mut E,
) -> Result<Settled, RunError>
    ensures accepted { IfOk result (λ settled. AreAccepted (bundle_files tree.now) (codes "Kconfig") (tree_of_settled settled)) }
    ensures profile { IfOk result (λ settled. profile_of settled ≡ Present) }
    ensures unreported { OnOk result (TakesLines (E.taken err.old) (E.failures err.old) [] (E.taken err.new) (E.failures err.new)) }
    ensures stopped { IfErr result (λ stop. (lines : List ErrorLine) × StopsAtTexts (bundle_files tree.now) (bundle_files tree.now) (codes "Kconfig") (status_of stop) lines × TakesLines (E.taken err.old) (E.failures err.old) lines (E.taken err.new) (E.failures err.new)) }
{
    let mut texts = Texts::with_seed(alloc, seed);
    texts.insert("Kconfig", tree)?;
    let read = read_texts(alloc, &texts, "Kconfig");
    let names = FileNames::of_texts(&texts);
    settled_tree(alloc, &names, "Kconfig", read, Profile::Present, err)
}

/// The full file of a bundle's configuration over a settled tree, in the plain format. Reports the configuration's
/// notices, or its fault.
fn full_over<E: Messages>(
    alloc: Global,
    settled: &Settled,
    configuration: &[u8],
    err: &mut E,
) -> Result<Vec<u8>, RunError>
    ensures ok { IfOk result (λ text. (meanings : List (List LineMeaning)) × (values : List UnitValue) × Resolve (bundle_content configuration.now) (record bundle_settings { profile = profile_of settled.now }) (tree_of_settled settled.now) (codes "config" ∷ []) meanings values × (text.items ≡ full_file plain_format (tree_of_settled settled.now) values) × TakesLines (E.taken err.old) (E.failures err.old) (notice_lines (tree_of_settled settled.now) (codes "config" ∷ []) meanings) (E.taken err.new) (E.failures err.new)) }
    ensures unfailed { result ≢ Err RunError.Failed }
    ensures stopped { IfErr result (λ stop. (lines : List ErrorLine) × StopsAmongFiles (bundle_content configuration.now) plain_format false (tree_of_settled settled.now) (codes "config" ∷ []) (status_of stop) lines × TakesLines (E.taken err.old) (E.failures err.old) lines (E.taken err.new) (E.failures err.new)) }
{
    let format = Format::plain();
    let mut reader = MemoryReader::new(configuration);
    let fragment = load(alloc, settled, &format, "config", &mut reader, err)?;
    let config = Config::of(alloc, settled, &fragment);
    drop(fragment);
    let config = config?;
    let text = full_text(alloc, &config, &format);
    drop(config);
    Ok(text?)
}
