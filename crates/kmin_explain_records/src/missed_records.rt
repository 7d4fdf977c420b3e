//! The records of `missed`.
ghost use Rattle.std.specs.Prelude.{◌≡◌, ◌<◌, ◌++◌, ◌∷◌, [], ◌||◌, false, List, All, length, IfOk, OnOk, if◌then◌else◌};
ghost use Rattle.kc_tree_model.specs.Blocks.{Group};
ghost use Rattle.kc_dotconfig_model.specs.ConfigLines.{LineMeaning};
ghost use Rattle.kc_dotconfig_model.specs.MissedAssignments.{missed};
ghost use Rattle.kc_config.specs.ConfigStates.{tree_in};
ghost use Rattle.kmin_explain.specs.between.Sources.{config_of, AreReadSources, AreSourcesOf, sources_model};
ghost use Rattle.kmin_explain_records.specs.ListedMissed.{is_overridden, listed_missed};
ghost use Rattle.kmin_explain_records.specs.SymbolRecords.{records_in};

use crate::records::records_of;
use kc_config_reasons::overridden_lines;
use kc_tree::Sym;
use kmin_explain::{Sources, SymbolsOnce};
use std::alloc::AllocError;

/// Whether the last line on symbol `s` of a configuration file asks for another value than that of a later file.
fn is_overridden(by: &Sources<'_>, s: Sym) -> Result<bool, AllocError>
    requires there { s < length (tree_in (config_of by.now)).symbols }
    ensures { (read : List Group) (meanings : List (List LineMeaning)) → AreSourcesOf by.now read meanings → IfOk result (λ found. found ≡ is_overridden (sources_model by.now read meanings) s) }
{
    let unit = by.config.settled().tree().unit_of(s);
    let found = overridden_lines(by.alloc, by.files, unit, s)?;
    let count = found.len();
    Ok(count > 0)
}

/// Whether symbol `s` is missed, or a line on it is overridden.
fn is_listed(by: &Sources<'_>, is_missed: bool, s: Sym) -> Result<bool, AllocError>
    requires there { s < length (tree_in (config_of by.now)).symbols }
    ensures { (read : List Group) (meanings : List (List LineMeaning)) → AreSourcesOf by.now read meanings → IfOk result (λ listed. listed ≡ (is_missed || is_overridden (sources_model by.now read meanings) s)) }
{
    if is_missed {
        return Ok(true);
    }
    is_overridden(by, s)
}

/// Appends symbol `s` to a list, if it is missed or a line on it is overridden.
fn add_if_listed(
    listed: &mut Vec<Sym>,
    by: &Sources<'_>,
    is_missed: bool,
    s: Sym,
) -> Result<(), AllocError>
    requires there { s < length (tree_in (config_of by.now)).symbols }
    requires before { All (λ t. t < length (tree_in (config_of by.now)).symbols) listed.old.items }
    ensures added { (read : List Group) (meanings : List (List LineMeaning)) → AreSourcesOf by.now read meanings → OnOk result (listed.new.items ≡ (if is_missed || is_overridden (sources_model by.now read meanings) s then listed.old.items ++ s ∷ [] else listed.old.items)) }
    ensures there { OnOk result (All (λ t. t < length (tree_in (config_of by.now)).symbols) listed.new.items) }
{
    if is_listed(by, is_missed, s)? {
        listed.push(s)?;
    }
    Ok(())
}

/// The symbols that don't have the values that files assign, which are these, and those on which a line is overridden, in order of
/// first definition.
fn listed_missed(by: &Sources<'_>, symbols: &[Sym]) -> Result<Vec<Sym>, AllocError>
    requires missed { symbols.now ≡ missed (tree_in (config_of by.now)) (config_of by.now).users (config_of by.now).values }
    ensures listed { (read : List Group) (meanings : List (List LineMeaning)) → AreSourcesOf by.now read meanings → IfOk result (λ listed. listed.items ≡ listed_missed (sources_model by.now read meanings)) }
    ensures there { IfOk result (λ listed. All (λ s. s < length (tree_in (config_of by.now)).symbols) listed.items) }
{
    let count = by.config.settled().tree().symbol_count();
    let marks = SymbolsOnce::of(by.alloc, count, symbols)?;
    let mut listed = Vec::new(by.alloc);
    for s in 0..count {
        let is_missed = marks.has(s);
        add_if_listed(&mut listed, by, is_missed, Sym::at(s))?;
    }
    Ok(listed)
}

/// A record for each symbol that doesn't have the value that a file assigns, which are these, and for each on which a line is
/// overridden, in order of first definition. An `Err` means out of memory.
pub fn records_of_missed(by: &Sources<'_>, symbols: &[Sym]) -> Result<Vec<u8>, AllocError>
    requires read { AreReadSources by.now }
    requires missed { symbols.now ≡ missed (tree_in (config_of by.now)) (config_of by.now).users (config_of by.now).values }
    ensures { (read : List Group) (meanings : List (List LineMeaning)) → AreSourcesOf by.now read meanings → IfOk result (λ text. text.items ≡ records_in (sources_model by.now read meanings) false (listed_missed (sources_model by.now read meanings))) }
{
    let listed = listed_missed(by, symbols)?;
    records_of(by, false, &listed)
}
