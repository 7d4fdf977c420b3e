//! The lines of `missed --long`.
ghost use Rattle.std.specs.Prelude.{◌≡◌, ◌<◌, ◌++◌, List, All, Some, length, flat_map, slice_get, IfOk, OnOk, option_map};
ghost use Rattle.kc_tree_model.specs.Blocks.{Group};
ghost use Rattle.kc_dotconfig_model.specs.ConfigLines.{LineMeaning};
ghost use Rattle.kc_tree_model.specs.TreeLookup.{unit_of};
ghost use Rattle.kc_tree_model.specs.Trees.{Symbol as ModelSymbol};
ghost use Rattle.kc_dotconfig_model.specs.MissedAssignments.{missed};
ghost use Rattle.kc_config.specs.ConfigStates.{tree_in};
ghost use Rattle.kc_reasons_model.specs.OverriddenLines.{places_of, overridden};
ghost use Rattle.kc_config_reasons.specs.between.Places.{place_view, overridden_view};
ghost use Rattle.kmin_missed.specs.MissedLines.{asking_front, overridden_row, missed_row, missed_rows, missed_rows_at, missed_lines};
ghost use Rattle.kmin_explain.specs.between.Sources.{config_of, AreReadSources, AreSourcesOf, sources_model};

use crate::causes::push_cause;
use kc_config_reasons::{AskingPlace, Overridden, deciding_line, overridden_lines, valuation};
use kc_explanation::{push_asked_value, push_line_place, push_name};
use kc_tree::Sym;
use kmin_explain::{AskedSymbol, Sources, SymbolsOnce, asked_symbol, path_at, push_overridden_by};
use std::alloc::{AllocError, Global};

/// Appends `PATH:LINE: NAME: ASKED -> `, of a line of a configuration file.
fn push_asking_front(
    out: &mut Vec<u8>,
    by: &Sources<'_>,
    symbol: &AskedSymbol,
    place: AskingPlace<'_>,
) -> Result<(), AllocError>
    ensures { (read : List Group) (meanings : List (List LineMeaning)) → OnOk result (out.new.items ≡ out.old.items ++ asking_front (sources_model by.now read meanings) symbol.now.s symbol.now.kind (place_view place.entry)) }
{
    let under = &valuation(by.config);
    push_line_place(out, path_at(by.file_paths, place.file), place.line.number)?;
    out.extend_from_slice(b": ")?;
    push_name(out, under, symbol.s)?;
    out.extend_from_slice(b": ")?;
    push_asked_value(
        out,
        under,
        by.strings,
        symbol.s,
        symbol.kind,
        &place.line.user,
    )?;
    out.extend_from_slice(b" -> ")?;
    Ok(())
}

/// Appends the row of a line that a later file overrides.
fn push_overridden_row(
    out: &mut Vec<u8>,
    by: &Sources<'_>,
    symbol: &AskedSymbol,
    found: &Overridden<'_>,
) -> Result<(), AllocError>
    ensures { (read : List Group) (meanings : List (List LineMeaning)) → OnOk result (out.new.items ≡ out.old.items ++ overridden_row (sources_model by.now read meanings) symbol.now.s symbol.now.kind (overridden_view found.now)) }
{
    push_asking_front(out, by, symbol, found.place)?;
    push_overridden_by(out, by, found.by)?;
    out.extend_from_slice(b"\n")?;
    Ok(())
}

/// Appends the row of each line that a later file overrides.
fn push_overridden_rows(
    out: &mut Vec<u8>,
    by: &Sources<'_>,
    symbol: &AskedSymbol,
    found: &[Overridden<'_>],
) -> Result<(), AllocError>
    ensures { (read : List Group) (meanings : List (List LineMeaning)) → OnOk result (out.new.items ≡ out.old.items ++ flat_map (λ o. overridden_row (sources_model by.now read meanings) symbol.now.s symbol.now.kind (overridden_view o)) found.now) }
{
    for one in found {
        push_overridden_row(out, by, symbol, one)?;
    }
    Ok(())
}

/// Appends the rows of the lines on a symbol that later files override.
fn push_all_overridden(
    out: &mut Vec<u8>,
    by: &Sources<'_>,
    symbol: &AskedSymbol,
) -> Result<(), AllocError>
    requires unit { symbol.now.unit ≡ unit_of (tree_in (config_of by.now)) symbol.now.s }
    ensures { (read : List Group) (meanings : List (List LineMeaning)) → AreSourcesOf by.now read meanings → OnOk result (out.new.items ≡ out.old.items ++ flat_map (overridden_row (sources_model by.now read meanings) symbol.now.s symbol.now.kind) (overridden (places_of (unit_of (tree_in (config_of by.now)) symbol.now.s) symbol.now.s 0 meanings))) }
{
    let found = overridden_lines(by.alloc, by.files, symbol.unit, symbol.s)?;
    push_overridden_rows(out, by, symbol, &found)
}

/// Appends the row of the line that counts.
fn push_deciding_row(
    out: &mut Vec<u8>,
    by: &Sources<'_>,
    symbol: &AskedSymbol,
    place: AskingPlace<'_>,
) -> Result<(), AllocError>
    requires read { AreReadSources by.now }
    requires there { symbol.now.s < length (tree_in (config_of by.now)).symbols }
    ensures { (read : List Group) (meanings : List (List LineMeaning)) → AreSourcesOf by.now read meanings → OnOk result (out.new.items ≡ out.old.items ++ missed_row (sources_model by.now read meanings) symbol.now.s symbol.now.kind (Some (place_view place.entry))) }
{
    push_asking_front(out, by, symbol, place)?;
    push_cause(out, by, symbol.s)?;
    out.extend_from_slice(b"\n")?;
    Ok(())
}

/// Appends the row of the line that counts, if there is one.
fn push_missed_row(
    out: &mut Vec<u8>,
    by: &Sources<'_>,
    symbol: &AskedSymbol,
    place: Option<AskingPlace<'_>>,
) -> Result<(), AllocError>
    requires read { AreReadSources by.now }
    requires there { symbol.now.s < length (tree_in (config_of by.now)).symbols }
    ensures { (read : List Group) (meanings : List (List LineMeaning)) → AreSourcesOf by.now read meanings → OnOk result (out.new.items ≡ out.old.items ++ missed_row (sources_model by.now read meanings) symbol.now.s symbol.now.kind (option_map place_view place.entry)) }
{
    match place {
        None => out.extend_from_slice(b""),
        Some(place) => push_deciding_row(out, by, symbol, place),
    }
}

/// Appends the rows of symbol `s`, with that of the line that counts where the symbol is missed.
fn push_missed_rows(
    out: &mut Vec<u8>,
    by: &Sources<'_>,
    is_missed: bool,
    s: Sym,
) -> Result<(), AllocError>
    requires read { AreReadSources by.now }
    requires there { s < length (tree_in (config_of by.now)).symbols }
    ensures { (read : List Group) (meanings : List (List LineMeaning)) (symbol : ModelSymbol) → AreSourcesOf by.now read meanings → slice_get (tree_in (config_of by.now)).symbols s ≡ Some symbol → OnOk result (out.new.items ≡ out.old.items ++ missed_rows (sources_model by.now read meanings) is_missed s symbol) }
{
    let asked = &asked_symbol(by, s);
    push_all_overridden(out, by, asked)?;
    if !is_missed {
        return Ok(());
    }
    push_missed_row(out, by, asked, deciding_line(by.files, asked.unit, s))
}

/// The text of `missed --long`: the lines of each symbol, in order of first definition, of which these don't have the values that
/// files assign. An `Err` means out of memory.
pub fn lines_of_missed(by: &Sources<'_>, symbols: &[Sym]) -> Result<Vec<u8>, AllocError>
    requires read { AreReadSources by.now }
    requires missed { symbols.now ≡ missed (tree_in (config_of by.now)) (config_of by.now).users (config_of by.now).values }
    ensures { (read : List Group) (meanings : List (List LineMeaning)) → AreSourcesOf by.now read meanings → IfOk result (λ text. text.items ≡ missed_lines (sources_model by.now read meanings)) }
{
    let count = by.config.settled().tree().symbol_count();
    let marks = SymbolsOnce::of(by.alloc, count, symbols)?;
    let mut text = Vec::new(by.alloc);
    for s in 0..count {
        let is_missed = marks.has(s);
        push_missed_rows(&mut text, by, is_missed, Sym::at(s))?;
    }
    Ok(text)
}
