//! The lines of text that say what configuration files ask of a symbol, and what became of it.
ghost use Rattle.std.specs.Prelude.{◌≡◌, ◌++◌, [], ℕ, List, Some, map, flat_map, slice_get, unwrap_or, option_map, codes, OnOk};
ghost use Rattle.std.specs.Borrow.{Bor};
ghost use Rattle.kc_tree_model.specs.TreeLookup.{unit_of};
ghost use Rattle.kc_tree_model.specs.Blocks.{Group};
ghost use Rattle.kc_dotconfig_model.specs.ConfigLines.{LineMeaning};
ghost use Rattle.kc_config.specs.ConfigStates.{tree_in};
ghost use Rattle.kc_config_reasons.specs.between.Places.{place_view, overridden_view};
ghost use Rattle.kc_explanation.specs.Asked.{line_place};
ghost use Rattle.kmin_explain.specs.Explanations.{path_of_file, asks_at, overridden_line, asked_line, asked_lines};
ghost use Rattle.kmin_explain.specs.between.Sources.{config_of, AreSourcesOf, sources_model};

use super::asked_symbols::AskedSymbol;
use super::explained_symbols::ExplainedSymbol;
use super::sources::Sources;
use kc_config_reasons::{AskingPlace, Overridden, deciding_line, overridden_lines, valuation};
use kc_explanation::{push_asks, push_line_place, push_outcome};
use std::alloc::AllocError;

/// The path of this number; empty if there is none.
pub fn path_at<'a>(paths: &[&'a str], file: usize) -> &'a str
    ensures { result.now ≡ unwrap_or (slice_get (map (λ (path : Bor (List ℕ)). path.now) paths.now) file) [] }
{
    match paths.get(file) {
        Some(path) => path,
        None => "",
    }
}

/// Appends `PATH:LINE asks VALUE: `, of a line of a configuration file, after the space of an inner line.
fn push_asks_at(
    out: &mut Vec<u8>,
    by: &Sources<'_>,
    symbol: &AskedSymbol,
    place: AskingPlace<'_>,
) -> Result<(), AllocError>
    ensures { (read : List Group) (meanings : List (List LineMeaning)) → OnOk result (out.new.items ≡ out.old.items ++ asks_at (sources_model by.now read meanings) symbol.now.s symbol.now.kind (place_view place.entry)) }
{
    let under = valuation(by.config);
    let path = path_at(by.file_paths, place.file);
    push_asks(
        out,
        &under,
        by.strings,
        symbol.s,
        symbol.kind,
        path,
        place.line.number,
        &place.line.user,
    )
}

/// Appends `overridden by PATH:LINE`, of a line of a later configuration file. An `Err` means out of memory.
pub fn push_overridden_by(
    out: &mut Vec<u8>,
    by: &Sources<'_>,
    other: AskingPlace<'_>,
) -> Result<(), AllocError>
    ensures { (read : List Group) (meanings : List (List LineMeaning)) → OnOk result (out.new.items ≡ out.old.items ++ (codes "overridden by " ++ line_place (path_of_file (sources_model by.now read meanings) (place_view other.entry).file) (place_view other.entry).line.number)) }
{
    out.extend_from_slice(b"overridden by ")?;
    push_line_place(out, path_at(by.file_paths, other.file), other.line.number)
}

/// Appends the text for a line that a later file overrides.
fn push_overridden_line(
    out: &mut Vec<u8>,
    by: &Sources<'_>,
    symbol: &AskedSymbol,
    found: &Overridden<'_>,
) -> Result<(), AllocError>
    ensures { (read : List Group) (meanings : List (List LineMeaning)) → OnOk result (out.new.items ≡ out.old.items ++ overridden_line (sources_model by.now read meanings) symbol.now.s symbol.now.kind (overridden_view found.now)) }
{
    out.extend_from_slice(b"  ")?;
    push_asks_at(out, by, symbol, found.place)?;
    push_overridden_by(out, by, found.by)?;
    out.extend_from_slice(b"\n")?;
    Ok(())
}

/// Appends the text for each line that a later file overrides.
fn push_overridden_lines(
    out: &mut Vec<u8>,
    by: &Sources<'_>,
    symbol: &AskedSymbol,
    found: &[Overridden<'_>],
) -> Result<(), AllocError>
    ensures { (read : List Group) (meanings : List (List LineMeaning)) → OnOk result (out.new.items ≡ out.old.items ++ flat_map (λ o. overridden_line (sources_model by.now read meanings) symbol.now.s symbol.now.kind (overridden_view o)) found.now) }
{
    for one in found {
        push_overridden_line(out, by, symbol, one)?;
    }
    Ok(())
}

/// Appends the text for the line that counts.
fn push_place(
    out: &mut Vec<u8>,
    by: &Sources<'_>,
    found: &ExplainedSymbol,
    place: AskingPlace<'_>,
) -> Result<(), AllocError>
    ensures { (read : List Group) (meanings : List (List LineMeaning)) → OnOk result (out.new.items ≡ out.old.items ++ asked_line (sources_model by.now read meanings) found.now.symbol.s found.now.symbol.kind found.now.reasons.case found.now.reasons.hindrance (Some (place_view place.entry))) }
{
    out.extend_from_slice(b"  ")?;
    push_asks_at(out, by, &found.symbol, place)?;
    push_outcome(out, found.reasons.case, found.reasons.hindrance)?;
    out.extend_from_slice(b"\n")?;
    Ok(())
}

/// Appends the text for the line that counts, if there is one.
fn push_asked_line(
    out: &mut Vec<u8>,
    by: &Sources<'_>,
    found: &ExplainedSymbol,
    place: Option<AskingPlace<'_>>,
) -> Result<(), AllocError>
    ensures { (read : List Group) (meanings : List (List LineMeaning)) → OnOk result (out.new.items ≡ out.old.items ++ asked_line (sources_model by.now read meanings) found.now.symbol.s found.now.symbol.kind found.now.reasons.case found.now.reasons.hindrance (option_map place_view place.entry)) }
{
    match place {
        None => out.extend_from_slice(b""),
        Some(place) => push_place(out, by, found, place),
    }
}

/// Appends what the configuration files ask of a symbol: of each file whose last line on it a later one overrides that line, then the
/// line that counts, by what gives the value and what hinders the assigned one.
pub(crate) fn push_asked_lines(
    out: &mut Vec<u8>,
    by: &Sources<'_>,
    found: &ExplainedSymbol,
) -> Result<(), AllocError>
    requires unit { found.now.symbol.unit ≡ unit_of (tree_in (config_of by.now)) found.now.symbol.s }
    ensures { (read : List Group) (meanings : List (List LineMeaning)) → AreSourcesOf by.now read meanings → OnOk result (out.new.items ≡ out.old.items ++ asked_lines (sources_model by.now read meanings) found.now.symbol.s found.now.symbol.kind found.now.reasons.case found.now.reasons.hindrance) }
{
    let symbol = &found.symbol;
    let overridden = overridden_lines(by.alloc, by.files, symbol.unit, symbol.s)?;
    push_overridden_lines(out, by, symbol, &overridden)?;
    let place = deciding_line(by.files, symbol.unit, symbol.s);
    push_asked_line(out, by, found, place)
}
