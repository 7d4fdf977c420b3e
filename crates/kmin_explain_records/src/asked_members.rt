//! The JSON of what configuration files ask of a symbol.
ghost use Rattle.std.specs.Prelude.{◌≡◌, ◌∷◌, [], ℕ, List, Some, map, flat_map, unwrap_or, option_map, option_to_list, codes, OnOk};
ghost use Rattle.json.specs.Tree.{json_tokens};
ghost use Rattle.kc_tree_model.specs.TreeLookup.{unit_of};
ghost use Rattle.kc_tree_model.specs.Blocks.{Group};
ghost use Rattle.kc_dotconfig_model.specs.ConfigLines.{LineMeaning};
ghost use Rattle.kc_config.specs.ConfigStates.{tree_in};
ghost use Rattle.kc_config_reasons.specs.between.Places.{place_view, overridden_view};
ghost use Rattle.kc_explanation.specs.Asked.{asked_value};
ghost use Rattle.kmin_messages.specs.between.MessageViews.{AppendsTokens};
ghost use Rattle.kmin_records.specs.JsonValues.{text_json, array_of, place_members};
ghost use Rattle.kmin_explain_records.specs.SymbolRecords.{asked_json, overridden_json, deciding_json, asked_list};
ghost use Rattle.kmin_explain.specs.between.Sources.{config_of, AreSourcesOf, sources_model};
ghost use Rattle.kmin_records.specs.between.RecordTokens.{list_tokens};

use json::Writer;
use kc_config_reasons::{
    AskingLine, AskingPlace, Overridden, deciding_line, overridden_lines, valuation,
};
use kc_explanation::{push_asked_value, push_outcome};
use kmin_explain::{AskedSymbol, ExplainedSymbol, Sources, path_at, push_overridden_by};
use kmin_records::{write_bytes, write_place};
use std::alloc::AllocError;

/// Writes the member `value` of what a line asks of a symbol.
fn write_asked_value(
    writer: &mut Writer,
    by: &Sources<'_>,
    symbol: &AskedSymbol,
    line: &AskingLine,
) -> Result<(), AllocError>
    ensures { OnOk result (AppendsTokens writer.old writer.new (list_tokens ((codes "value", text_json (asked_value by.now.strings (tree_in (config_of by.now)) symbol.now.s symbol.now.kind line.now.user)) ∷ []))) }
{
    let under = valuation(by.config);
    let mut text = Vec::new(by.alloc);
    push_asked_value(
        &mut text,
        &under,
        by.strings,
        symbol.s,
        symbol.kind,
        &line.user,
    )?;
    write_bytes(by.alloc, writer, "value", &text)
}

/// Writes a line of a configuration file, and what became of it, as an object.
fn write_asked(
    writer: &mut Writer,
    by: &Sources<'_>,
    symbol: &AskedSymbol,
    place: AskingPlace<'_>,
    outcome: &[u8],
) -> Result<(), AllocError>
    ensures { (read : List Group) (meanings : List (List LineMeaning)) → OnOk result (AppendsTokens writer.old writer.new (json_tokens (asked_json (sources_model by.now read meanings) symbol.now.s symbol.now.kind (place_view place.entry) outcome.now))) }
{
    writer.begin_object()?;
    write_place(
        writer,
        path_at(by.file_paths, place.file),
        place.line.number as u64,
    )?;
    write_asked_value(writer, by, symbol, place.line)?;
    write_bytes(by.alloc, writer, "outcome", outcome)?;
    writer.end_object()
}

/// Writes a line that a later file overrides.
fn write_overridden(
    writer: &mut Writer,
    by: &Sources<'_>,
    symbol: &AskedSymbol,
    found: &Overridden<'_>,
) -> Result<(), AllocError>
    ensures { (read : List Group) (meanings : List (List LineMeaning)) → OnOk result (AppendsTokens writer.old writer.new (json_tokens (overridden_json (sources_model by.now read meanings) symbol.now.s symbol.now.kind (overridden_view found.now)))) }
{
    let mut outcome = Vec::new(by.alloc);
    push_overridden_by(&mut outcome, by, found.by)?;
    write_asked(writer, by, symbol, found.place, &outcome)
}

/// Writes each line that a later file overrides.
fn write_each_overridden(
    writer: &mut Writer,
    by: &Sources<'_>,
    symbol: &AskedSymbol,
    found: &[Overridden<'_>],
) -> Result<(), AllocError>
    ensures { (read : List Group) (meanings : List (List LineMeaning)) → OnOk result (AppendsTokens writer.old writer.new (flat_map (λ o. json_tokens (overridden_json (sources_model by.now read meanings) symbol.now.s symbol.now.kind (overridden_view o))) found.now)) }
{
    for one in found {
        write_overridden(writer, by, symbol, one)?;
    }
    Ok(())
}

/// Writes the line that counts, as an object.
fn write_counting(
    writer: &mut Writer,
    by: &Sources<'_>,
    found: &ExplainedSymbol,
    place: AskingPlace<'_>,
) -> Result<(), AllocError>
    ensures { (read : List Group) (meanings : List (List LineMeaning)) → OnOk result (AppendsTokens writer.old writer.new (flat_map json_tokens (deciding_json (sources_model by.now read meanings) found.now.symbol.s found.now.symbol.kind found.now.reasons.case found.now.reasons.hindrance (Some (place_view place.entry))))) }
{
    let mut outcome = Vec::new(by.alloc);
    push_outcome(&mut outcome, found.reasons.case, found.reasons.hindrance)?;
    write_asked(writer, by, &found.symbol, place, &outcome)
}

/// Writes the line that counts, if there is one.
fn write_deciding(
    writer: &mut Writer,
    by: &Sources<'_>,
    found: &ExplainedSymbol,
    place: Option<AskingPlace<'_>>,
) -> Result<(), AllocError>
    ensures { (read : List Group) (meanings : List (List LineMeaning)) → OnOk result (AppendsTokens writer.old writer.new (flat_map json_tokens (deciding_json (sources_model by.now read meanings) found.now.symbol.s found.now.symbol.kind found.now.reasons.case found.now.reasons.hindrance (option_map place_view place.entry)))) }
{
    match place {
        None => Ok(()),
        Some(place) => write_counting(writer, by, found, place),
    }
}

/// Writes what the configuration files ask of a symbol as an array: of each file whose last line on it a later one overrides that
/// line, then the line that counts, by what gives the value and what hinders the assigned one.
pub(crate) fn write_asked_list(
    writer: &mut Writer,
    by: &Sources<'_>,
    found: &ExplainedSymbol,
) -> Result<(), AllocError>
    requires unit { found.now.symbol.unit ≡ unit_of (tree_in (config_of by.now)) found.now.symbol.s }
    ensures { (read : List Group) (meanings : List (List LineMeaning)) → AreSourcesOf by.now read meanings → OnOk result (AppendsTokens writer.old writer.new (json_tokens (array_of (asked_list (sources_model by.now read meanings) found.now.symbol.s found.now.symbol.kind found.now.reasons.case found.now.reasons.hindrance)))) }
{
    let symbol = &found.symbol;
    let overridden = overridden_lines(by.alloc, by.files, symbol.unit, symbol.s)?;
    writer.begin_array()?;
    write_each_overridden(writer, by, symbol, &overridden)?;
    let place = deciding_line(by.files, symbol.unit, symbol.s);
    write_deciding(writer, by, found, place)?;
    writer.end_array()
}
