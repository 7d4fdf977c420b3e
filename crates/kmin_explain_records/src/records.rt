//! What `explain` writes as lines of JSON.
ghost use Rattle.std.specs.Prelude.{◌≡◌, ◌<◌, ◌++◌, Bool, List, All, Some, length, slice_get, option_map, IfOk, OnOk};
ghost use Rattle.kc_tree_model.specs.Trees.{Symbol as ModelSymbol};
ghost use Rattle.kc_tree_model.specs.TreeLookup.{unit_of};
ghost use Rattle.kc_tree_model.specs.Blocks.{Group};
ghost use Rattle.kc_tree.specs.between.Views.{symbol_view, SymbolFits};
ghost use Rattle.kc_dotconfig_model.specs.ConfigLines.{LineMeaning};
ghost use Rattle.kc_rules.specs.between.SettledViews.{tree_model_of};
ghost use Rattle.kc_config.specs.ConfigStates.{tree_in};
ghost use Rattle.kc_reasons.specs.between.ReasonsView.{reasons_view};
ghost use Rattle.kc_symbol_lines.specs.between.LinesView.{position_view, symbol_lines_view};
ghost use Rattle.kc_evaluation.specs.checker.ValuationView.{valuation_tree, valuation_exprs, valuation_values};
ghost use Rattle.kc_located_reasons.specs.between.PartsView.{ArePartsThere};
ghost use Rattle.kc_explanation.specs.between.ReasonPlacesView.{places_view};
ghost use Rattle.kmin_messages.specs.between.MessageViews.{AppendsTokens};
ghost use Rattle.kmin_explain_records.specs.SymbolRecords.{given_members, asked_members, lacking_members, forcing_members, explained_as_json, explained_as_json_at, records_in};
ghost use Rattle.kmin_explain_records.specs.RecordLaws.{RecordsAreReadBack};
ghost use Rattle.kmin_explain.specs.between.Sources.{config_of, AreReadSources, AreSourcesOf, sources_model};
ghost use Rattle.kmin_explain.specs.between.ExplainedSymbols.{IsWithin, IsExplained};
ghost use Rattle.kmin_records.specs.between.RecordTokens.{list_tokens};

use super::record_members::{
    write_asked_members, write_forcing_members, write_given, write_lacking,
};
use json::Writer;
use kc_config_reasons::valuation;
use kc_evaluation::Valuation;
use kc_explanation::Context;
use kc_symbol_lines::Position;
use kc_tree::{Sym, Symbol};
use kmin_explain::{ExplainedSymbol, Sources, explained_symbol};
use kmin_records::{end_record, new_record};
use std::alloc::AllocError;

/// Writes all members for a symbol that is explained, by these values of symbols.
fn write_members(
    writer: &mut Writer,
    by: &Sources<'_>,
    under: &Valuation<'_>,
    symbol: &Symbol<'_>,
    found: &ExplainedSymbol,
) -> Result<(), AllocError>
    requires there { found.now.symbol.s < length (valuation_tree under.now).symbols }
    requires fits { SymbolFits (valuation_exprs under.now) (length (valuation_tree under.now).symbols) symbol.now }
    requires needs { ArePartsThere (valuation_exprs under.now) found.now.places.needs.items }
    requires unmet { ArePartsThere (valuation_exprs under.now) found.now.places.unmet.items }
    requires unit { found.now.symbol.unit ≡ unit_of (tree_in (config_of by.now)) found.now.symbol.s }
    ensures { (read : List Group) (meanings : List (List LineMeaning)) → AreSourcesOf by.now read meanings → OnOk result (AppendsTokens writer.old writer.new (list_tokens
        (given_members by.now.strings by.now.tree_paths.now (valuation_tree under.now) (valuation_values under.now) found.now.symbol.s (record { file = symbol.now.file; line = symbol.now.line }) found.now.reasons.chosen found.now.reasons.case (option_map position_view found.now.places.given_at)
        ++ (asked_members (sources_model by.now read meanings) found.now.symbol.s found.now.symbol.kind found.now.reasons.case found.now.reasons.hindrance
        ++ (lacking_members by.now.strings by.now.tree_paths.now (valuation_tree under.now) (valuation_values under.now) (symbol_view (valuation_exprs under.now) symbol.now) found.now.reasons.hindrance (places_view (valuation_exprs under.now) found.now.places)
        ++ forcing_members by.now.strings by.now.tree_paths.now (valuation_tree under.now) (valuation_values under.now) (symbol_view (valuation_exprs under.now) symbol.now) (symbol_lines_view (valuation_exprs under.now) found.now.lines) (reasons_view (valuation_exprs under.now) found.now.reasons)))))) }
{
    let reasons = &found.reasons;
    let defined_at = Position {
        file: symbol.file,
        line: symbol.line,
    };
    let context = &Context {
        alloc: by.alloc,
        under,
        strings: by.strings,
        paths: by.tree_paths,
    };
    write_given(
        writer,
        context,
        found.symbol.s,
        defined_at,
        reasons.chosen,
        reasons.case,
        found.places.given_at,
    )?;
    write_asked_members(writer, by, found)?;
    write_lacking(writer, context, symbol, reasons.hindrance, &found.places)?;
    write_forcing_members(writer, context, symbol, &found.lines, reasons)
}

/// The line of JSON for a symbol.
fn record_of(by: &Sources<'_>, found: &ExplainedSymbol) -> Result<Vec<u8>, AllocError>
    requires within { IsWithin by.now found.now }
    ensures { (read : List Group) (meanings : List (List LineMeaning)) (all : Bool) (symbol : ModelSymbol) → AreSourcesOf by.now read meanings
        → slice_get (tree_in (config_of by.now)).symbols found.now.symbol.s ≡ Some symbol
        → IsExplained (sources_model by.now read meanings) (tree_model_of (config_of by.now).system).exprs all symbol found.now
        → IfOk result (λ line. line.items ≡ explained_as_json (sources_model by.now read meanings) all found.now.symbol.s symbol) }
{
    let under = &valuation(by.config);
    let symbol = &under.rules.tree.symbol(found.symbol.s);
    let mut writer = new_record(by.alloc)?;
    write_members(&mut writer, by, under, symbol, found)?;
    end_record(writer)
}

/// Appends the line of JSON for symbol `s`.
fn push_explained_record(
    out: &mut Vec<u8>,
    by: &Sources<'_>,
    all: bool,
    s: Sym,
) -> Result<(), AllocError>
    requires read { AreReadSources by.now }
    requires there { s < length (tree_in (config_of by.now)).symbols }
    ensures { (read : List Group) (meanings : List (List LineMeaning)) → AreSourcesOf by.now read meanings → OnOk result (out.new.items ≡ out.old.items ++ explained_as_json_at (sources_model by.now read meanings) all s) }
{
    let found = explained_symbol(by, all, s)?;
    let line = record_of(by, &found)?;
    out.extend_from_slice(&line)
}

/// A line of JSON for each of some symbols, in their order, with what `explanation_of` says of it: its members are `name`, `value`,
/// `defined_at`, `case`, `lift`, `chosen`, `given_at`, `asked`, `hindrance`, `needs`, `unmet`, `selected_by` and `implied_by`. With `all`
/// every select and imply is listed, also those that don't decide. An `Err` means out of memory.
pub fn records_of(by: &Sources<'_>, all: bool, symbols: &[Sym]) -> Result<Vec<u8>, AllocError>
    requires read { AreReadSources by.now }
    requires there { All (λ s. s < length (tree_in (config_of by.now)).symbols) symbols.now }
    ensures { (read : List Group) (meanings : List (List LineMeaning)) → AreSourcesOf by.now read meanings → IfOk result (λ text. text.items ≡ records_in (sources_model by.now read meanings) all symbols.now) }
{
    let mut text = Vec::new(by.alloc);
    for s in symbols {
        push_explained_record(&mut text, by, all, *s)?;
    }
    Ok(text)
}

/// The line of JSON for a symbol is one object, which is read back as its members, and has a newline at its end alone.
pub fn records_are_read_back()
    ensures { RecordsAreReadBack }
{}
