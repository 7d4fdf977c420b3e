//! The members of the JSON object that explains a symbol.
ghost use Rattle.std.specs.Prelude.{◌≡◌, ◌<◌, ◌∷◌, ◌++◌, [], ℕ, List, length, option_map, codes, OnOk};
ghost use Rattle.json.specs.Json.{string as text_of_json};
ghost use Rattle.json.specs.Tree.{json_tokens};
ghost use Rattle.kc_tree_model.specs.TreeLookup.{unit_of};
ghost use Rattle.kc_tree_model.specs.Blocks.{Group};
ghost use Rattle.kc_tree.specs.between.Views.{symbol_view, SymbolFits};
ghost use Rattle.kc_dotconfig_model.specs.ConfigLines.{LineMeaning};
ghost use Rattle.kc_config.specs.ConfigStates.{tree_in};
ghost use Rattle.kc_evaluation.specs.checker.ValuationView.{valuation_tree};
ghost use Rattle.kc_reasons_model.specs.Reasons.{name_of_symbol};
ghost use Rattle.kc_reasons.specs.between.ReasonsView.{reasons_view};
ghost use Rattle.kc_symbol_lines.specs.between.LinesView.{position_view, symbol_lines_view};
ghost use Rattle.kc_located_reasons.specs.between.PartsView.{ArePartsThere};
ghost use Rattle.kc_explanation.specs.between.ReasonPlacesView.{places_view};
ghost use Rattle.kc_explanation.specs.checker.Contexts.{exprs_of, tree_of, values_of};
ghost use Rattle.kmin_messages.specs.between.MessageViews.{AppendsTokens};
ghost use Rattle.kmin_explain_records.specs.ReasonWords.{hindrance_word, lift_of_case};
ghost use Rattle.kmin_records.specs.JsonValues.{or_null, object_of};
ghost use Rattle.kmin_explain_records.specs.SymbolRecords.{position_members, given_members, asked_members, lacking_members, forcing_members};
ghost use Rattle.kmin_explain.specs.between.Sources.{config_of, AreSourcesOf, sources_model};
ghost use Rattle.kmin_records.specs.between.RecordTokens.{member_tokens, list_tokens};

use super::asked_members::write_asked_list;
use super::forcing_members::{write_forcing_list, write_symbol};
use super::needed_members::{write_alternatives, write_needs, write_position};
use super::reason_words::{case_word, hindrance_word, lift_of_case};
use json::Writer;
use kc_evaluation::Valuation;
use kc_explanation::{Context, ReasonPlaces, is_without_prompt, name_of};
use kc_reasons::{Case, Hindrance, SymbolReasons};
use kc_symbol_lines::{Position, SymbolLines};
use kc_tree::{Sym, Symbol};
use kc_value::Text;
use kmin_explain::{ExplainedSymbol, Sources};
use kmin_records::{write_optional, write_text};
use std::alloc::AllocError;

/// Writes the name of the selected member of a choice, or null.
fn write_chosen(
    writer: &mut Writer,
    under: &Valuation<'_>,
    chosen: Option<Sym>,
) -> Result<(), AllocError>
    ensures { OnOk result (AppendsTokens writer.old writer.new (json_tokens (or_null (λ m. text_of_json (name_of_symbol (valuation_tree under.now) m)) chosen))) }
{
    match chosen {
        None => writer.null(),
        Some(m) => writer.string(name_of(under, m)),
    }
}

/// Writes a place in the tree as an object.
fn write_position_object(
    writer: &mut Writer,
    paths: &[Text],
    at: Position,
) -> Result<(), AllocError>
    ensures { OnOk result (AppendsTokens writer.old writer.new (json_tokens (object_of (position_members paths.now (position_view at))))) }
{
    writer.begin_object()?;
    write_position(writer, paths, at)?;
    writer.end_object()
}

/// Writes a place in the tree as an object, or null if there is none.
fn write_given_at(
    writer: &mut Writer,
    paths: &[Text],
    at: Option<Position>,
) -> Result<(), AllocError>
    ensures { OnOk result (AppendsTokens writer.old writer.new (json_tokens (or_null (λ p. object_of (position_members paths.now p)) (option_map position_view at)))) }
{
    match at {
        None => writer.null(),
        Some(at) => write_position_object(writer, paths, at),
    }
}

/// Writes what hinders a user value, or null.
fn write_hindrance(writer: &mut Writer, hindrance: Option<Hindrance>) -> Result<(), AllocError>
    ensures { OnOk result (AppendsTokens writer.old writer.new (json_tokens (or_null (λ h. text_of_json (hindrance_word h)) hindrance))) }
{
    match hindrance {
        None => writer.null(),
        Some(h) => writer.string(hindrance_word(h)),
    }
}

/// Writes the members `lift`, `chosen` and `given_at`.
fn write_case_details(
    writer: &mut Writer,
    by: &Context<'_>,
    chosen: Option<Sym>,
    case: Case,
    at: Option<Position>,
) -> Result<(), AllocError>
    ensures { OnOk result (AppendsTokens writer.old writer.new (list_tokens ((codes "lift", or_null text_of_json (lift_of_case case)) ∷ (codes "chosen", or_null (λ m. text_of_json (name_of_symbol (tree_of by.now) m)) chosen) ∷ (codes "given_at", or_null (λ p. object_of (position_members by.now.paths.now p)) (option_map position_view at)) ∷ []))) }
{
    write_optional(writer, "lift", lift_of_case(case))?;
    writer.key("chosen")?;
    write_chosen(writer, by.under, chosen)?;
    writer.key("given_at")?;
    write_given_at(writer, by.paths, at)
}

/// Writes the member `defined_at`.
fn write_defined_at(writer: &mut Writer, paths: &[Text], at: Position) -> Result<(), AllocError>
    ensures { OnOk result (AppendsTokens writer.old writer.new (member_tokens (codes "defined_at", object_of (position_members paths.now (position_view at))))) }
{
    writer.key("defined_at")?;
    write_position_object(writer, paths, at)
}

/// Writes the members that have the name and value of symbol `s`, the place of its first definition, and what gives the value.
pub(crate) fn write_given(
    writer: &mut Writer,
    by: &Context<'_>,
    s: Sym,
    defined_at: Position,
    chosen: Option<Sym>,
    case: Case,
    at: Option<Position>,
) -> Result<(), AllocError>
    requires there { s < length (tree_of by.now).symbols }
    ensures { OnOk result (AppendsTokens writer.old writer.new (list_tokens (given_members by.now.strings by.now.paths.now (tree_of by.now) (values_of by.now) s (position_view defined_at) chosen case (option_map position_view at)))) }
{
    write_symbol(writer, by, s)?;
    write_defined_at(writer, by.paths, defined_at)?;
    write_text(writer, "case", case_word(case))?;
    write_case_details(writer, by, chosen, case, at)
}

/// Writes the members `asked` and `hindrance`.
pub(crate) fn write_asked_members(
    writer: &mut Writer,
    by: &Sources<'_>,
    found: &ExplainedSymbol,
) -> Result<(), AllocError>
    requires unit { found.now.symbol.unit ≡ unit_of (tree_in (config_of by.now)) found.now.symbol.s }
    ensures { (read : List Group) (meanings : List (List LineMeaning)) → AreSourcesOf by.now read meanings → OnOk result (AppendsTokens writer.old writer.new (list_tokens (asked_members (sources_model by.now read meanings) found.now.symbol.s found.now.symbol.kind found.now.reasons.case found.now.reasons.hindrance))) }
{
    writer.key("asked")?;
    write_asked_list(writer, by, found)?;
    writer.key("hindrance")?;
    write_hindrance(writer, found.reasons.hindrance)
}

/// Writes the members `needs` and `unmet`.
pub(crate) fn write_lacking(
    writer: &mut Writer,
    by: &Context<'_>,
    symbol: &Symbol<'_>,
    hindrance: Option<Hindrance>,
    places: &ReasonPlaces,
) -> Result<(), AllocError>
    requires needs { ArePartsThere (exprs_of by.now) places.now.needs.items }
    requires unmet { ArePartsThere (exprs_of by.now) places.now.unmet.items }
    ensures { OnOk result (AppendsTokens writer.old writer.new (list_tokens (lacking_members by.now.strings by.now.paths.now (tree_of by.now) (values_of by.now) (symbol_view (exprs_of by.now) symbol.now) hindrance (places_view (exprs_of by.now) places.now)))) }
{
    let without_prompt = is_without_prompt(hindrance, symbol);
    writer.key("needs")?;
    write_needs(writer, by, without_prompt, &places.needs)?;
    writer.key("unmet")?;
    write_alternatives(writer, by, &places.unmet)
}

/// Writes the members `selected_by` and `implied_by`.
pub(crate) fn write_forcing_members(
    writer: &mut Writer,
    by: &Context<'_>,
    symbol: &Symbol<'_>,
    lines: &SymbolLines,
    reasons: &SymbolReasons,
) -> Result<(), AllocError>
    requires fits { SymbolFits (exprs_of by.now) (length (tree_of by.now).symbols) symbol.now }
    ensures { OnOk result (AppendsTokens writer.old writer.new (list_tokens (forcing_members by.now.strings by.now.paths.now (tree_of by.now) (values_of by.now) (symbol_view (exprs_of by.now) symbol.now) (symbol_lines_view (exprs_of by.now) lines.now) (reasons_view (exprs_of by.now) reasons.now)))) }
{
    writer.key("selected_by")?;
    write_forcing_list(
        writer,
        by,
        symbol.selectors,
        &lines.selectors,
        &reasons.selected_by,
    )?;
    writer.key("implied_by")?;
    write_forcing_list(
        writer,
        by,
        symbol.impliers,
        &lines.impliers,
        &reasons.implied_by,
    )
}
