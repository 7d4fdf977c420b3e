//! The JSON of what selects and implies a symbol.
ghost use Rattle.std.specs.Prelude.{◌≡◌, ◌<◌, ◌∷◌, ◌++◌, [], length, map, flat_map, slice_get, option_map, OnOk, Some, codes};
ghost use Rattle.json.specs.Json.{string as text_of_json};
ghost use Rattle.json.specs.Token.{begin_object};
ghost use Rattle.json.specs.Tree.{json_tokens};
ghost use Rattle.kc_tree.specs.between.Views.{reverse_dependency_view};
ghost use Rattle.kc_dependencies.specs.checker.StoredRules.{AreReverseDependencies};
ghost use Rattle.kc_rules_model.specs.SymbolValues.{value_of_symbol};
ghost use Rattle.kc_reasons_model.specs.Reasons.{name_of_symbol, value_text};
ghost use Rattle.kc_symbol_lines.specs.between.LinesView.{position_view};
ghost use Rattle.kc_explanation.specs.checker.Contexts.{exprs_of, tree_of, values_of};
ghost use Rattle.kmin_messages.specs.between.MessageViews.{AppendsTokens};
ghost use Rattle.kmin_records.specs.JsonValues.{text_json, array_of};
ghost use Rattle.kmin_explain_records.specs.SymbolRecords.{place_if, forcing_json, forcing_list};
ghost use Rattle.kmin_records.specs.between.RecordTokens.{list_tokens};

use super::needed_members::write_position;
use json::Writer;
use kc_explanation::{Context, name_of, place_at, push_value_of};
use kc_symbol_lines::Position;
use kc_tree::{ReverseDependency, Sym};
use kc_value::Text;
use kmin_records::{write_bytes, write_text};
use std::alloc::AllocError;

/// Writes the members `name` and `value` of symbol `s`.
pub(crate) fn write_symbol(writer: &mut Writer, by: &Context<'_>, s: Sym) -> Result<(), AllocError>
    requires there { s < length (tree_of by.now).symbols }
    ensures { OnOk result (AppendsTokens writer.old writer.new (list_tokens ((codes "name", text_of_json (name_of_symbol (tree_of by.now) s)) ∷ (codes "value", text_json (value_text by.now.strings (value_of_symbol (tree_of by.now) (values_of by.now) s))) ∷ []))) }
{
    let mut text = Vec::new(by.alloc);
    push_value_of(&mut text, by.under, by.strings, s)?;
    write_text(writer, "name", name_of(by.under, s))?;
    write_bytes(by.alloc, writer, "value", &text)
}

/// Writes the members of a place in the tree, if there is one.
fn write_position_if(
    writer: &mut Writer,
    paths: &[Text],
    at: Option<Position>,
) -> Result<(), AllocError>
    ensures { OnOk result (AppendsTokens writer.old writer.new (list_tokens (place_if paths.now (option_map position_view at)))) }
{
    match at {
        None => Ok(()),
        Some(at) => write_position(writer, paths, at),
    }
}

/// Writes the symbol of a select or imply, and its place, as an object.
fn write_forcing(
    writer: &mut Writer,
    by: &Context<'_>,
    force: ReverseDependency,
    at: Option<Position>,
) -> Result<(), AllocError>
    requires by { force.by < length (tree_of by.now).symbols }
    ensures { OnOk result (AppendsTokens writer.old writer.new (flat_map json_tokens (forcing_json by.now.strings by.now.paths.now (tree_of by.now) (values_of by.now) (Some (reverse_dependency_view (exprs_of by.now) force)) (option_map position_view at)))) }
{
    writer.begin_object()?;
    write_symbol(writer, by, force.by)?;
    write_position_if(writer, by.paths, at)?;
    writer.end_object()
}

/// Writes the select or imply with a number, if there is one.
fn write_numbered(
    writer: &mut Writer,
    by: &Context<'_>,
    all: &[ReverseDependency],
    places: &[Position],
    number: usize,
) -> Result<(), AllocError>
    requires fits { AreReverseDependencies (exprs_of by.now) (tree_of by.now) all.now }
    ensures { OnOk result (AppendsTokens writer.old writer.new (flat_map json_tokens (forcing_json by.now.strings by.now.paths.now (tree_of by.now) (values_of by.now) (slice_get (map (reverse_dependency_view (exprs_of by.now)) all.now) number) (slice_get (map position_view places.now) number)))) }
{
    if number < all.len() {
        let at = place_at(places, number);
        write_forcing(writer, by, all[number], at)
    } else {
        Ok(())
    }
}

/// Writes the selects or implies with these numbers, one after the other.
fn write_each_forcing(
    writer: &mut Writer,
    by: &Context<'_>,
    all: &[ReverseDependency],
    places: &[Position],
    numbers: &[usize],
) -> Result<(), AllocError>
    requires fits { AreReverseDependencies (exprs_of by.now) (tree_of by.now) all.now }
    ensures { OnOk result (AppendsTokens writer.old writer.new (flat_map (λ n. flat_map json_tokens (forcing_json by.now.strings by.now.paths.now (tree_of by.now) (values_of by.now) (slice_get (map (reverse_dependency_view (exprs_of by.now)) all.now) n) (slice_get (map position_view places.now) n))) numbers.now)) }
{
    for number in numbers {
        write_numbered(writer, by, all, places, *number)?;
    }
    Ok(())
}

/// Writes the selects or implies with these numbers as an array.
pub(crate) fn write_forcing_list(
    writer: &mut Writer,
    by: &Context<'_>,
    all: &[ReverseDependency],
    places: &[Position],
    numbers: &[usize],
) -> Result<(), AllocError>
    requires fits { AreReverseDependencies (exprs_of by.now) (tree_of by.now) all.now }
    ensures { OnOk result (AppendsTokens writer.old writer.new (json_tokens (array_of (forcing_list by.now.strings by.now.paths.now (tree_of by.now) (values_of by.now) (map (reverse_dependency_view (exprs_of by.now)) all.now) (map position_view places.now) numbers.now)))) }
{
    writer.begin_array()?;
    write_each_forcing(writer, by, all, places, numbers)?;
    writer.end_array()
}
