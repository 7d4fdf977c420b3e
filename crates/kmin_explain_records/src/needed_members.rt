//! The JSON of what conditions lack.
ghost use Rattle.std.specs.Prelude.{◌≡◌, ◌<◌, ◌∷◌, ◌++◌, [], length, map, flat_map, All, OnOk, codes};
ghost use Rattle.json.specs.Token.{begin_object};
ghost use Rattle.json.specs.Tree.{json_tokens};
ghost use Rattle.kc_expr.specs.between.Arena.{node_expr};
ghost use Rattle.kc_symbol_lines.specs.between.LinesView.{position_view};
ghost use Rattle.std.specs.Global.{Vec};
ghost use Rattle.kc_located_reasons.specs.declared.located_parts.LocatedPart.{LocatedPart};
ghost use Rattle.kc_located_reasons.specs.between.PartsView.{located_part_view, located_parts_view, located_alternatives_view, IsPartThere, ArePartsThere};
ghost use Rattle.kc_explanation.specs.Explained.{spelled_with_values};
ghost use Rattle.kc_explanation.specs.checker.Contexts.{exprs_of, names_of};
ghost use Rattle.kmin_messages.specs.between.MessageViews.{AppendsTokens};
ghost use Rattle.kmin_records.specs.JsonValues.{text_json};
ghost use Rattle.kmin_explain_records.specs.SymbolRecords.{position_members, part_json, parts_json, alternatives_json, needs_json};
ghost use Rattle.kmin_records.specs.between.RecordTokens.{list_tokens};

use json::Writer;
use kc_explanation::{Context, path_of, push_expression};
use kc_expr::ExprId;
use kc_located_reasons::LocatedPart;
use kc_symbol_lines::Position;
use kc_value::Text;
use kmin_records::{write_bytes, write_place, write_text};
use std::alloc::AllocError;

/// Writes the members `path` and `line` of a place in the tree, by the paths of its files in the order of their numbers.
pub(crate) fn write_position(
    writer: &mut Writer,
    paths: &[Text],
    at: Position,
) -> Result<(), AllocError>
    ensures { OnOk result (AppendsTokens writer.old writer.new (list_tokens (position_members paths.now (position_view at)))) }
{
    write_place(writer, path_of(paths, at.file), u64::from(at.line))
}

/// Begins an object, with the text of an expression as its member `part`.
fn begin_part(writer: &mut Writer, by: &Context<'_>, id: ExprId) -> Result<(), AllocError>
    requires there { id < length (exprs_of by.now).nodes }
    ensures { OnOk result (AppendsTokens writer.old writer.new (begin_object ∷ list_tokens ((codes "part", text_json (spelled_with_values by.now.strings (names_of by.now) (node_expr (exprs_of by.now) id))) ∷ []))) }
{
    let mut text = Vec::new(by.alloc);
    push_expression(&mut text, by, id)?;
    writer.begin_object()?;
    write_bytes(by.alloc, writer, "part", &text)
}

/// Writes a part that is too low, and its place, as an object.
fn write_part(writer: &mut Writer, by: &Context<'_>, part: LocatedPart) -> Result<(), AllocError>
    requires there { IsPartThere (exprs_of by.now) part }
    ensures { OnOk result (AppendsTokens writer.old writer.new (json_tokens (part_json by.now.strings (names_of by.now) by.now.paths.now (located_part_view (exprs_of by.now) part)))) }
{
    let low = part.part;
    begin_part(writer, by, low.expr)?;
    write_text(writer, "value", by.under.condition(low.expr).letter())?;
    write_text(writer, "wanted", low.wanted.letter())?;
    write_position(writer, by.paths, part.at)?;
    writer.end_object()
}

/// Writes parts that are all needed, one after the other.
fn write_each_part(
    writer: &mut Writer,
    by: &Context<'_>,
    parts: &[LocatedPart],
) -> Result<(), AllocError>
    requires there { All (IsPartThere (exprs_of by.now)) parts.now }
    ensures { OnOk result (AppendsTokens writer.old writer.new (flat_map (λ p. json_tokens (part_json by.now.strings (names_of by.now) by.now.paths.now (located_part_view (exprs_of by.now) p))) parts.now)) }
{
    for part in parts {
        write_part(writer, by, *part)?;
    }
    Ok(())
}

/// Writes parts that are all needed as an array.
fn write_parts(
    writer: &mut Writer,
    by: &Context<'_>,
    parts: &[LocatedPart],
) -> Result<(), AllocError>
    requires there { All (IsPartThere (exprs_of by.now)) parts.now }
    ensures { OnOk result (AppendsTokens writer.old writer.new (json_tokens (parts_json by.now.strings (names_of by.now) by.now.paths.now (located_parts_view (exprs_of by.now) parts.now)))) }
{
    writer.begin_array()?;
    write_each_part(writer, by, parts)?;
    writer.end_array()
}

/// Writes alternatives of parts, one after the other.
fn write_each_alternative(
    writer: &mut Writer,
    by: &Context<'_>,
    lists: &[Vec<LocatedPart>],
) -> Result<(), AllocError>
    requires there { ArePartsThere (exprs_of by.now) lists.now }
    ensures { OnOk result (AppendsTokens writer.old writer.new (flat_map (λ (v : Vec LocatedPart). json_tokens (parts_json by.now.strings (names_of by.now) by.now.paths.now (located_parts_view (exprs_of by.now) v.items))) lists.now)) }
{
    for list in lists {
        write_parts(writer, by, list)?;
    }
    Ok(())
}

/// Writes alternatives of parts as an array.
pub(crate) fn write_alternatives(
    writer: &mut Writer,
    by: &Context<'_>,
    lists: &[Vec<LocatedPart>],
) -> Result<(), AllocError>
    requires there { ArePartsThere (exprs_of by.now) lists.now }
    ensures { OnOk result (AppendsTokens writer.old writer.new (json_tokens (alternatives_json by.now.strings (names_of by.now) by.now.paths.now (located_alternatives_view (exprs_of by.now) lists.now)))) }
{
    writer.begin_array()?;
    write_each_alternative(writer, by, lists)?;
    writer.end_array()
}

/// Writes what the prompts need; null where a prompt is wanted and there is none.
pub(crate) fn write_needs(
    writer: &mut Writer,
    by: &Context<'_>,
    without_prompt: bool,
    needs: &[Vec<LocatedPart>],
) -> Result<(), AllocError>
    requires there { ArePartsThere (exprs_of by.now) needs.now }
    ensures { OnOk result (AppendsTokens writer.old writer.new (json_tokens (needs_json by.now.strings (names_of by.now) by.now.paths.now without_prompt (located_alternatives_view (exprs_of by.now) needs.now)))) }
{
    if without_prompt {
        writer.null()
    } else {
        write_alternatives(writer, by, needs)
    }
}
