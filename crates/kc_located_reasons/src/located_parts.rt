//! What keeps conditions too low, and which lines have it.
ghost use Rattle.std.specs.Prelude.{◌≡◌, ◌<◌, ◌++◌, length, map, All, IfOk, OnOk};
ghost use Rattle.kc_expr.specs.between.Arena.{Exprs};
ghost use Rattle.kc_evaluation.specs.checker.ValuationView.{valuation_tree, valuation_exprs, valuation_values};
ghost use Rattle.kc_rules_model.specs.SymbolValues.{environment};
ghost use Rattle.kc_reasons_model.specs.Places.{wanted_of};
ghost use Rattle.kc_reasons.specs.between.Parts.{IsThere};
ghost use Rattle.kc_symbol_lines.specs.between.LinesView.{located_view, all_located, each_located, IsHeld, AreHeld};
ghost use Rattle.kc_located_reasons.specs.LocatedNeeds.{lacking_at, located_lacking};
ghost use Rattle.kc_located_reasons.specs.between.PartsView.{located_parts_view, located_alternatives_view, IsPartThere, ArePartsThere};
ghost use Rattle.kc_located_reasons.specs.checker.PartLists.{part_at};

use kc_evaluation::Valuation;
use kc_reasons::{LowPart, lacking};
use kc_symbol_lines::{LocatedExpr, Position};
use kc_value::Tri;
use std::alloc::{AllocError, Global};

/// A part of a condition that is too low, and the place of its line.
#[derive(Clone, Copy, Debug, PartialEq, Eq)]
pub struct LocatedPart {
    pub part: LowPart,
    pub at: Position,
}

/// What is wanted of a part where this is wanted of the condition.
fn wanted_of(part: &LocatedExpr, wanted: Tri) -> Tri
    ensures { (exprs : Exprs) → result ≡ wanted_of wanted (located_view exprs part.now) }
{
    if part.of_choice { Tri::M } else { wanted }
}

/// Appends parts of the line at a place.
fn push_parts(
    found: &mut Vec<LocatedPart>,
    parts: &[LowPart],
    at: Position,
) -> Result<(), AllocError>
    ensures { OnOk result (found.new.items ≡ found.old.items ++ map (part_at at) parts.now) }
{
    for part in parts {
        found.push(LocatedPart { part: *part, at })?;
    }
    Ok(())
}

/// Appends what one of the lines of a condition lacks.
fn push_lacking_at(
    alloc: Global,
    under: &Valuation<'_>,
    part: &LocatedExpr,
    wanted: Tri,
    found: &mut Vec<LocatedPart>,
) -> Result<(), AllocError>
    requires there { IsHeld (valuation_exprs under.now) part.now }
    ensures parts { OnOk result (located_parts_view (valuation_exprs under.now) found.new.items
        ≡ located_parts_view (valuation_exprs under.now) found.old.items ++ lacking_at (environment (valuation_tree under.now) (valuation_values under.now)) wanted (located_view (valuation_exprs under.now) part.now)) }
    ensures there { OnOk result (All (IsPartThere (valuation_exprs under.now)) found.old.items → All (IsPartThere (valuation_exprs under.now)) found.new.items) }
{
    let low = lacking(alloc, under, part.expr, wanted_of(part, wanted))?;
    push_parts(found, &low, part.at)
}

/// What the lines of a condition lack where `wanted` is wanted of the condition. An `Err` means out of memory.
pub fn located_lacking(
    alloc: Global,
    under: &Valuation<'_>,
    parts: &[LocatedExpr],
    wanted: Tri,
) -> Result<Vec<LocatedPart>, AllocError>
    requires held { All (IsHeld (valuation_exprs under.now)) parts.now }
    ensures ok { IfOk result (λ found. located_parts_view (valuation_exprs under.now) found.items ≡ located_lacking (environment (valuation_tree under.now) (valuation_values under.now)) wanted (all_located (valuation_exprs under.now) parts.now)) }
    ensures there { IfOk result (λ found. All (IsPartThere (valuation_exprs under.now)) found.items) }
{
    let mut found = Vec::new(alloc);
    for part in parts {
        push_lacking_at(alloc, under, part, wanted, &mut found)?;
    }
    Ok(found)
}

/// What the lines of each of some conditions lack of this value. An `Err` means out of memory.
pub fn located_lacking_of_each(
    alloc: Global,
    under: &Valuation<'_>,
    lists: &[Vec<LocatedExpr>],
    wanted: Tri,
) -> Result<Vec<Vec<LocatedPart>>, AllocError>
    requires held { AreHeld (valuation_exprs under.now) lists.now }
    ensures ok { IfOk result (λ found. located_alternatives_view (valuation_exprs under.now) found.items ≡ map (located_lacking (environment (valuation_tree under.now) (valuation_values under.now)) wanted) (each_located (valuation_exprs under.now) lists.now)) }
    ensures there { IfOk result (λ found. ArePartsThere (valuation_exprs under.now) found.items) }
{
    let mut found = Vec::new(alloc);
    for list in lists {
        found.push(located_lacking(alloc, under, list, wanted)?)?;
    }
    Ok(found)
}
