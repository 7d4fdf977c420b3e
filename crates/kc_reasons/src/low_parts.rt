//! What keeps conditions too low.
ghost use Rattle.std.specs.Prelude.{◌≡◌, ◌<◌, ◌∷◌, ◌++◌, [], length, map, All, IfOk, OnOk, if◌then◌else◌};
ghost use Rattle.kc_expr.specs.between.Arena.{node_expr};
ghost use Rattle.kc_expr.specs.between.ExprParts.{expr_of_parts, ArePartsOf};
ghost use Rattle.kc_dependencies.specs.checker.StoredRules.{AreNodes};
ghost use Rattle.kc_evaluation.specs.checker.ValuationView.{valuation_tree, valuation_exprs, valuation_values};
ghost use Rattle.kc_rules_model.specs.SymbolValues.{environment, condition};
ghost use Rattle.kc_reasons_model.specs.Conjuncts.{below, lacking};
ghost use Rattle.kc_reasons.specs.between.Parts.{parts_view, alternatives_view, IsThere, AreThere};
ghost use Rattle.kc_reasons.specs.checker.LackingWalk.{lacking_in_reverse};

use kc_evaluation::{Valuation, is_below};
use kc_expr::{ExprId, ExprParts};
use kc_value::Tri;
use std::alloc::{AllocError, Global};

/// A part of a condition that is too low, and the least value that is wanted of it.
#[derive(Clone, Copy, Debug, PartialEq, Eq)]
pub struct LowPart {
    pub expr: ExprId,
    pub wanted: Tri,
}

/// What an expression of the tree is made of.
pub fn parts_at<'a>(under: &Valuation<'a>, id: ExprId) -> ExprParts<'a>
    requires there { id < length (valuation_exprs under.now).nodes }
    ensures expr { node_expr (valuation_exprs under.now) id ≡ expr_of_parts (valuation_exprs under.now) result }
    ensures within { ArePartsOf (valuation_exprs under.now) id result }
{
    under.rules.tree.arena().parts(id)
}

/// Appends an expression with what is wanted of it, if it is below that.
fn push_if_low(
    under: &Valuation<'_>,
    part: LowPart,
    found: &mut Vec<LowPart>,
) -> Result<(), AllocError>
    requires there { IsThere (valuation_exprs under.now) part }
    ensures parts { OnOk result (found.new.items ≡ found.old.items ++ (if below (condition (valuation_tree under.now) (valuation_values under.now) (node_expr (valuation_exprs under.now) part.expr)) part.wanted then part ∷ [] else [])) }
    ensures there { OnOk result (All (IsThere (valuation_exprs under.now)) found.old.items → All (IsThere (valuation_exprs under.now)) found.new.items) }
{
    if is_below(under.condition(part.expr), part.wanted) {
        found.push(part)?;
        Ok(())
    } else {
        Ok(())
    }
}

/// Appends the parts of a condition that are too low, from right to left.
fn push_lacking(
    under: &Valuation<'_>,
    id: ExprId,
    wanted: Tri,
    found: &mut Vec<LowPart>,
) -> Result<(), AllocError>
    requires there { id < length (valuation_exprs under.now).nodes }
    ensures parts { OnOk result (parts_view (valuation_exprs under.now) found.new.items
        ≡ parts_view (valuation_exprs under.now) found.old.items ++ lacking_in_reverse (environment (valuation_tree under.now) (valuation_values under.now)) wanted (node_expr (valuation_exprs under.now) id)) }
    ensures there { OnOk result (All (IsThere (valuation_exprs under.now)) found.old.items → All (IsThere (valuation_exprs under.now)) found.new.items) }
{
    let mut at = id;
    let mut least = wanted;
    'down: loop {
        let here = LowPart {
            expr: at,
            wanted: least,
        };
        match parts_at(under, at) {
            ExprParts::Both(left, right) => {
                push_lacking(under, right, least, found)?;
                at = left;
            }
            ExprParts::Shown(part) => {
                if least.is_n() {
                    return Ok(());
                }
                least = Tri::M;
                at = part;
            }
            ExprParts::Alone(_) => return push_if_low(under, here, found),
            ExprParts::Related(_, _, _) => return push_if_low(under, here, found),
            ExprParts::Negated(_) => return push_if_low(under, here, found),
            ExprParts::Either(_, _) => return push_if_low(under, here, found),
        }
    }
}

/// The parts, joined by `&&`, of a condition that are below what is wanted of them where `wanted` is wanted of the condition. An
/// `Err` means out of memory.
pub fn lacking(
    alloc: Global,
    under: &Valuation<'_>,
    id: ExprId,
    wanted: Tri,
) -> Result<Vec<LowPart>, AllocError>
    requires there { id < length (valuation_exprs under.now).nodes }
    ensures ok { IfOk result (λ found. parts_view (valuation_exprs under.now) found.items ≡ lacking (environment (valuation_tree under.now) (valuation_values under.now)) wanted (node_expr (valuation_exprs under.now) id)) }
    ensures there { IfOk result (λ found. All (IsThere (valuation_exprs under.now)) found.items) }
{
    let mut found = Vec::new(alloc);
    push_lacking(under, id, wanted, &mut found)?;
    found.reverse();
    Ok(found)
}

/// What each of some conditions lacks of this value. An `Err` means out of memory.
pub fn lacking_of_each(
    alloc: Global,
    under: &Valuation<'_>,
    ids: &[ExprId],
    wanted: Tri,
) -> Result<Vec<Vec<LowPart>>, AllocError>
    requires fits { AreNodes (valuation_exprs under.now) ids.now }
    ensures ok { IfOk result (λ found. alternatives_view (valuation_exprs under.now) found.items ≡ map (lacking (environment (valuation_tree under.now) (valuation_values under.now)) wanted) (map (node_expr (valuation_exprs under.now)) ids.now)) }
    ensures there { IfOk result (λ found. AreThere (valuation_exprs under.now) found.items) }
{
    let mut found = Vec::new(alloc);
    for id in ids {
        found.push(lacking(alloc, under, *id, wanted)?)?;
    }
    Ok(found)
}
