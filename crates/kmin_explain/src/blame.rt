//! The symbols whose values keep the parts of conditions too low.
ghost use Rattle.std.specs.Prelude.{◌≡◌, ◌<◌, ◌++◌, [], length, All, flat_map, option_to_list, IfSome, IfNone, OnOk, true, false, not, if◌then◌else◌};
ghost use Rattle.kc_expr.specs.between.Arena.{node_expr};
ghost use Rattle.kc_expr.specs.between.ExprParts.{expr_of_parts, ArePartsOf};
ghost use Rattle.kc_expr.specs.between.Operand.{operand_of_ref, HasKnownName};
ghost use Rattle.kc_rules_model.specs.SymbolValues.{environment};
ghost use Rattle.kc_evaluation.specs.checker.ValuationView.{valuation_tree, valuation_exprs, valuation_values};
ghost use Rattle.kc_value.specs.Tri.{tri_not};
ghost use Rattle.kmin_explain.specs.checker.Bounds.{is_never_off, shown_limit};
ghost use Rattle.kmin_explain.specs.checker.BlamedWalk.{operand_symbols, blamed_in_reverse};
ghost use Rattle.kc_reasons_model.specs.Blame.{is_off};
ghost use Rattle.kc_reasons.specs.between.Parts.{part_view, parts_view, alternatives_view, IsThere, AreThere};
ghost use Rattle.kmin_explain.specs.Names.{each_once_after};
ghost use Rattle.kmin_explain.specs.Deep.{blamed_of, blamed_in};
ghost use Rattle.kmin_explain.specs.checker.Marks.{AreMarked};

use super::each_once::SymbolsOnce;
use kc_evaluation::{Valuation, is_below};
use kc_expr::{ExprId, ExprParts, Operand};
use kc_reasons::LowPart;
use kc_tree::Sym;
use kc_value::Tri;
use std::alloc::{AllocError, Global};

/// A bound of an expression, which is above it, or else below it.
#[derive(Clone, Copy)]
struct Bound {
    is_above: bool,
    limit: Tri,
}

impl Bound {
    /// Whether a value is off the bound.
    fn is_off(self, value: Tri) -> bool
        ensures { result ≡ is_off self.is_above self.limit value }
    {
        if self.is_above {
            is_below(self.limit, value)
        } else {
            is_below(value, self.limit)
        }
    }

    /// The bound of what is negated.
    fn negated(self) -> Bound
        ensures above { result.is_above ≡ not self.is_above }
        ensures limit { result.limit ≡ tri_not self.limit }
    {
        Bound {
            is_above: !self.is_above,
            limit: self.limit.not(),
        }
    }

    /// The bound of what is to be shown, `None` where that is never off.
    fn of_shown(self) -> Option<Bound>
        ensures some { IfSome result (λ b. (b.is_above ≡ self.is_above) × (is_never_off self.is_above self.limit ≡ false) × (b.limit ≡ shown_limit self.is_above)) }
        ensures none { IfNone result (is_never_off self.is_above self.limit ≡ true) }
    {
        match (self.is_above, self.limit) {
            (true, Tri::Y) => None,
            (false, Tri::N) => None,
            (true, _) => Some(Bound {
                is_above: true,
                limit: Tri::N,
            }),
            (false, _) => Some(Bound {
                is_above: false,
                limit: Tri::M,
            }),
        }
    }
}

/// What an expression of the tree is made of.
fn parts_at<'a>(under: &Valuation<'a>, id: ExprId) -> ExprParts<'a>
    requires there { id < length (valuation_exprs under.now).nodes }
    ensures expr { node_expr (valuation_exprs under.now) id ≡ expr_of_parts (valuation_exprs under.now) result }
    ensures within { ArePartsOf (valuation_exprs under.now) id result }
{
    under.rules.tree.arena().parts(id)
}

/// Appends the symbol that an operand names, if it names one.
fn push_operand(
    under: &Valuation<'_>,
    operand: &Operand<'_>,
    found: &mut Vec<Sym>,
) -> Result<(), AllocError>
    requires known { HasKnownName (valuation_exprs under.now).names operand.now }
    ensures symbols { OnOk result (found.new.items ≡ found.old.items ++ operand_symbols (valuation_tree under.now) (operand_of_ref (valuation_exprs under.now).names operand.now)) }
{
    match operand {
        Operand::Name(name) => push_symbol(found, under.rules.tree.symbol_at(*name)),
        Operand::Quoted(_) => Ok(()),
        Operand::Tri(_) => Ok(()),
    }
}

/// Appends a symbol, if there is one.
fn push_symbol(found: &mut Vec<Sym>, s: Option<Sym>) -> Result<(), AllocError>
    ensures { OnOk result (found.new.items ≡ found.old.items ++ option_to_list s) }
{
    if let Some(s) = s {
        found.push(s)?;
    }
    Ok(())
}

/// Appends the symbol of an operand where it is off.
fn push_alone(
    under: &Valuation<'_>,
    is_off: bool,
    operand: &Operand<'_>,
    found: &mut Vec<Sym>,
) -> Result<(), AllocError>
    requires known { HasKnownName (valuation_exprs under.now).names operand.now }
    ensures symbols { OnOk result (found.new.items ≡ found.old.items ++ (if is_off then operand_symbols (valuation_tree under.now) (operand_of_ref (valuation_exprs under.now).names operand.now) else [])) }
{
    if is_off {
        push_operand(under, operand, found)
    } else {
        Ok(())
    }
}

/// Appends the symbols of two operands, from right to left, where a relation between them is off.
fn push_related(
    under: &Valuation<'_>,
    is_off: bool,
    left: &Operand<'_>,
    right: &Operand<'_>,
    found: &mut Vec<Sym>,
) -> Result<(), AllocError>
    requires left { HasKnownName (valuation_exprs under.now).names left.now }
    requires right { HasKnownName (valuation_exprs under.now).names right.now }
    ensures symbols { OnOk result (found.new.items ≡ found.old.items ++ (if is_off then operand_symbols (valuation_tree under.now) (operand_of_ref (valuation_exprs under.now).names right.now) ++ operand_symbols (valuation_tree under.now) (operand_of_ref (valuation_exprs under.now).names left.now) else [])) }
{
    if is_off {
        push_operand(under, right, found)?;
        push_operand(under, left, found)
    } else {
        Ok(())
    }
}

/// Appends the symbols whose values keep an expression off a bound, from right to left.
fn push_blamed(
    under: &Valuation<'_>,
    id: ExprId,
    bound: Bound,
    found: &mut Vec<Sym>,
) -> Result<(), AllocError>
    requires there { id < length (valuation_exprs under.now).nodes }
    ensures symbols { OnOk result (found.new.items ≡ found.old.items ++ blamed_in_reverse (valuation_tree under.now) (environment (valuation_tree under.now) (valuation_values under.now)) bound.is_above bound.limit (node_expr (valuation_exprs under.now) id)) }
{
    let mut at = id;
    let mut limit = bound;
    'down: loop {
        match parts_at(under, at) {
            ExprParts::Both(left, right) => {
                if !limit.is_off(under.condition(at)) {
                    return Ok(());
                }
                push_blamed(under, right, limit, found)?;
                at = left;
            }
            ExprParts::Either(left, right) => {
                if !limit.is_off(under.condition(at)) {
                    return Ok(());
                }
                push_blamed(under, right, limit, found)?;
                at = left;
            }
            ExprParts::Negated(part) => {
                limit = limit.negated();
                at = part;
            }
            ExprParts::Shown(part) => {
                match limit.of_shown() {
                    None => return Ok(()),
                    Some(shown) => {
                        limit = shown;
                        at = part;
                    }
                }
            }
            ExprParts::Alone(a) => {
                return push_alone(under, limit.is_off(under.condition(at)), &a, found);
            }
            ExprParts::Related(_, a, b) => {
                return push_related(under, limit.is_off(under.condition(at)), &a, &b, found);
            }
        }
    }
}

/// Adds the symbols whose values keep a part of a condition below what is wanted of it, from left to right.
fn add_blamed(
    alloc: Global,
    under: &Valuation<'_>,
    part: LowPart,
    seen: &mut SymbolsOnce,
) -> Result<(), AllocError>
    requires there { IsThere (valuation_exprs under.now) part }
    requires marks { AreMarked seen.old }
    requires many { length seen.old.is_found.items ≡ length (valuation_tree under.now).symbols }
    ensures found { OnOk result (seen.new.found.items ≡ each_once_after seen.old.found.items (blamed_of (valuation_tree under.now) (environment (valuation_tree under.now) (valuation_values under.now)) (part_view (valuation_exprs under.now) part))) }
    ensures marks { OnOk result (AreMarked seen.new) }
    ensures many { OnOk result (length seen.new.is_found.items ≡ length (valuation_tree under.now).symbols) }
{
    let mut found = Vec::new(alloc);
    let bound = Bound {
        is_above: false,
        limit: part.wanted,
    };
    push_blamed(under, part.expr, bound, &mut found)?;
    found.reverse();
    seen.add_all(&found)
}

/// Adds the symbols whose values keep the parts of some conditions too low, from left to right.
pub(crate) fn add_all_blamed(
    alloc: Global,
    under: &Valuation<'_>,
    alternatives: &[Vec<LowPart>],
    seen: &mut SymbolsOnce,
) -> Result<(), AllocError>
    requires there { AreThere (valuation_exprs under.now) alternatives.now }
    requires marks { AreMarked seen.old }
    requires many { length seen.old.is_found.items ≡ length (valuation_tree under.now).symbols }
    ensures found { OnOk result (seen.new.found.items ≡ each_once_after seen.old.found.items (blamed_in (valuation_tree under.now) (environment (valuation_tree under.now) (valuation_values under.now)) (alternatives_view (valuation_exprs under.now) alternatives.now))) }
    ensures marks { OnOk result (AreMarked seen.new) }
    ensures many { OnOk result (length seen.new.is_found.items ≡ length (valuation_tree under.now).symbols) }
{
    for parts in alternatives {
        add_parts(alloc, under, parts, seen)?;
    }
    Ok(())
}

/// Adds the symbols whose values keep the parts of a condition too low, from left to right.
fn add_parts(
    alloc: Global,
    under: &Valuation<'_>,
    parts: &[LowPart],
    seen: &mut SymbolsOnce,
) -> Result<(), AllocError>
    requires there { All (IsThere (valuation_exprs under.now)) parts.now }
    requires marks { AreMarked seen.old }
    requires many { length seen.old.is_found.items ≡ length (valuation_tree under.now).symbols }
    ensures found { OnOk result (seen.new.found.items ≡ each_once_after seen.old.found.items (flat_map (blamed_of (valuation_tree under.now) (environment (valuation_tree under.now) (valuation_values under.now))) (parts_view (valuation_exprs under.now) parts.now))) }
    ensures marks { OnOk result (AreMarked seen.new) }
    ensures many { OnOk result (length seen.new.is_found.items ≡ length (valuation_tree under.now).symbols) }
{
    for part in parts {
        add_blamed(alloc, under, *part, seen)?;
    }
    Ok(())
}
