//! The symbols whose values differ.
ghost use Rattle.std.specs.Prelude.{◌≡◌, ◌<◌, ◌++◌, length, map, option_to_list, IfOk, OnOk};
ghost use Rattle.kc_expr.specs.Lookup.{symbol_value_of};
ghost use Rattle.kc_rules_model.specs.SymbolValues.{value_of_symbol};
ghost use Rattle.kc_rules.specs.between.SettledViews.{tree_of_settled, value_view};
ghost use Rattle.kc_minimal_model.specs.Differences.{is_same_value, difference_at, differences};
ghost use Rattle.kc_minimal.specs.between.DifferenceViews.{difference_view};

use kc_expr::Looked;
use kc_rules::{Settled, UnitValue};
use kc_tree::Sym;
use kc_value::{Kind, Text, Value};
use std::alloc::{AllocError, Global};

/// A symbol whose values differ between two configurations, with both values: tristates for a bool or tristate, texts for any
/// other type.
#[derive(Drop)]
pub struct Difference {
    pub symbol: Sym,
    pub left: Value,
    pub right: Value,
}

/// Whether two values are the same tristate and the same text.
fn is_same(a: &Looked<'_>, b: &Looked<'_>) -> bool
    ensures { result ≡ is_same_value (symbol_value_of a.now) (symbol_value_of b.now) }
{
    a.tri == b.tri && a.text.as_bytes() == b.text.as_bytes()
}

/// A copy of a symbol's value: a tristate for a bool or tristate, a text for any other type.
fn value_of(alloc: Global, seen: &Looked<'_>) -> Result<Value, AllocError>
    ensures { IfOk result (λ value. value ≡ value_view (symbol_value_of seen.now)) }
{
    match seen.kind {
        Kind::Bool => Ok(Value::Tri(seen.tri)),
        Kind::Tristate => Ok(Value::Tri(seen.tri)),
        Kind::Text => Ok(Value::Text(Text::copied(alloc, seen.text)?)),
        Kind::Int => Ok(Value::Text(Text::copied(alloc, seen.text)?)),
        Kind::Hex => Ok(Value::Text(Text::copied(alloc, seen.text)?)),
    }
}

/// Appends a symbol with its left and its right value, if they differ.
fn push_if_differing(
    found: &mut Vec<Difference>,
    alloc: Global,
    settled: &Settled,
    left: &[UnitValue],
    right: &[UnitValue],
    s: Sym,
) -> Result<(), AllocError>
    requires there { s < length (tree_of_settled settled.now).symbols }
    ensures ok { OnOk result (found.new.items ≡ found.old.items ++ map difference_view (option_to_list (difference_at s (value_of_symbol (tree_of_settled settled.now) left.now s) (value_of_symbol (tree_of_settled settled.now) right.now s)))) }
{
    let a = settled.value_of_symbol(s, left);
    let b = settled.value_of_symbol(s, right);
    if is_same(&a, &b) {
        return Ok(());
    }
    let left = value_of(alloc, &a)?;
    let right = value_of(alloc, &b)?;
    found.push(Difference {
        symbol: s,
        left,
        right,
    })?;
    Ok(())
}

/// The symbols whose values differ between `left` and `right`, in order of first definition. An `Err` means out of memory.
pub(crate) fn differing(
    alloc: Global,
    settled: &Settled,
    left: &[UnitValue],
    right: &[UnitValue],
) -> Result<Vec<Difference>, AllocError>
    ensures { IfOk result (λ found. found.items ≡ map difference_view (differences (tree_of_settled settled.now) left.now right.now)) }
{
    let mut found = Vec::new(alloc);
    for number in 0..settled.tree().symbol_count() {
        push_if_differing(&mut found, alloc, settled, left, right, Sym::at(number))?;
    }
    Ok(found)
}
