//! Lines with the names of symbols and their values.
ghost use Rattle.std.specs.Prelude.{◌≡◌, ◌<◌, ◌++◌, Some, length, IfOk, OnOk};
ghost use Rattle.std.specs.List.{flat_map};
ghost use Rattle.kc_expr.specs.Expr.{SymbolValue};
ghost use Rattle.kc_rules_model.specs.SymbolValues.{value_of_symbol};
ghost use Rattle.kc_rules.specs.between.SettledViews.{tree_of_settled};
ghost use Rattle.kc_minimal_model.specs.SymbolLine.{spelled};
ghost use Rattle.kmin_outputs.specs.Outputs.{name_line, compared_line};
ghost use Rattle.kmin_outputs.specs.between.Lines.{line_between};
ghost use Rattle.kc_minimal.specs.declared.difference.Difference.{Difference as DifferenceRef};

use kc_dotconfig::Strings;
use kc_minimal::{Difference, push_spelled};
use kc_rules::{Settled, UnitValue};
use kc_tree::{Sym, Tree};
use kmin_records::{OutputForm, compare_record};
use kmin_report::name_of;
use std::alloc::{AllocError, Global};

/// Appends a line with the text `front` and the name of a symbol.
fn push_name_line(out: &mut Vec<u8>, front: &str, tree: &Tree, s: Sym) -> Result<(), AllocError>
    ensures { OnOk result (out.new.items ≡ out.old.items ++ name_line front.now tree.now.tree s) }
{
    out.extend_from_slice(front.as_bytes())?;
    out.extend_from_slice(name_of(tree, s).as_bytes())?;
    out.push(b'\n')?;
    Ok(())
}

/// The text with a line for each of these symbols, in order: the text `front` and the name of the symbol.
pub(crate) fn name_lines(
    alloc: Global,
    front: &str,
    tree: &Tree,
    symbols: &[Sym],
) -> Result<Vec<u8>, AllocError>
    ensures { IfOk result (λ text. text.items ≡ flat_map (name_line front.now tree.now.tree) symbols.now) }
{
    let mut text = Vec::new(alloc);
    for s in symbols {
        push_name_line(&mut text, front, tree, *s)?;
    }
    Ok(text)
}

/// Appends `NAME: LEFT -> RIGHT`.
fn push_plain_line(
    out: &mut Vec<u8>,
    name: &str,
    left: &[u8],
    right: &[u8],
) -> Result<(), AllocError>
    ensures { OnOk result (out.new.items ≡ out.old.items ++ compared_line OutputForm.Plain name.now left.now right.now) }
{
    out.extend_from_slice(name.as_bytes())?;
    out.extend_from_slice(b": ")?;
    out.extend_from_slice(left)?;
    out.extend_from_slice(b" -> ")?;
    out.extend_from_slice(right)?;
    out.push(b'\n')?;
    Ok(())
}

/// Appends the line in a form for a symbol of this name with these two values: `NAME: LEFT -> RIGHT`, or a record.
fn push_compared_line(
    alloc: Global,
    out: &mut Vec<u8>,
    form: OutputForm,
    name: &str,
    left: &[u8],
    right: &[u8],
) -> Result<(), AllocError>
    ensures { OnOk result (out.new.items ≡ out.old.items ++ compared_line form name.now left.now right.now) }
{
    match form {
        OutputForm::Plain => push_plain_line(out, name, left, right),
        OutputForm::Json => {
            let line = compare_record(alloc, name, left, right)?;
            out.extend_from_slice(&line)
        }
    }
}

/// The value of a symbol as a file has it after `=`.
fn spelled_value(
    alloc: Global,
    strings: Strings,
    settled: &Settled,
    values: &[UnitValue],
    s: Sym,
) -> Result<Vec<u8>, AllocError>
    requires there { s < length (tree_of_settled settled.now).symbols }
    ensures { IfOk result (λ text. (v : SymbolValue) × (value_of_symbol (tree_of_settled settled.now) values.now s ≡ Some v) × (text.items ≡ spelled strings v.kind v.text)) }
{
    let value = settled.value_of_symbol(s, values);
    let mut text = Vec::new(alloc);
    push_spelled(&mut text, strings, value.kind, value.text)?;
    Ok(text)
}

/// Appends the line in a form for the symbol of this number, if there is one, with values as a file has them after `=`.
fn push_difference(
    alloc: Global,
    out: &mut Vec<u8>,
    form: OutputForm,
    strings: Strings,
    settled: &Settled,
    left: &[UnitValue],
    right: &[UnitValue],
    s: Sym,
) -> Result<(), AllocError>
    ensures { OnOk result (out.new.items ≡ out.old.items ++ line_between form strings (tree_of_settled settled.now) left.now right.now s) }
{
    let tree = settled.tree();
    if s.number() >= tree.symbol_count() {
        return Ok(());
    }
    let before = spelled_value(alloc, strings, settled, left, s)?;
    let after = spelled_value(alloc, strings, settled, right, s)?;
    push_compared_line(alloc, out, form, name_of(tree, s), &before, &after)
}

/// The text with a line in a form for each of these differences of two valuations, in order: `NAME: LEFT -> RIGHT`, or a record.
pub(crate) fn difference_lines(
    alloc: Global,
    form: OutputForm,
    strings: Strings,
    settled: &Settled,
    left: &[UnitValue],
    right: &[UnitValue],
    differences: &[Difference],
) -> Result<Vec<u8>, AllocError>
    ensures { IfOk result (λ text. text.items ≡ flat_map (λ (d : DifferenceRef). line_between form strings (tree_of_settled settled.now) left.now right.now d.symbol) differences.now) }
{
    let mut text = Vec::new(alloc);
    for difference in differences {
        push_difference(
            alloc,
            &mut text,
            form,
            strings,
            settled,
            left,
            right,
            difference.symbol,
        )?;
    }
    Ok(text)
}
