//! The prompts, defaults, ranges and reverse dependencies that a definition's attributes give.
ghost use Rattle.std.specs.Prelude.{◌≡◌, All, OnOk};
ghost use Rattle.std.specs.List.{list_any};
ghost use Rattle.kc_parser.specs.between.ListingView.{LineNodesExist};
ghost use Rattle.kc_tree_model.specs.declared.statement.ReverseKind.TheVariants.{Select, Imply};
ghost use Rattle.kc_builder.specs.checker.Definitions.{HasLine, HasOwn};
ghost use Rattle.kc_builder.specs.checker.GatheredItems.{has_target, target_key, gathered_prompt, gathered_default, gathered_range, gathered_target, gathered_reverse_dependency, HasAppended};

use super::group_attributes::{GroupAttributes, push_optional};
use kc_expr::ExprId;
use kc_parser::{Line, SymbolTable};
use kc_tree::{Attributes, Default, ItemsWithKeys, Range, ReverseDependency};
use kc_tree_model::{Attribute, ReverseKind, Sym};
use std::alloc::AllocError;

/// The given condition if an attribute line is a prompt, and `None` if not.
fn prompt_of(line: &Line, condition: ExprId) -> Option<ExprId>
    ensures { result ≡ gathered_prompt line.now condition }
{
    if line.attribute.is_prompt() {
        return Some(condition);
    }
    None
}

/// The default that a line is, with its condition, if it is one.
fn default_of(line: &Line, condition: ExprId) -> Option<Default>
    ensures { result ≡ gathered_default line.now condition }
{
    let valued = line.attribute.default_given()?;
    Some(Default {
        value: valued.value,
        condition,
        from_environment: valued.from_environment,
    })
}

/// The range that a line is, with its condition, if it is one.
fn range_of(line: &Line, condition: ExprId) -> Option<Range>
    ensures { result ≡ gathered_range line.now condition }
{
    match line.attribute {
        Attribute::Range(bounded) => Some(Range {
            low: bounded.low,
            high: bounded.high,
            condition,
        }),
        _ => None,
    }
}

/// Whether an attribute line selects or implies a name.
fn has_target(line: &Line) -> bool
    ensures { result ≡ has_target line.now }
{
    line.attribute.target_given(ReverseKind::Select).is_some()
        || line.attribute.target_given(ReverseKind::Imply).is_some()
}

/// Whether one of some attribute lines selects or implies a name; those of most definitions don't.
fn have_target(lines: &[Line]) -> bool
    ensures { result ≡ list_any has_target lines.now }
{
    lines.iter().any(|line| has_target(line))
}

/// The symbol that an attribute selects or implies, if an entry defines it.
fn target_symbol_of(names: &SymbolTable, line: &Line, forcing: ReverseKind) -> Option<u32>
    requires held { LineNodesExist names.now.arena line.now }
    ensures value { result ≡ gathered_target names.now forcing line.now }
{
    let name = line.attribute.target_given(forcing)?;
    names.number_of(names.arena.name(name))
}

/// Appends what an attribute line with its condition gives the symbol of its definition: a prompt, a default or a range.
fn push_line(
    found: &mut Attributes,
    symbol: u32,
    line: &Line,
    condition: ExprId,
) -> Result<(), AllocError>
    ensures { OnOk result (HasLine symbol found.old found.new line.now condition) }
{
    push_optional(&mut found.prompts, symbol, prompt_of(line, condition))?;
    push_optional(&mut found.defaults, symbol, default_of(line, condition))?;
    push_optional(&mut found.ranges, symbol, range_of(line, condition))?;
    Ok(())
}

/// Appends the prompts, defaults and ranges among a definition's attributes, with their conditions, under the number of its symbol.
pub(crate) fn push_own(
    found: &mut Attributes,
    own: GroupAttributes<'_>,
    symbol: u32,
) -> Result<(), AllocError>
    ensures { OnOk result (HasOwn symbol found.old found.new own.entry.lines.now own.entry.conditions.now) }
{
    let (lines, conditions) = (own.lines, own.conditions);
    for i in 0..lines.len() {
        push_line(found, symbol, &lines[i], conditions[i])?;
    }
    Ok(())
}

/// Appends the selects or the implies among a definition's attributes, each under the number of its target symbol.
fn push_reverse_dependencies(
    found: &mut ItemsWithKeys<ReverseDependency>,
    own: GroupAttributes<'_>,
    forcing: ReverseKind,
    symbol: u32,
) -> Result<(), AllocError>
    requires held { All (LineNodesExist own.names.now.arena) own.lines.now }
    ensures ok { OnOk result (HasAppended (target_key own.entry.names.now forcing) (gathered_reverse_dependency own.entry.names.now forcing symbol) found.old found.new own.entry.lines.now own.entry.conditions.now) }
{
    let (lines, conditions) = (own.lines, own.conditions);
    for i in 0..lines.len() {
        if let Some(target) = target_symbol_of(own.names, &lines[i], forcing) {
            let condition = conditions[i];
            found.push(
                target,
                ReverseDependency {
                    by: Sym::at(symbol),
                    condition,
                },
            )?;
        }
    }
    Ok(())
}

/// Appends the selects and the implies among a definition's attributes, each under the number of its target symbol.
pub(crate) fn push_targets(
    selectors: &mut ItemsWithKeys<ReverseDependency>,
    impliers: &mut ItemsWithKeys<ReverseDependency>,
    own: GroupAttributes<'_>,
    symbol: u32,
) -> Result<(), AllocError>
    requires held { All (LineNodesExist own.names.now.arena) own.lines.now }
    ensures selectors { OnOk result (HasAppended (target_key own.entry.names.now Select) (gathered_reverse_dependency own.entry.names.now Select symbol) selectors.old selectors.new own.entry.lines.now own.entry.conditions.now) }
    ensures impliers { OnOk result (HasAppended (target_key own.entry.names.now Imply) (gathered_reverse_dependency own.entry.names.now Imply symbol) impliers.old impliers.new own.entry.lines.now own.entry.conditions.now) }
{
    if !have_target(own.lines) {
        return Ok(());
    }
    push_reverse_dependencies(selectors, own, ReverseKind::Select, symbol)?;
    push_reverse_dependencies(impliers, own, ReverseKind::Imply, symbol)
}
