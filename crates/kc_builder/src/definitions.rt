//! The attributes of symbols, from all their definitions.
ghost use Rattle.std.specs.Prelude.{◌≡◌, [], All, OnOk};
ghost use Rattle.kc_parser.specs.between.ListingView.{LineNodesExist};
ghost use Rattle.kc_builder.specs.checker.Definitions.{HasDefinition, HasStatement};

use super::definition_attributes::{push_own, push_targets};
use super::group_attributes::GroupAttributes;
use kc_expr::ExprId;
use kc_parser::GroupHead;
use kc_tree::{Attributes, ItemsWithKeys};
use std::alloc::{AllocError, Global};

/// Empty lists of collected attributes. Takes no memory.
pub(crate) fn no_attributes(alloc: Global) -> Attributes
    ensures prompts { (result.prompts.keys.items ≡ []) × (result.prompts.items.items ≡ []) }
    ensures defaults { (result.defaults.keys.items ≡ []) × (result.defaults.items.items ≡ []) }
    ensures ranges { (result.ranges.keys.items ≡ []) × (result.ranges.items.items ≡ []) }
    ensures selectors { (result.selectors.keys.items ≡ []) × (result.selectors.items.items ≡ []) }
    ensures impliers { (result.impliers.keys.items ≡ []) × (result.impliers.items.items ≡ []) }
    ensures direct { (result.direct.keys.items ≡ []) × (result.direct.items.items ≡ []) }
{
    Attributes {
        prompts: ItemsWithKeys::new(alloc),
        defaults: ItemsWithKeys::new(alloc),
        ranges: ItemsWithKeys::new(alloc),
        selectors: ItemsWithKeys::new(alloc),
        impliers: ItemsWithKeys::new(alloc),
        direct: ItemsWithKeys::new(alloc),
    }
}

/// Appends the attributes and the dependency that one definition gives symbols. An `Err` means out of memory.
fn push_definition(
    found: &mut Attributes,
    own: GroupAttributes<'_>,
    symbol: u32,
    dependency: ExprId,
) -> Result<(), AllocError>
    requires held { All (LineNodesExist own.names.now.arena) own.lines.now }
    ensures ok { OnOk result (HasDefinition own.entry.names.now symbol found.old found.new own.entry.lines.now own.entry.conditions.now dependency) }
{
    push_own(found, own, symbol)?;
    push_targets(&mut found.selectors, &mut found.impliers, own, symbol)?;
    found.direct.push(symbol, dependency)?;
    Ok(())
}

/// Appends what a statement gives symbols: its attributes and its dependency if it is a definition, and else nothing. An `Err` means
/// out of memory.
pub(crate) fn push_attributes(
    found: &mut Attributes,
    own: GroupAttributes<'_>,
    head: &GroupHead,
    dependency: ExprId,
) -> Result<(), AllocError>
    requires held { All (LineNodesExist own.names.now.arena) own.lines.now }
    ensures { OnOk result (HasStatement head.now own.entry.names.now found.old found.new own.entry.lines.now own.entry.conditions.now dependency) }
{
    match *head {
        GroupHead::Config(s) => {
            push_definition(found, own, s, dependency)?;
            Ok(())
        }
        _ => Ok(()),
    }
}
