//! The attributes of all symbols, as they are collected, and grouped by symbol.
ghost use Rattle.std.specs.Prelude.{◌<◌, ◌^◌, IfOk};

use super::items_by_number::ItemsByNumber;
use super::items_with_keys::ItemsWithKeys;
use super::symbol::{Default, Range, ReverseDependency};
use kc_expr::ExprId;
use std::alloc::{AllocError, Global};

/// The collected attributes of symbols, in reading order, each under the number of its symbol; a `select` or `imply` is under the
/// number of its target.
#[derive(Drop)]
pub struct Attributes {
    pub prompts: ItemsWithKeys<ExprId>,
    pub defaults: ItemsWithKeys<Default>,
    pub ranges: ItemsWithKeys<Range>,
    pub selectors: ItemsWithKeys<ReverseDependency>,
    pub impliers: ItemsWithKeys<ReverseDependency>,
    pub direct: ItemsWithKeys<ExprId>,
}

/// The attributes of all symbols, grouped by symbol; a `select` or `imply` belongs to its target.
#[derive(Drop)]
pub struct GroupedAttributes {
    pub prompts: ItemsByNumber<ExprId>,
    pub defaults: ItemsByNumber<Default>,
    pub ranges: ItemsByNumber<Range>,
    pub selectors: ItemsByNumber<ReverseDependency>,
    pub impliers: ItemsByNumber<ReverseDependency>,
    pub direct: ItemsByNumber<ExprId>,
}

impl Attributes {
    ghost use Rattle.kc_tree.specs.between.GatheredAttributes.{HaveKeys, AreGrouped};

    /// Groups the attributes by symbol. An `Err` means out of memory.
    pub(crate) fn grouped(
        &self,
        alloc: Global,
        count: usize,
    ) -> Result<GroupedAttributes, AllocError>
        requires keys { HaveKeys count self.now }
        requires few { count < 2 ^ 32 }
        ensures ok { IfOk result (AreGrouped count self.now) }
    {
        Ok(GroupedAttributes {
            prompts: self.prompts.grouped(alloc, count)?,
            defaults: self.defaults.grouped(alloc, count)?,
            ranges: self.ranges.grouped(alloc, count)?,
            selectors: self.selectors.grouped(alloc, count)?,
            impliers: self.impliers.grouped(alloc, count)?,
            direct: self.direct.grouped(alloc, count)?,
        })
    }
}
