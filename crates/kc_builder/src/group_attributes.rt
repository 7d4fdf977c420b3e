//! The attributes of one group.
ghost use Rattle.std.specs.Prelude.{◌≡◌, ◌++◌, OnOk, length, map, option_to_list};

use kc_expr::ExprId;
use kc_parser::{Line, SymbolTable};
use kc_tree::ItemsWithKeys;
use std::alloc::AllocError;

/// The attribute lines of a group with their joined conditions, and the names of all symbols.
#[derive(Clone, Copy)]
pub(crate) struct GroupAttributes<'a> {
    pub names: &'a SymbolTable,
    pub lines: &'a [Line],
    pub conditions: &'a [ExprId],
    ghost many: { length conditions.now ≡ length lines.now },
}

/// Appends an item under a key, if there is one. An `Err` means out of memory.
pub(crate) fn push_optional<T: Copy>(
    found: &mut ItemsWithKeys<T>,
    key: u32,
    item: Option<T>,
) -> Result<(), AllocError>
    ensures keys { OnOk result (found.new.keys.items ≡ found.old.keys.items ++ map (λ _. key) (option_to_list item)) }
    ensures items { OnOk result (found.new.items.items ≡ found.old.items.items ++ option_to_list item) }
{
    match item {
        Some(item) => found.push(key, item),
        None => Ok(()),
    }
}
