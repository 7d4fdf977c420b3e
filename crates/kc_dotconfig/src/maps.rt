//! Maps from numbers.
ghost use Rattle.std.specs.Prelude.{◌≡◌, ◌==◌, ◌∷◌, [], ℕ, IfOk, OnOk, if◌then◌else◌};
ghost use Rattle.std.specs.BTreeMap.{insert_entry};
ghost use Rattle.std.specs.Ordering.{nat_cmp};
ghost use Rattle.kc_dotconfig.specs.checker.Groups.{items_at, items_more};

use std::alloc::{AllocError, Global};
use std::collections::BTreeMap;

/// Sets the value of a key, in place of an earlier one. An `Err` means out of memory.
pub fn put<T: Drop>(map: &mut BTreeMap<u32, T>, key: u32, value: T) -> Result<(), AllocError>
    ensures { OnOk result (map.new.entries ≡ insert_entry nat_cmp map.old.entries key value) }
{
    match map.insert(key, value) {
        Ok(before) => {
            drop(before);
            Ok(())
        }
        Err(_) => Err(AllocError),
    }
}

/// A list of one item.
fn one_item<T: Drop>(alloc: Global, item: T) -> Result<Vec<T>, AllocError>
    ensures { IfOk result (λ items. items.items ≡ item ∷ []) }
{
    let mut items = Vec::with_capacity(alloc, 1)?;
    items.push(item)?;
    Ok(items)
}

/// Adds an item to those of a key. An `Err` means out of memory.
pub fn add_item<T: Drop>(
    alloc: Global,
    groups: &mut BTreeMap<u32, Vec<T>>,
    key: u32,
    item: T,
) -> Result<(), AllocError>
    ensures { OnOk result ((k : ℕ) → items_at T groups.new.entries k ≡ (if k == key then items_more T (items_at T groups.old.entries k) item else items_at T groups.old.entries k)) }
{
    if let Some(items) = groups.get_mut(&key) {
        items.push(item)?;
        return Ok(());
    }
    let items = one_item(alloc, item)?;
    put(groups, key, items)
}
