//! Items in the order in which they are appended, each with its key.
ghost use Rattle.std.specs.Prelude.{◌≡◌, ◌<◌, ◌^◌, ℕ, [], ◌∷◌, ◌++◌, IfOk, OnOk, OnErr, length, slice_index};
ghost use Rattle.kc_tree.specs.between.GroupedItems.{IsGrouped};

use super::items_by_number::ItemsByNumber;
use std::alloc::{AllocError, Global};

/// A list of items, each with a key, in the order in which they were appended.
#[derive(Drop)]
pub struct ItemsWithKeys<T> {
    pub keys: Vec<u32>,
    pub items: Vec<T>,
    ghost even: { length items.items ≡ length keys.items },
}

impl<T: Copy> ItemsWithKeys<T> {
    /// An empty list of items with keys. Takes no memory.
    pub fn new(alloc: Global) -> ItemsWithKeys<T>
        ensures keys { result.keys.items ≡ [] }
        ensures items { result.items.items ≡ [] }
    {
        ItemsWithKeys {
            keys: Vec::new(alloc),
            items: Vec::new(alloc),
        }
    }

    /// Appends an item with its key. An `Err` means out of memory, and leaves the list unchanged.
    pub fn push(&mut self, key: u32, item: T) -> Result<(), AllocError>
        ensures keys { OnOk result (self.new.keys.items ≡ self.old.keys.items ++ key ∷ []) }
        ensures items { OnOk result (self.new.items.items ≡ self.old.items.items ++ item ∷ []) }
        ensures same_keys { OnErr result (self.new.keys.items ≡ self.old.keys.items) }
        ensures same_items { OnErr result (self.new.items.items ≡ self.old.items.items) }
    {
        self.keys.push(key)?;
        if self.items.push(item).is_err() {
            let _ = self.keys.pop();
            return Err(AllocError);
        }
        Ok(())
    }

    /// Groups the items by their keys, which are below `count`. An `Err` means out of memory, or 2^32 items or more.
    pub fn grouped(&self, alloc: Global, count: usize) -> Result<ItemsByNumber<T>, AllocError>
        requires keys { (i : ℕ) → i < length self.now.keys.items → slice_index self.now.keys.items i < count }
        requires few { count < 2 ^ 32 }
        ensures ok { IfOk result (λ g. IsGrouped count self.now.keys.items self.now.items.items g.starts.items g.items.items) }
    {
        ItemsByNumber::new(alloc, count, &self.keys, &self.items)
    }
}
