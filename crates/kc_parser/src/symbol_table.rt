//! The names of symbols.
ghost use Rattle.std.specs.Prelude.{◌≡◌, ◌<◌, ◌≤◌, ◌++◌, ◌∷◌, ℕ, List, [], length, None, Some, IfOk, IfErr, OnOk, slice_index};
ghost use Rattle.kc_tree_model.specs.declared.fault.TreeKind.TheVariants.{OutOfMemory};
ghost use Rattle.kc_expr.specs.between.Arena.{Grows};
ghost use Rattle.kc_expr.specs.Lookup.{index_of_name};
ghost use Rattle.kc_parser.specs.between.SymbolTable.{number_in_slot, number_in, HasNames};
ghost use Rattle.kc_parser.specs.checker.Symbols.{ReturnsSymbol};

use super::listing::SymbolTable;
use kc_expr::NameId;
use kc_tree_model::TreeKind;
use kc_value::MAX_SYMBOLS;
use std::alloc::AllocError;

/// The number of the symbol of a name of the arena, if an entry defines it.
fn number_at(numbers: &[u32], id: NameId) -> Option<u32>
    ensures { result ≡ number_in_slot (slice_index numbers.now id) }
{
    let index = id.index();
    if index < numbers.len() && numbers[index] > 0 {
        return Some(numbers[index] - 1);
    }
    None
}

/// Pads numbers with zeros to a length.
fn pad_with_zeros(numbers: &mut Vec<u32>, count: usize) -> Result<(), AllocError>
    ensures same { OnOk result ((i : ℕ) → slice_index numbers.new.items i ≡ slice_index numbers.old.items i) }
    ensures many { OnOk result (count ≤ length numbers.new.items) }
    ensures few { OnOk result (length numbers.old.items ≤ count → length numbers.new.items ≤ count) }
{
    if numbers.len() < count {
        numbers.resize(count, 0)?;
    }
    Ok(())
}

impl SymbolTable {
    /// The number of the symbol of a name, in order of first definition from 0; `None` if no entry defines it.
    pub fn number_of(&self, name: &str) -> Option<u32>
        ensures { result ≡ number_in self.now.arena.names self.now.numbers.items name.now }
    {
        let id = self.arena.find(name)?;
        number_at(self.numbers.as_slice(), id)
    }

    /// The number of a new symbol, whose name is held by the arena.
    fn define(&mut self, id: NameId) -> Result<u32, TreeKind>
        requires held { id < length self.old.arena.names }
        requires few { length self.old.symbols.items < MAX_SYMBOLS }
        ensures arena { self.new.arena ≡ self.old.arena }
        ensures number { IfOk result (λ n. n ≡ length self.old.symbols.items) }
        ensures named { (name : List ℕ) (names : List (List ℕ)) → HasNames self.old.arena self.old.symbols.items self.old.numbers.items names
            → index_of_name name self.old.arena.names ≡ Some id → index_of_name name names ≡ None
            → OnOk result (HasNames self.new.arena self.new.symbols.items self.new.numbers.items (names ++ name ∷ [])) }
        ensures memory { IfErr result (λ k. k ≡ OutOfMemory) }
    {
        let number = self.symbols.len() as u32;
        let Ok(()) = pad_with_zeros(&mut self.numbers, self.arena.name_count()) else {
            return Err(TreeKind::OutOfMemory);
        };
        self.numbers[id.index()] = number + 1;
        let Ok(()) = self.symbols.push(id) else {
            return Err(TreeKind::OutOfMemory);
        };
        Ok(number)
    }

    /// The number of the symbol of a name, which is a new one where no entry defines it yet. `TooMany` where there
    /// are as many symbols as there may be.
    pub(crate) fn symbol_of(&mut self, name: &str) -> Result<u32, TreeKind>
        ensures grows { Grows self.old.arena self.new.arena }
        ensures returned { (names : List (List ℕ)) → HasNames self.old.arena self.old.symbols.items self.old.numbers.items names
            → ReturnsSymbol name.now names self.new result }
    {
        let Ok(id) = self.arena.intern(name) else {
            return Err(TreeKind::OutOfMemory);
        };
        if let Some(number) = number_at(self.numbers.as_slice(), id) {
            return Ok(number);
        }
        if self.symbols.len() >= MAX_SYMBOLS {
            return Err(TreeKind::TooMany);
        }
        self.define(id)
    }
}
