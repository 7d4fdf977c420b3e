//! The table of the symbols of an arena's names.
ghost use Rattle.std.specs.Prelude.{◌≡◌, ◌<◌, ◌^◌, ℕ, IfOk, Some, length, slice_get};
ghost use Rattle.kc_tree.specs.checker.NameTable.{IsTable};
ghost use Rattle.kc_tree.specs.declared.rows.SymbolRow.{SymbolRow as Row};

use super::rows::SymbolRow;
use kc_tree_model::Sym;
use std::alloc::{AllocError, Global};

/// For each of the `names` names of an arena, by its number, the symbol of that name, or `None`. An `Err` means out of memory.
pub(crate) fn symbols_of_names(
    alloc: Global,
    names: usize,
    symbols: &[SymbolRow],
) -> Result<Vec<Option<Sym>>, AllocError>
    requires few { length symbols.now < 2 ^ 32 }
    requires there { (s : ℕ) (r : Row) → slice_get symbols.now s ≡ Some r → r.name < names }
    requires differ { (s t : ℕ) (r q : Row) → slice_get symbols.now s ≡ Some r → slice_get symbols.now t ≡ Some q → r.name ≡ q.name → s ≡ t }
    ensures ok { IfOk result (λ table. IsTable names symbols.now (length symbols.now) table.items) }
{
    let mut table = vec![in alloc; None; names]?;
    for s in 0..symbols.len() {
        table[symbols[s].name.index()] = Some(Sym::at(s as u32));
    }
    Ok(table)
}
