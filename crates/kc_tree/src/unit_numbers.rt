//! The units of symbols and choices.
ghost use Rattle.std.specs.Prelude.{◌≡◌, ◌<◌, ◌^◌, ℕ, IfOk, Some, length, slice_get, slice_index};
ghost use Rattle.kc_tree_model.specs.declared.ids.Unit.{Unit as ToldUnit};
ghost use Rattle.kc_tree_model.specs.declared.ids.Unit.TheVariants.{Symbol as SymbolUnit, Choice as ChoiceUnit};
ghost use Rattle.kc_tree.specs.checker.UnitNumbers.{AreNumbered, own_or_choice};
ghost use Rattle.kc_tree.specs.declared.rows.SymbolRow.{SymbolRow as Row};

use super::rows::SymbolRow;
use kc_tree_model::Unit;
use std::alloc::{AllocError, Global};

/// The unit number of each symbol and of each choice; 0 for a choice member before it gets that of its choice.
#[derive(Drop)]
pub(crate) struct UnitNumbers {
    pub symbols: Vec<u32>,
    pub choices: Vec<u32>,
}

/// The unit number of each symbol and choice of a list of units; 0 for a symbol that isn't in it. An `Err` means out of memory.
pub(crate) fn number_units(
    alloc: Global,
    symbols: usize,
    choices: usize,
    units: &[Unit],
) -> Result<UnitNumbers, AllocError>
    requires few { length units.now < 2 ^ 32 }
    requires symbols { (u s : ℕ) → slice_get units.now u ≡ Some (SymbolUnit s) → s < symbols }
    requires choices { (u c : ℕ) → slice_get units.now u ≡ Some (ChoiceUnit c) → c < choices }
    requires differ { (u w : ℕ) (unit : ToldUnit) → slice_get units.now u ≡ Some unit → slice_get units.now w ≡ Some unit → u ≡ w }
    ensures ok { IfOk result (λ n. AreNumbered symbols choices units.now (length units.now) n.symbols.items n.choices.items) }
{
    let mut of_symbol = vec![in alloc; 0; symbols]?;
    let mut of_choice = vec![in alloc; 0; choices]?;
    for u in 0..units.len() {
        match units[u] {
            Unit::Symbol(s) => of_symbol[s.number() as usize] = u as u32,
            Unit::Choice(c) => of_choice[c as usize] = u as u32,
        }
    }
    Ok(UnitNumbers {
        symbols: of_symbol,
        choices: of_choice,
    })
}

/// Sets the unit number of each choice member to that of its choice.
pub(crate) fn number_members(symbols: &[SymbolRow], numbers: &mut UnitNumbers)
    requires len { length numbers.old.symbols.items ≡ length symbols.now }
    requires there { (s c : ℕ) (r : Row) → slice_get symbols.now s ≡ Some r → r.choice ≡ Some c → c < length numbers.old.choices.items }
    ensures len { length numbers.new.symbols.items ≡ length numbers.old.symbols.items }
    ensures choices { numbers.new.choices.items ≡ numbers.old.choices.items }
    ensures units { (s : ℕ) (r : Row) → slice_get symbols.now s ≡ Some r → slice_index numbers.new.symbols.items s ≡ own_or_choice (slice_index numbers.old.symbols.items s) numbers.old.choices.items r.choice }
{
    for s in 0..symbols.len() {
        if let Some(c) = symbols[s].choice {
            numbers.symbols[s] = numbers.choices[c as usize];
        }
    }
}
