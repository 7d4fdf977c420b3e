//! The lists from which a tree is built.
ghost use Rattle.std.specs.Prelude.{◌≡◌, ◌<◌, ◌^◌, IfOk, length};
ghost use Rattle.kc_tree_model.specs.TreeLookup.{IsConsistent};

use super::attributes::{Attributes, GroupedAttributes};
use super::items_by_number::ItemsByNumber;
use super::items_with_keys::ItemsWithKeys;
use super::names::symbols_of_names;
use super::rows::{ChoiceRow, EntryRow, SymbolRow};
use super::symbol::MemberDefault;
use super::tree::Tree;
use super::unit_numbers::{UnitNumbers, number_members, number_units};
use kc_expr::Arena;
use kc_tokens::Language;
use kc_tree_model::{Sym, Unit};
use kc_value::Text;
use std::alloc::{AllocError, Global};

/// The lists collected from all groups of a listing, from which a tree is built, and the language of the files.
#[derive(Drop)]
pub struct TreeLists {
    pub arena: Arena,
    pub symbols: Vec<SymbolRow>,
    pub attributes: Attributes,
    pub choices: Vec<ChoiceRow>,
    pub members: ItemsWithKeys<Sym>,
    pub member_defaults: ItemsWithKeys<MemberDefault>,
    pub entries: Vec<EntryRow>,
    pub titles: Vec<Text>,
    pub units: Vec<Unit>,
    pub language: Language,
}

impl TreeLists {
    ghost use Rattle.kc_tree.specs.TreeModel.{TreeModel};
    ghost use Rattle.kc_tree.specs.between.GatheredView.{gathered_tree};
    ghost use Rattle.kc_tree.specs.between.GatheredFits.{GatheredFit};
    ghost use Rattle.kc_tree.specs.checker.Tables.{AreTables};
    ghost use Rattle.kc_tree.specs.checker.Units.{HasUnits};

    /// The unit of each symbol and of each choice. An `Err` means out of memory.
    fn unit_numbers(&self, alloc: Global) -> Result<UnitNumbers, AllocError>
        requires few { length self.now.units.items < 2 ^ 32 }
        requires consistent { IsConsistent (gathered_tree self.now) }
        ensures ok { IfOk result (λ n. HasUnits (gathered_tree self.now) n.symbols.items n.choices.items) }
    {
        let mut numbers = number_units(alloc, self.symbols.len(), self.choices.len(), &self.units)?;
        number_members(&self.symbols, &mut numbers);
        Ok(numbers)
    }

    /// The tree with the attributes of each symbol, the members and defaults of each choice, the unit of each, and the symbol of each
    /// name.
    fn with_tables(
        self,
        attributes: GroupedAttributes,
        members: ItemsByNumber<Sym>,
        member_defaults: ItemsByNumber<MemberDefault>,
        unit_numbers: UnitNumbers,
        symbol_of_name: Vec<Option<Sym>>,
    ) -> Tree
        requires fits { GatheredFit self }
        requires consistent { IsConsistent (gathered_tree self) }
        requires tables { AreTables self attributes members member_defaults unit_numbers symbol_of_name }
        ensures value { result ≡ record { exprs = self.arena; tree = gathered_tree self } }
    {
        Tree {
            arena: self.arena,
            symbols: self.symbols,
            attributes,
            choices: self.choices,
            members,
            member_defaults,
            entries: self.entries,
            titles: self.titles,
            units: self.units,
            unit_numbers,
            symbol_of_name,
            language: self.language,
        }
    }

    /// Builds the tree from its collected lists. An `Err` means out of memory.
    pub fn into_tree(self, alloc: Global) -> Result<Tree, AllocError>
        requires fits { GatheredFit self }
        requires consistent { IsConsistent (gathered_tree self) }
        ensures ok { IfOk result (λ t. t ≡ record { exprs = self.arena; tree = gathered_tree self }) }
    {
        let symbol_of_name = symbols_of_names(alloc, self.arena.name_count(), &self.symbols)?;
        let unit_numbers = self.unit_numbers(alloc)?;
        let members = self.members.grouped(alloc, self.choices.len())?;
        let member_defaults = self.member_defaults.grouped(alloc, self.choices.len())?;
        let attributes = self.attributes.grouped(alloc, self.symbols.len())?;
        Ok(self.with_tables(
            attributes,
            members,
            member_defaults,
            unit_numbers,
            symbol_of_name,
        ))
    }
}
