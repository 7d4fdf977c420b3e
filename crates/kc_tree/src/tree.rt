//! The tree that Kconfig files define.
ghost use Rattle.std.specs.Prelude.{◌≡◌, ◌<◌, ◌↔◌, IsTrue, ℕ, List, [], length, Some, None, IfSome, slice_get, slice_index_or, option_map};
ghost use Rattle.kc_tree_model.specs.Contents.{own_dependencies};
ghost use Rattle.kc_expr.specs.Lookup.{index_of_name};
ghost use Rattle.kc_tree_model.specs.TreeLookup.{IsConsistent, unit_of, index_of_unit, symbol_named};
ghost use Rattle.kc_tree_model.specs.declared.ids.Unit.TheVariants.{Choice as of_choice};
ghost use Rattle.kc_tree_model.specs.declared.ids.Unit.TheVariants.{Symbol as SymbolUnit, Choice as ChoiceUnit};
ghost use Rattle.kc_tree.specs.between.Views.{symbol_view, choice_view, entry_view, symbol_of_name_id, SymbolFits, ChoiceFits, EntryFits};

use super::attributes::GroupedAttributes;
use super::entry::Entry;
use super::items_by_number::ItemsByNumber;
use super::rows::{ChoiceRow, EntryRow, SymbolRow};
use super::symbol::{Choice, MemberDefault, Symbol};
use super::unit_numbers::UnitNumbers;
use kc_expr::{Arena, ExprId, NameId};
use kc_tokens::Language;
use kc_tree_model::{Sym, Unit};
use kc_value::Text;
use std::marker::Model;

/// The tree that Kconfig files define. Contracts see it as a `TreeModel`: the names and expressions of its arena, and its
/// symbols, choices, entries and units.
///
/// `unit_numbers` has the unit of each symbol and of each choice, and `symbol_of_name` for each name of the arena the symbol of that
/// name.
#[derive(Drop)]
pub struct Tree {
    pub(crate) arena: Arena,
    pub(crate) symbols: Vec<SymbolRow>,
    pub(crate) attributes: GroupedAttributes,
    pub(crate) choices: Vec<ChoiceRow>,
    pub(crate) members: ItemsByNumber<Sym>,
    pub(crate) member_defaults: ItemsByNumber<MemberDefault>,
    pub(crate) entries: Vec<EntryRow>,
    pub(crate) titles: Vec<Text>,
    pub(crate) units: Vec<Unit>,
    pub(crate) unit_numbers: UnitNumbers,
    pub(crate) symbol_of_name: Vec<Option<Sym>>,
    pub(crate) language: Language,
}

impl Model for Tree {
    ghost use Rattle.kc_tree.specs.TreeModel.{TreeModel};
    ghost use Rattle.kc_expr.specs.checker.ExprCode.{expr_code};
    ghost use Rattle.std.specs.Coded.{codes};

    ghost Value = { TreeModel };

    ghost coded = { Prim.hlevel (codes, expr_code) };

    ghost use Rattle.kc_tree.specs.checker.TreeView.{tree_model};
    ghost use Rattle.kc_tree.specs.between.StoredFits.{IsSoundTree};

    ghost view = { tree_model };

    ghost invariant = { IsSoundTree };
}

/// The dependencies of a symbol: of a member the first, else all.
fn own_dependencies(choice: Option<u32>, all: &[ExprId]) -> &[ExprId]
    ensures { result.now ≡ own_dependencies choice all.now }
{
    match choice {
        Some(_) if all.len() > 1 => &all[..1],
        _ => all,
    }
}

/// The title with this number.
fn title_at(titles: &[Text], index: u32) -> &str
    requires there { index < length titles.now }
    ensures value { result.now ≡ slice_index_or titles.now index [] }
{
    titles[index as usize].as_str()
}

impl Tree {
    /// The arena of all names and expressions of the tree. A name that isn't in the arena is no symbol's.
    pub fn arena(&self) -> &Arena
        ensures arena { result.now ≡ self.now.exprs }
        ensures absent { (x : List ℕ) → index_of_name x self.now.exprs.names ≡ None → symbol_named self.now.tree x ≡ None }
        ensures consistent { IsConsistent self.now.tree }
    {
        &self.arena
    }

    /// The language of the tree's files, by which some of its rules are chosen.
    pub fn language(&self) -> Language
        ensures { result ≡ self.now.tree.language }
    {
        self.language
    }

    /// The number of units: symbols outside choices, and choices.
    pub fn len(&self) -> u32
        ensures { result ≡ length self.now.tree.units }
    {
        self.units.len() as u32
    }

    /// Whether the tree has no units.
    pub fn is_empty(&self) -> bool
        ensures { IsTrue result ↔ (length self.now.tree.units ≡ 0) }
    {
        self.len() == 0
    }

    /// The number of symbols.
    pub fn symbol_count(&self) -> u32
        ensures { result ≡ length self.now.tree.symbols }
    {
        self.symbols.len() as u32
    }

    /// The number of choices.
    pub fn choice_count(&self) -> u32
        ensures { result ≡ length self.now.tree.choices }
    {
        self.choices.len() as u32
    }

    /// The number of entries: definitions, choices, comments, and the beginnings and ends of menus.
    pub fn entry_count(&self) -> usize
        ensures { result ≡ length self.now.tree.entries }
    {
        self.entries.len()
    }

    /// The unit with number `u`: a symbol outside choices, or a choice.
    pub fn unit(&self, u: u32) -> Unit
        requires there { u < length self.now.tree.units }
        ensures unit { slice_get self.now.tree.units u ≡ Some result }
        ensures symbol { (s : ℕ) → result ≡ SymbolUnit s → s < length self.now.tree.symbols }
        ensures choice { (c : ℕ) → result ≡ ChoiceUnit c → c < length self.now.tree.choices }
    {
        self.units[u as usize]
    }

    /// The symbol with number `s`; symbols are numbered from 0 in order of first definition.
    pub fn symbol(&self, s: Sym) -> Symbol<'_>
        requires there { s < length self.now.tree.symbols }
        ensures symbol { slice_get self.now.tree.symbols s ≡ Some (symbol_view self.now.exprs result) }
        ensures fits { SymbolFits self.now.exprs (length self.now.tree.symbols) result }
        ensures unit { result.unit ≡ unit_of self.now.tree s }
        ensures within { result.unit < length self.now.tree.units }
    {
        let index = s.number() as usize;
        let row = self.symbols[index];
        Symbol {
            name: row.name,
            kind: row.kind,
            file: row.file,
            line: row.line,
            choice: row.choice,
            unit: self.unit_of(s),
            prompts: self.attributes.prompts.get(index),
            defaults: self.attributes.defaults.get(index),
            ranges: self.attributes.ranges.get(index),
            selectors: self.attributes.selectors.get(index),
            impliers: self.attributes.impliers.get(index),
            direct: own_dependencies(row.choice, self.attributes.direct.get(index)),
        }
    }

    /// The choice with number `c`; choices are numbered from 0 in order of their first lines.
    pub fn choice(&self, c: u32) -> Choice<'_>
        requires there { c < length self.now.tree.choices }
        ensures choice { slice_get self.now.tree.choices c ≡ Some (choice_view self.now.exprs result) }
        ensures fits { ChoiceFits self.now.exprs (length self.now.tree.symbols) result }
        ensures unit { result.unit ≡ index_of_unit self.now.tree (of_choice c) }
        ensures within { result.unit < length self.now.tree.units }
    {
        let index = c as usize;
        let row = self.choices[index];
        Choice {
            file: row.file,
            line: row.line,
            unit: self.unit_numbers.choices[index],
            members: self.members.get(index),
            prompt: row.prompt,
            defaults: self.member_defaults.get(index),
            optional: row.optional,
        }
    }

    /// The entry with index `i`, from 0 in reading order.
    pub fn entry(&self, i: usize) -> Entry<'_>
        requires there { i < length self.now.tree.entries }
        ensures entry { slice_get self.now.tree.entries i ≡ Some (entry_view self.now.exprs result) }
        ensures fits { EntryFits (length self.now.exprs.nodes) (length self.now.tree.symbols) (length self.now.tree.choices) result }
    {
        match &self.entries[i] {
            EntryRow::Definition(s) => Entry::Definition(*s),
            EntryRow::ChoiceBegins(c) => Entry::ChoiceBegins(*c),
            EntryRow::MenuBegins {
                title,
                dependency,
                visible,
            } => Entry::MenuBegins {
                title: title_at(&self.titles, *title),
                dependency: *dependency,
                visible: *visible,
            },
            EntryRow::MenuEnds {
                title,
                dependency,
                visible,
            } => Entry::MenuEnds {
                title: title_at(&self.titles, *title),
                dependency: *dependency,
                visible: *visible,
            },
            EntryRow::Comment { title, dependency } => Entry::Comment {
                title: title_at(&self.titles, *title),
                dependency: *dependency,
            },
        }
    }

    /// The symbol of a name of the arena, if an entry defines it.
    pub fn symbol_at(&self, name: NameId) -> Option<Sym>
        ensures symbol { result ≡ symbol_of_name_id self.now.tree self.now.exprs.names name }
        ensures there { IfSome result (λ s. s < length self.now.tree.symbols) }
    {
        let index = name.index();
        let count = self.symbol_of_name.len();
        if index < count {
            self.symbol_of_name[index]
        } else {
            None
        }
    }

    /// The symbol of a name, if an entry defines it.
    pub fn find(&self, name: &str) -> Option<Sym>
        ensures symbol { result ≡ symbol_named self.now.tree name.now }
        ensures there { IfSome result (λ s. s < length self.now.tree.symbols) }
    {
        let id = self.arena.find(name)?;
        self.symbol_at(id)
    }

    /// The name of a symbol.
    pub fn name(&self, s: Sym) -> &str
        requires there { s < length self.now.tree.symbols }
        ensures value { option_map (λ t. t.name) (slice_get self.now.tree.symbols s) ≡ Some result.now }
    {
        self.arena.name(self.symbols[s.number() as usize].name)
    }

    /// The number of a symbol's unit; the unit of a choice member is its choice.
    pub fn unit_of(&self, s: Sym) -> u32
        requires there { s < length self.now.tree.symbols }
        ensures unit { result ≡ unit_of self.now.tree s }
        ensures within { result < length self.now.tree.units }
    {
        self.unit_numbers.symbols[s.number() as usize]
    }
}
