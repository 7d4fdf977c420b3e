//! The tree that Kconfig files define: symbols, choices, entries and units, with all conditions joined; and the lists of which it
//! is made.
#![tactic(auto)]

mod attributes;
mod entry;
mod items_by_number;
mod items_with_keys;
mod kinds;
mod names;
mod rows;
mod symbol;
mod tree;
mod tree_lists;
mod unit_numbers;

pub use attributes::{Attributes, GroupedAttributes};
pub use entry::Entry;
pub use items_by_number::ItemsByNumber;
pub use items_with_keys::ItemsWithKeys;
pub use kc_tree_model::{Sym, Texts, TreeFault, TreeKind, Unit};
pub use kinds::{is_no_member_kind, is_number, is_other_kind, is_tri_kind, kind_in_tree};
pub use rows::{ChoiceRow, EntryRow, SymbolRow};
pub use symbol::{Choice, Default, MemberDefault, Range, ReverseDependency, Symbol};
pub use tree::Tree;
pub use tree_lists::TreeLists;
