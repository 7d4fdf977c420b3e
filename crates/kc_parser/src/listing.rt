//! The statements of a tree's files.
use kc_expr::{Arena, ExprId, NameId};
use kc_statements::ReadAttribute;
use kc_tree_model::Block;
use kc_value::Text;

/// A statement other than an attribute, or the end of a sourced file. A symbol is given by its number in order of
/// first definition, a title or a path by its index among the texts of the listing.
#[derive(Clone, Copy)]
pub enum GroupHead {
    Config(u32),
    Choice,
    Menu(usize),
    Condition(ExprId),
    Comment(usize),
    Source(usize),
    Mainmenu,
    Ends(Block),
    FileEnd,
}

/// A statement other than an attribute, or the end of a sourced file, with its file and line, the index of its first
/// attribute among `lines`, and the number of the innermost choice that it is in, where the choices of all files are
/// counted from 0 in reading order. Its attributes reach up to those of the next group.
#[derive(Clone, Copy)]
pub struct Group {
    pub file: u32,
    pub line: u32,
    pub head: GroupHead,
    pub attributes: usize,
    pub choice: Option<u32>,
}

/// An attribute of a statement, such as a default, and its line.
#[derive(Clone, Copy)]
pub struct Line {
    pub number: u32,
    pub attribute: ReadAttribute,
}

/// The names of symbols in an arena.
///
/// `symbols` has the name of each symbol. `numbers` has for a name of the arena one more than the number of its
/// symbol, and 0 where no entry defines the name; a name past the end of `numbers` has no symbol.
#[derive(Drop)]
pub struct SymbolTable {
    pub arena: Arena,
    pub symbols: Vec<NameId>,
    pub numbers: Vec<u32>,
}

/// All statements that were read from a tree's files, in reading order, with the names of the symbols and the texts.
#[derive(Drop)]
pub struct Listing {
    pub names: SymbolTable,
    pub texts: Vec<Text>,
    pub groups: Vec<Group>,
    pub lines: Vec<Line>,
}
