//! The rows that a tree stores of its symbols, choices and entries.
use kc_expr::{ExprId, NameId};
use kc_tree_model::Sym;
use kc_value::Kind;

/// A stored symbol without its attributes: its name and type, the file's number and the line of its first definition, and the
/// number of its choice if it is a member.
#[derive(Clone, Copy)]
pub struct SymbolRow {
    pub name: NameId,
    pub kind: Kind,
    pub file: u32,
    pub line: u32,
    pub choice: Option<u32>,
}

/// A stored choice without its members and defaults: its file's number and line, the condition of its prompt if it has one, and
/// whether it is optional.
#[derive(Clone, Copy)]
pub struct ChoiceRow {
    pub file: u32,
    pub line: u32,
    pub prompt: Option<ExprId>,
    pub optional: bool,
}

/// A stored entry of a tree; `title` is an index into the tree's titles.
#[derive(Clone, Copy)]
pub enum EntryRow {
    Definition(Sym),
    ChoiceBegins(u32),
    MenuBegins {
        title: u32,
        dependency: ExprId,
        visible: ExprId,
    },
    MenuEnds {
        title: u32,
        dependency: ExprId,
        visible: ExprId,
    },
    Comment {
        title: u32,
        dependency: ExprId,
    },
}
