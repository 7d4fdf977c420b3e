//! Lines, and what is on them.
use kc_expr::ExprId;

/// A place in a tree: the number of a file, from 0, and of a line in it, from 1.
#[derive(Clone, Copy, Debug, PartialEq, Eq)]
pub struct Position {
    pub file: u32,
    pub line: u32,
}

/// An expression, the place of its line, and whether it is a part of the condition that a choice is shown.
#[derive(Clone, Copy, Debug, PartialEq, Eq)]
pub struct LocatedExpr {
    pub expr: ExprId,
    pub at: Position,
    pub of_choice: bool,
}

/// The lines of a symbol: the parts of the condition of each prompt and of the dependency of each definition, and the places of its
/// defaults and ranges and of what selects and implies it, all in the order in which the tree has these.
#[derive(Drop)]
pub struct SymbolLines {
    pub prompts: Vec<Vec<LocatedExpr>>,
    pub direct: Vec<Vec<LocatedExpr>>,
    pub defaults: Vec<Position>,
    pub ranges: Vec<Position>,
    pub selectors: Vec<Position>,
    pub impliers: Vec<Position>,
}
