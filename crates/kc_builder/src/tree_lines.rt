//! The lines of a tree's files.
use kc_expr::ExprId;
use kc_parser::{Group, Line};
use kc_tree::Tree;

/// The statements and attributes that were read from a tree's files, in reading order, each with its line; the attributes of a
/// group are those `lines` from its index on, up to those of the next one. Names and expressions are of the tree's arena, in which
/// `no` is the expression `n`.
#[derive(Drop)]
pub struct TreeLines {
    pub groups: Vec<Group>,
    pub lines: Vec<Line>,
    pub no: ExprId,
}

/// A tree and the lines of its files.
#[derive(Drop)]
pub struct TreeWithLines {
    pub tree: Tree,
    pub lines: TreeLines,
}
