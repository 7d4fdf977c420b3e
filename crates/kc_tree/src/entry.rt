//! The entries of a tree.
use kc_expr::ExprId;
use kc_tree_model::Sym;

/// An entry of a tree: a definition of a symbol, a choice, the beginning or the end of a menu, or a comment. `dependency` is what
/// it depends on, and `visible` is a menu's `visible if`, each joined with the enclosing ones.
#[derive(Clone, Copy)]
pub enum Entry<'a> {
    Definition(Sym),
    ChoiceBegins(u32),
    MenuBegins {
        title: &'a str,
        dependency: ExprId,
        visible: ExprId,
    },
    MenuEnds {
        title: &'a str,
        dependency: ExprId,
        visible: ExprId,
    },
    Comment {
        title: &'a str,
        dependency: ExprId,
    },
}
