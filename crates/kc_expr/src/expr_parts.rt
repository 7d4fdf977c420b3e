//! The parts of which an expression is made.
ghost use Rattle.std.specs.Prelude.{◌≡◌, ◌<◌, length};
ghost use Rattle.kc_expr.specs.between.Arena.{node_expr};
ghost use Rattle.kc_expr.specs.between.ExprParts.{expr_of_parts, ArePartsOf};
ghost use Rattle.kc_expr.specs.between.Operand.{operand_of_ref, HasKnownName};
ghost use Rattle.kc_expr.specs.checker.Nodes.{LeafFits, operand_of};
ghost use Rattle.kc_expr.specs.checker.Store.{stored_names, exprs_in, IsSound};

use super::ids::{ExprId, NameId};
use super::node::{Connective, Leaf, Node};
use super::node_store::NodeStore;
use super::operand::Operand;
use kc_tokens::Relop;

/// What an expression is made of: operands, or expressions of the same arena with smaller numbers.
#[derive(Clone, Copy)]
pub enum ExprParts<'a> {
    Alone(Operand<'a>),
    Related(Relop, Operand<'a>, Operand<'a>),
    Negated(ExprId),
    Both(ExprId, ExprId),
    Either(ExprId, ExprId),
    Shown(ExprId),
}

/// The operand that a leaf is.
fn operand_at(store: &NodeStore, leaf: Leaf) -> Operand<'_>
    requires fits { LeafFits (length (stored_names store.now)) (length store.now.texts.items) leaf }
    ensures operand { operand_of_ref (stored_names store.now) result ≡ operand_of (stored_names store.now) store.now.texts.items leaf }
    ensures held { HasKnownName (stored_names store.now) result }
{
    match leaf {
        Leaf::Constant(t) => Operand::Tri(t),
        Leaf::Name(i) => Operand::Name(NameId::at(i)),
        Leaf::Quoted(i) => Operand::Quoted(store.text(i as usize)),
    }
}

/// The parts of the expression that a node represents.
pub(crate) fn parts_of(store: &NodeStore, index: usize) -> ExprParts<'_>
    requires there { index < length store.now.nodes.items }
    requires sound { IsSound store.now }
    ensures expr { node_expr (exprs_in store.now) index ≡ expr_of_parts (exprs_in store.now) result }
    ensures within { ArePartsOf (exprs_in store.now) index result }
{
    match store.node(index) {
        Node::Alone(leaf) => ExprParts::Alone(operand_at(store, leaf)),
        Node::Related(op, left, right) => {
            ExprParts::Related(op, operand_at(store, left), operand_at(store, right))
        }
        Node::Negated(part) => ExprParts::Negated(ExprId::at(part)),
        Node::Joined(Connective::And, left, right) => ExprParts::Both(
            ExprId::at(left),
            ExprId::at(right),
        ),
        Node::Joined(Connective::Or, left, right) => ExprParts::Either(
            ExprId::at(left),
            ExprId::at(right),
        ),
        Node::Shown(part) => ExprParts::Shown(ExprId::at(part)),
    }
}
