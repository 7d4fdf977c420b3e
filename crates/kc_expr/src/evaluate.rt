//! Values of expressions.
ghost use Rattle.std.specs.Prelude.{◌≡◌, ◌≢◌, ◌<◌, IfSome, IfNone, ℕ, length, pos, slice_index_or, true, false};
ghost use Rattle.kc_value.specs.Tri.{rank};
ghost use Rattle.kc_value.specs.declared.tri.Tri.TheVariants.{N, Y};
ghost use Rattle.std.specs.Prelude.{◌&&◌, if◌then◌else◌};
ghost use Rattle.std.specs.Cmp.Lexicographic.{slice_cmp};
ghost use Rattle.std.specs.Ordering.{nat_cmp};
ghost use Rattle.kc_expr.specs.Expr.{compared_by, value, operand_value, operand_text, operand_number, is_string, compared, relation_holds, tri_of_kind, number_of_kind};
ghost use Rattle.kc_expr.specs.between.Arena.{node_expr};
ghost use Rattle.kc_expr.specs.declared.node.Node.TheVariants.{Joined};
ghost use Rattle.kc_expr.specs.checker.Nodes.{LeafFits, operand_of, joined_value, some_node};
ghost use Rattle.kc_expr.specs.checker.Store.{stored_names, exprs_in, IsSound};
ghost use Rattle.kc_expr.specs.Lookup.{environment_of, AreDistinct};

use super::ids::NameId;
use super::lookup::Lookup;
use super::node::{Connective, Leaf, Node};
use super::node_store::NodeStore;
use kc_tokens::Relop;
use kc_value::{Kind, Tri, hex_of, int_of, loose_number_of};
use std::cmp::Ordering;

/// Whether a relation holds between operands, by how they compare.
fn relation_holds(op: Relop, order: Ordering) -> bool
    ensures { result ≡ relation_holds op order }
{
    match op {
        Relop::Equal => order == Ordering::Equal,
        Relop::NotEqual => order != Ordering::Equal,
        Relop::Less => order == Ordering::Less,
        Relop::Greater => order == Ordering::Greater,
        Relop::LessEqual => order != Ordering::Greater,
        Relop::GreaterEqual => order != Ordering::Less,
    }
}

/// The value of a symbol that is a whole expression.
fn alone_value(kind: Kind, tri: Tri) -> Tri
    ensures { result ≡ tri_of_kind kind tri }
{
    match kind {
        Kind::Bool | Kind::Tristate => tri,
        Kind::Text | Kind::Int | Kind::Hex => Tri::N,
    }
}

fn rank_of(value: Tri) -> i128
    ensures { result ≡ pos (rank value) }
{
    match value {
        Tri::N => 0,
        Tri::M => 1,
        Tri::Y => 2,
    }
}

/// The number of a symbol, by its type, its tristate value and its text; `None` if it has none.
fn symbol_number(kind: Kind, tri: Tri, text: &str) -> Option<i128>
    ensures { result ≡ number_of_kind kind tri text.now }
{
    match kind {
        Kind::Bool | Kind::Tristate => Some(rank_of(tri)),
        Kind::Text => loose_number_of(text.as_bytes()),
        Kind::Int => int_of(text.as_bytes()),
        Kind::Hex => hex_of(text.as_bytes()),
    }
}

/// One side of a relation.
#[derive(Clone, Copy)]
struct Side<'a> {
    text: &'a str,
    number: Option<i128>,
    is_text: bool,
}

/// A side of a relation: its text, its number, and whether it is string-typed.
#[tactic(auto, using(crate::proofs::Places::seen_at))]
fn side_of<'a, L: Lookup>(store: &'a NodeStore, leaf: Leaf, lookup: &'a L) -> Side<'a>
    requires fits { LeafFits (length (stored_names store.now)) (length store.now.texts.items) leaf }
    requires distinct { AreDistinct (stored_names store.now) }
    ensures text { result.text.now ≡ operand_text (environment_of (stored_names store.now) (L.symbol_values lookup.now)) (operand_of (stored_names store.now) store.now.texts.items leaf) }
    ensures number { result.number ≡ operand_number (environment_of (stored_names store.now) (L.symbol_values lookup.now)) (operand_of (stored_names store.now) store.now.texts.items leaf) }
    ensures is_text { result.is_text ≡ is_string (environment_of (stored_names store.now) (L.symbol_values lookup.now)) (operand_of (stored_names store.now) store.now.texts.items leaf) }
{
    match leaf {
        Leaf::Constant(t) => Side {
            text: t.letter(),
            number: Some(rank_of(t)),
            is_text: false,
        },
        Leaf::Quoted(i) => {
            let text = store.text(i as usize);
            Side {
                text,
                number: loose_number_of(text.as_bytes()),
                is_text: true,
            }
        }
        Leaf::Name(i) => match lookup.look(NameId::at(i)) {
            None => {
                let text = store.name(i as usize);
                Side {
                    text,
                    number: loose_number_of(text.as_bytes()),
                    is_text: false,
                }
            }
            Some(l) => Side {
                text: l.text,
                number: symbol_number(l.kind, l.tri, l.text),
                is_text: matches!(l.kind, Kind::Text),
            },
        },
    }
}

/// How the two sides of a relation compare.
fn compare(a: Side<'_>, b: Side<'_>) -> Ordering
    ensures { result ≡ (if a.entry.is_text && b.entry.is_text then slice_cmp nat_cmp a.entry.text.now b.entry.text.now else compared_by a.entry.number b.entry.number (slice_cmp nat_cmp a.entry.text.now b.entry.text.now)) }
{
    if a.is_text && b.is_text {
        return a.text.cmp(b.text);
    }
    match (a.number, b.number) {
        (Some(m), Some(n)) => m.cmp(&n),
        _ => a.text.cmp(b.text),
    }
}

/// The value of a leaf that is a whole expression.
#[tactic(auto, using(crate::proofs::Places::seen_at))]
fn leaf_value<L: Lookup>(store: &NodeStore, leaf: Leaf, lookup: &L) -> Tri
    requires fits { LeafFits (length (stored_names store.now)) (length store.now.texts.items) leaf }
    requires distinct { AreDistinct (stored_names store.now) }
    ensures value { result ≡ operand_value (environment_of (stored_names store.now) (L.symbol_values lookup.now)) (operand_of (stored_names store.now) store.now.texts.items leaf) }
{
    match leaf {
        Leaf::Constant(t) => t,
        Leaf::Quoted(_) => Tri::N,
        Leaf::Name(i) => match lookup.look(NameId::at(i)) {
            None => Tri::N,
            Some(l) => alone_value(l.kind, l.tri),
        },
    }
}

/// The value of a relation.
fn related_value<L: Lookup>(store: &NodeStore, op: Relop, a: Leaf, b: Leaf, lookup: &L) -> Tri
    requires left { LeafFits (length (stored_names store.now)) (length store.now.texts.items) a }
    requires right { LeafFits (length (stored_names store.now)) (length store.now.texts.items) b }
    requires distinct { AreDistinct (stored_names store.now) }
    ensures value { let seen = environment_of (stored_names store.now) (L.symbol_values lookup.now) in
        result ≡ (if relation_holds op (compared seen (operand_of (stored_names store.now) store.now.texts.items a) (operand_of (stored_names store.now) store.now.texts.items b)) then Y else N) }
{
    let left = side_of(store, a, lookup);
    let right = side_of(store, b, lookup);
    if relation_holds(op, compare(left, right)) {
        Tri::Y
    } else {
        Tri::N
    }
}

/// The value of `&&` or `||` of two values.
fn join(connective: Connective, a: Tri, b: Tri) -> Tri
    ensures { result ≡ joined_value connective a b }
{
    match connective {
        Connective::And => a.and(b),
        Connective::Or => a.or(b),
    }
}

/// Whether one operand's value is the value of `&&` or `||`, whatever the other operand is: `n` of `&&`, and `y` of `||`.
fn decides(connective: Connective, value: Tri) -> bool
    ensures decided { result ≡ true → value ≡ joined_value connective N Y }
    ensures open { result ≡ false → value ≢ joined_value connective N Y }
{
    match connective {
        Connective::And => value == Tri::N,
        Connective::Or => value == Tri::Y,
    }
}

/// The numbers of the nodes that a node joins by this connective; `None` where it is no such node.
fn sides_of(store: &NodeStore, connective: Connective, index: usize) -> Option<(usize, usize)>
    requires there { index < length store.now.nodes.items }
    ensures some { IfSome result (λ sides. slice_index_or store.now.nodes.items index some_node ≡ Joined connective sides.0 sides.1) }
    ensures none { IfNone result ((left right : ℕ) → slice_index_or store.now.nodes.items index some_node ≢ Joined connective left right) }
{
    match store.node(index) {
        Node::Joined(found, left, right) if found == connective => {
            Some((left as usize, right as usize))
        }
        _ => None,
    }
}

/// The value of the expression that a node represents, by the node's number. Most expressions are just one operand.
#[inline(always)]
pub(crate) fn value_of<L: Lookup>(store: &NodeStore, index: usize, lookup: &L) -> Tri
    requires there { index < length store.now.nodes.items }
    requires sound { IsSound store.now }
    ensures value { result ≡ value (environment_of (stored_names store.now) (L.symbol_values lookup.now)) (node_expr (exprs_in store.now) index) }
{
    if let Node::Alone(leaf) = store.node(index) {
        return leaf_value(store, leaf, lookup);
    }
    value_at(store, index, lookup)
}

/// The value of the expression of a node, whatever it is. A chain of `&&` or `||`, which group from the left, is gone down by a loop,
/// from its last operand to the first that decides it.
#[inline(never)]
fn value_at<L: Lookup>(store: &NodeStore, index: usize, lookup: &L) -> Tri
    requires there { index < length store.now.nodes.items }
    requires sound { IsSound store.now }
    ensures value { result ≡ value (environment_of (stored_names store.now) (L.symbol_values lookup.now)) (node_expr (exprs_in store.now) index) }
{
    match store.node(index) {
        Node::Alone(leaf) => leaf_value(store, leaf, lookup),
        Node::Related(op, a, b) => related_value(store, op, a, b, lookup),
        Node::Negated(e) => value_at(store, e as usize, lookup).not(),
        Node::Shown(e) => value_at(store, e as usize, lookup).y_for_m(),
        Node::Joined(connective, left, right) => {
            let mut joined = value_at(store, right as usize, lookup);
            let mut at = left as usize;
            'chain: while !decides(connective, joined) {
                match sides_of(store, connective, at) {
                    Some((left, right)) => {
                        let value = value_at(store, right, lookup);
                        joined = join(connective, joined, value);
                        at = left;
                    }
                    None => {
                        let first = value_at(store, at, lookup);
                        return join(connective, joined, first);
                    }
                }
            }
            joined
        }
    }
}
