//! The names in an expression.
ghost use Rattle.std.specs.Prelude.{◌≡◌, ◌<◌, ◌++◌, [], All, length, map, take, OnOk, slice_index_or};
ghost use Rattle.kc_expr.specs.between.Arena.{node_expr};
ghost use Rattle.kc_expr.specs.ExpressionNames.{operand_names};
ghost use Rattle.kc_expr.specs.checker.Nodes.{LeafFits, operand_of};
ghost use Rattle.kc_expr.specs.checker.Store.{stored_names, exprs_in, IsSound};
ghost use Rattle.kc_expr.specs.checker.ExpressionWalks.{HasFoundTo, HasVisited};
ghost use Rattle.kc_expr.specs.between.ReverseNames.{names_in_reverse};

use super::ids::NameId;
use super::node::{Leaf, Node};
use super::node_store::NodeStore;
use super::visited_set::VisitedSet;
use std::alloc::AllocError;

/// Appends the name of a leaf, if it is one.
#[tactic(auto, using(kc_tokens::proofs::KeptLists::kept_after))]
fn push_name(store: &NodeStore, leaf: Leaf, found: &mut Vec<NameId>) -> Result<(), AllocError>
    requires fits { LeafFits (length (stored_names store.now)) (length store.now.texts.items) leaf }
    ensures words { OnOk result (map (λ i. slice_index_or (stored_names store.now) i []) found.new.items
        ≡ map (λ i. slice_index_or (stored_names store.now) i []) found.old.items ++ operand_names (operand_of (stored_names store.now) store.now.texts.items leaf)) }
    ensures held { OnOk result (All (λ i. i < length (stored_names store.now)) found.old.items → All (λ i. i < length (stored_names store.now)) found.new.items) }
    ensures kept { take (length found.old.items) found.new.items ≡ found.old.items }
{
    if let Leaf::Name(index) = leaf {
        found.push(NameId::at(index))?;
    }
    Ok(())
}

/// Appends the names of the two sides of a relation.
#[tactic(auto, using(kc_tokens::proofs::KeptLists::kept_through))]
fn push_sides(
    store: &NodeStore,
    left: Leaf,
    right: Leaf,
    found: &mut Vec<NameId>,
) -> Result<(), AllocError>
    requires left { LeafFits (length (stored_names store.now)) (length store.now.texts.items) left }
    requires right { LeafFits (length (stored_names store.now)) (length store.now.texts.items) right }
    ensures words { OnOk result (map (λ i. slice_index_or (stored_names store.now) i []) found.new.items
        ≡ map (λ i. slice_index_or (stored_names store.now) i []) found.old.items
        ++ (operand_names (operand_of (stored_names store.now) store.now.texts.items left) ++ operand_names (operand_of (stored_names store.now) store.now.texts.items right))) }
    ensures held { OnOk result (All (λ i. i < length (stored_names store.now)) found.old.items → All (λ i. i < length (stored_names store.now)) found.new.items) }
    ensures kept { take (length found.old.items) found.new.items ≡ found.old.items }
{
    push_name(store, left, found)?;
    push_name(store, right, found)
}

/// Appends to `found` the numbers of the names in the expression that a node represents.
pub(crate) fn push_names(
    store: &NodeStore,
    index: usize,
    found: &mut Vec<NameId>,
) -> Result<(), AllocError>
    requires there { index < length store.now.nodes.items }
    requires sound { IsSound store.now }
    ensures words { OnOk result (map (λ i. slice_index_or (stored_names store.now) i []) found.new.items
        ≡ map (λ i. slice_index_or (stored_names store.now) i []) found.old.items ++ names_in_reverse (node_expr (exprs_in store.now) index)) }
    ensures held { OnOk result (All (λ i. i < length (stored_names store.now)) found.old.items → All (λ i. i < length (stored_names store.now)) found.new.items) }
    ensures kept { take (length found.old.items) found.new.items ≡ found.old.items }
{
    let mut at = index;
    'down: loop {
        match store.node(at) {
            Node::Alone(leaf) => return push_name(store, leaf, found),
            Node::Related(_, left, right) => return push_sides(store, left, right, found),
            Node::Negated(part) | Node::Shown(part) => at = part as usize,
            Node::Joined(_, left, right) => {
                push_names(store, right as usize, found)?;
                at = left as usize;
            }
        }
    }
}

/// Appends to `found` the numbers of the names in the expression that a node represents, skipping visited nodes, and marks the
/// node as visited. It is stamped before its names are pushed: a node below can't reach it.
#[tactic(auto, using(kc_tokens::proofs::KeptLists::kept_through))]
pub(crate) fn push_new_names(
    store: &NodeStore,
    index: usize,
    walk: &mut VisitedSet,
    found: &mut Vec<NameId>,
) -> Result<(), AllocError>
    requires there { index < length store.now.nodes.items }
    requires sound { IsSound store.now }
    requires room { length walk.old ≡ length store.now.nodes.items }
    requires found { HasFoundTo (exprs_in store.now) index walk.old found.old.items }
    ensures walked { OnOk result (HasVisited (exprs_in store.now) index walk.old walk.new found.old.items found.new.items) }
    ensures held { OnOk result (All (λ i. i < length (stored_names store.now)) found.old.items → All (λ i. i < length (stored_names store.now)) found.new.items) }
    ensures kept { take (length found.old.items) found.new.items ≡ found.old.items }
{
    let mut at = index;
    'down: loop {
        if walk.contains(at) {
            return Ok(());
        }
        walk.mark(at);
        match store.node(at) {
            Node::Alone(leaf) => return push_name(store, leaf, found),
            Node::Related(_, left, right) => return push_sides(store, left, right, found),
            Node::Negated(part) | Node::Shown(part) => at = part as usize,
            Node::Joined(_, left, right) => {
                push_new_names(store, right as usize, walk, found)?;
                at = left as usize;
            }
        }
    }
}
