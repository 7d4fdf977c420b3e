//! The lists that an arena holds.
ghost use Rattle.std.specs.Prelude.{◌≡◌, ◌<◌, ◌^◌, [], length, take, Some, IsTrue, IfSome, IfOk, IfErr, OnOk, OnErr, slice_index_or};
ghost use Rattle.kc_tokens.specs.MemoryFaults.{IsOutOfMemory};
ghost use Rattle.kc_expr.specs.between.Arena.{Represents};
ghost use Rattle.kc_expr.specs.Lookup.{index_of_name};
ghost use Rattle.kc_expr.specs.between.Names.{with_name};
ghost use Rattle.kc_expr.specs.checker.Nodes.{NodeFits, expr_of, some_node};

use super::node::Node;
use indexmap::IndexSet;
use kc_tokens::ExprFault;
use kc_value::{Seed, Text};
use std::alloc::{AllocError, Global};

/// The lists that an arena holds: names in order of first occurrence, quoted texts other than the constants, and nodes whose
/// children have smaller numbers.
#[derive(Drop)]
pub(crate) struct NodeStore {
    alloc: Global,
    names: IndexSet<String, Seed>,
    texts: Vec<Text>,
    nodes: Vec<Node>,
}

/// The lengths of a store's lists at some moment, to which `back_to` cuts them.
#[derive(Clone, Copy)]
pub(crate) struct Mark {
    names: usize,
    texts: usize,
    nodes: usize,
}

/// A place as a number of 32 bits; out of memory if it doesn't fit.
fn index_of_32_bits(place: usize) -> Result<u32, ExprFault>
    ensures number { IfOk result (λ n. n ≡ place) }
    ensures below { OnOk result (place < 2 ^ 32) }
    ensures memory { IfErr result IsOutOfMemory }
{
    if place > u32::MAX as usize {
        return Err(AllocError.into());
    }
    Ok(place as u32)
}

impl NodeStore {
    ghost use Rattle.kc_expr.specs.checker.Store.{stored_names, exprs_in, IsSound, Extends, IsMark};

    /// A store without names, texts and nodes. Names are hashed with `seed`.
    pub(crate) fn new(alloc: Global, seed: Seed) -> NodeStore
        ensures names { result.names.keys ≡ [] }
        ensures texts { result.texts.items ≡ [] }
        ensures nodes { result.nodes.items ≡ [] }
    {
        NodeStore {
            alloc,
            names: IndexSet::with_hasher(alloc, seed),
            texts: Vec::new(alloc),
            nodes: Vec::new(alloc),
        }
    }

    pub(crate) fn alloc(&self) -> Global {
        self.alloc
    }

    pub(crate) fn name_count(&self) -> usize
        ensures { result ≡ length (stored_names self.now) }
    {
        self.names.len()
    }

    pub(crate) fn node_count(&self) -> usize
        ensures { result ≡ length (exprs_in self.now).nodes }
    {
        self.nodes.len()
    }

    /// The node with a given number.
    pub(crate) fn node(&self, index: usize) -> Node
        requires there { index < length self.now.nodes.items }
        ensures value { result ≡ slice_index_or self.now.nodes.items index some_node }
    {
        self.nodes[index]
    }

    /// The text of a name, by its number.
    pub(crate) fn name(&self, index: usize) -> &str
        requires there { index < length (stored_names self.now) }
        ensures value { result.now ≡ slice_index_or (stored_names self.now) index [] }
    {
        self.names.as_slice()[index].as_str()
    }

    /// The text of a quoted text, by its number.
    pub(crate) fn text(&self, index: usize) -> &str
        requires there { index < length self.now.texts.items }
        ensures value { result.now ≡ slice_index_or self.now.texts.items index [] }
    {
        self.texts[index].as_str()
    }

    /// The number of a name; `None` if the store doesn't hold it.
    pub(crate) fn find(&self, name: &str) -> Option<u32>
        requires sound { IsSound self.now }
        ensures value { result ≡ index_of_name name.now (stored_names self.now) }
    {
        match self.names.get_index_of(name) {
            Some(index) => Some(index as u32),
            None => None,
        }
    }

    /// The number of a name, if it is one of the last two that were appended, else `None`: expressions often name a symbol that
    /// was just defined.
    pub(crate) fn find_newest(&self, name: &str) -> Option<u32>
        requires sound { IsSound self.now }
        ensures place { IfSome result (λ i. index_of_name name.now (stored_names self.now) ≡ Some i) }
    {
        let count = self.names.len();
        if count > 0 && self.has_at(count - 1, name) {
            return Some((count - 1) as u32);
        }
        if count > 1 && self.has_at(count - 2, name) {
            return Some((count - 2) as u32);
        }
        None
    }

    /// Whether this name is at a place. Names that follow one another differ mostly at their ends: these are compared
    /// first.
    fn has_at(&self, index: usize, name: &str) -> bool
        requires there { index < length (stored_names self.now) }
        ensures name { IsTrue result → slice_index_or (stored_names self.now) index [] ≡ name.now }
    {
        let held = self.name(index);
        held.len() == name.len() && held.as_bytes().last() == name.as_bytes().last() && held == name
    }

    /// Appends a node, and returns its number. An `Err` means out of memory, or that there are 2^32 nodes already.
    pub(crate) fn push(&mut self, node: Node) -> Result<u32, ExprFault>
        requires sound { IsSound self.old }
        requires fits { NodeFits (length (stored_names self.old)) (length self.old.texts.items) (length self.old.nodes.items) node }
        ensures sound { IsSound self.new }
        ensures extends { Extends self.old self.new }
        ensures names { stored_names self.new ≡ stored_names self.old }
        ensures represents { IfOk result (λ id. Represents (exprs_in self.new) id (expr_of (stored_names self.old) self.old.texts.items (exprs_in self.old).nodes node)) }
        ensures memory { IfErr result IsOutOfMemory }
        ensures err { OnErr result (exprs_in self.new ≡ exprs_in self.old) }
    {
        let id = index_of_32_bits(self.nodes.len())?;
        self.nodes.push(node)?;
        Ok(id)
    }

    /// The number of a name, which is appended if the store doesn't hold it. An `Err` means out of memory, or that there are 2^32
    /// names already.
    pub(crate) fn insert_name(&mut self, name: &str) -> Result<u32, ExprFault>
        requires sound { IsSound self.old }
        ensures sound { IsSound self.new }
        ensures extends { Extends self.old self.new }
        ensures place { IfOk result (λ i. index_of_name name.now (stored_names self.new) ≡ Some i) }
        ensures within { IfOk result (λ i. i < length (stored_names self.new)) }
        ensures name { IfOk result (λ i. slice_index_or (stored_names self.new) i [] ≡ name.now) }
        ensures names { IfOk result (λ i. stored_names self.new ≡ with_name name.now (stored_names self.old)) }
        ensures texts { self.new.texts.items ≡ self.old.texts.items }
        ensures nodes { self.new.nodes.items ≡ self.old.nodes.items }
        ensures memory { IfErr result IsOutOfMemory }
        ensures err { OnErr result (exprs_in self.new ≡ exprs_in self.old) }
    {
        let _ = index_of_32_bits(self.names.len())?;
        let (index, _) = self.names.insert_full(String::from_str(self.alloc, name)?)?;
        Ok(index as u32)
    }

    /// Appends a quoted text, and returns its number. An `Err` means out of memory, or that there are 2^32 texts already.
    pub(crate) fn keep(&mut self, text: Text) -> Result<u32, ExprFault>
        requires sound { IsSound self.old }
        ensures sound { IsSound self.new }
        ensures extends { Extends self.old self.new }
        ensures within { IfOk result (λ i. i < length self.new.texts.items) }
        ensures names { stored_names self.new ≡ stored_names self.old }
        ensures text { IfOk result (λ i. slice_index_or self.new.texts.items i [] ≡ text) }
        ensures memory { IfErr result IsOutOfMemory }
    {
        let id = index_of_32_bits(self.texts.len())?;
        self.texts.push(text)?;
        Ok(id)
    }

    pub(crate) fn mark(&self) -> Mark
        ensures { IsMark self.now result }
    {
        Mark {
            names: self.names.len(),
            texts: self.texts.len(),
            nodes: self.nodes.len(),
        }
    }

    /// Cuts the lists back to the lengths of a mark, which removes what was appended since.
    pub(crate) fn back_to(&mut self, mark: Mark)
        ensures names { self.new.names.keys ≡ take mark.names self.old.names.keys }
        ensures texts { self.new.texts.items ≡ take mark.texts self.old.texts.items }
        ensures nodes { self.new.nodes.items ≡ take mark.nodes self.old.nodes.items }
    {
        self.names.truncate(mark.names);
        self.texts.truncate(mark.texts);
        self.nodes.truncate(mark.nodes);
    }
}
