//! Arenas of expressions that share their parts.
ghost use Rattle.std.specs.Prelude.{◌≡◌, ◌<◌, ◌≤◌, ◌⊎◌, ◌↔◌, ◌++◌, ◌||◌, ◌^◌, ℕ, Bool, List, false, true, length, map, [], All, Contains, IfOk, IfErr, IfSome, OnOk, OnErr, Some, option_map, slice_index_or};
ghost use Rattle.std.specs.List.Sorted.{IsStrictlyIncreasing};
ghost use Rattle.kc_tokens.specs.declared.fault.ExprKind.TheVariants.{OutOfMemory};
ghost use Rattle.kc_tokens.specs.MemoryFaults.{IsOutOfMemory};

use super::evaluate::value_of;
use super::expr_parts::{ExprParts, parts_of};
use super::ids::{ExprId, NameId};
use super::lookup::Lookup;
use super::names::{push_names, push_new_names};
use super::node::{Connective, Leaf, Node};
use super::node_store::NodeStore;
use super::operand::Operand;
use super::parse::extent_len;
use super::visited_set::VisitedSet;
use kc_tokens::{ExprFault, Token};
use kc_value::{MAX_EXPR_DEPTH, Seed, Tri};
use std::alloc::{AllocError, Global};
use std::marker::Model;

/// An arena of names and expressions. Contracts see the list of its names and, for each of its nodes, the expression that the
/// node represents.
#[derive(Drop)]
pub struct Arena {
    store: NodeStore,
}

impl Model for Arena {
    ghost use Rattle.kc_expr.specs.between.Arena.{Exprs};
    ghost use Rattle.kc_expr.specs.checker.ArenaCode.{exprs_code};

    ghost Value = { Exprs };

    ghost coded = { exprs_code };

    ghost use Rattle.kc_expr.specs.checker.ArenaView.{exprs_view, holds_sound};

    ghost view = { exprs_view };

    ghost invariant = { holds_sound };
}

impl Arena {
    ghost use Rattle.kc_expr.specs.between.Arena.{Grows, node_expr, Represents};
    ghost use Rattle.kc_expr.specs.Expr.{alone, both, constant, shown, value};
    ghost use Rattle.kc_expr.specs.Lookup.{AreDistinct, environment_of, index_of_name};
    ghost use Rattle.kc_expr.specs.ExpressionNames.{names_in};
    ghost use Rattle.kc_expr.specs.between.Names.{name_alone, with_name, with_names};
    ghost use Rattle.kc_expr.specs.between.ExprParts.{expr_of_parts, ArePartsOf};
    ghost use Rattle.kc_expr.specs.between.Operand.{operand_alone, operand_of_ref, HasKnownName};
    ghost use Rattle.kc_expr.specs.between.ParseResults.{expr_tokens, expr_end, ReadsExpr, RefusesExpr};
    ghost use Rattle.kc_tokens.specs.Token.{lexemes_of};
    ghost use Rattle.kc_expr.specs.between.ReverseNames.{names_in_reverse};
    ghost use Rattle.kc_expr.specs.between.Visits.{is_visited, mentions, passes_some_name, HasFound};

    /// An arena without names and nodes, which takes no memory. Names are hashed with the same seed in each run.
    pub fn new(alloc: Global) -> Arena
        ensures names { result.names ≡ [] }
        ensures nodes { result.nodes ≡ [] }
    {
        Arena::with_seed(alloc, Seed::fixed())
    }

    /// An arena without names and nodes, which takes no memory. Names are hashed with `seed`, on which no result depends.
    pub fn with_seed(alloc: Global, seed: Seed) -> Arena
        ensures names { result.names ≡ [] }
        ensures nodes { result.nodes ≡ [] }
    {
        Arena {
            store: NodeStore::new(alloc, seed),
        }
    }

    /// The value of an expression whose names have the values that `lookup` gives. Takes no memory.
    pub fn value<L: Lookup>(&self, id: ExprId, lookup: &L) -> Tri
        requires there { id < length self.now.nodes }
        ensures value { result ≡ value (environment_of self.now.names (L.symbol_values lookup.now)) (node_expr self.now id) }
    {
        value_of(&self.store, id.index(), lookup)
    }

    /// Reads the expression that begins at the token of index `at`. It reaches up to the first word or quoted token that directly
    /// follows an operand or a `)`, else to the end of the tokens. Returns the expression's number and the index after its last
    /// token. Its new names are appended, in their order.
    ///
    /// In a condition, a constant `m` that isn't an operand of a relation means `m && MODULES`.
    ///
    /// # Errors
    ///
    /// `Malformed`, at the first token that can't continue the expression, or at the end of the last token if none is left;
    /// `TooDeep`, at a symbol under more than `MAX_EXPR_DEPTH` `!` and parentheses; `OutOfMemory`. The first of them is returned,
    /// and leaves the arena as it was.
    #[inline(always)]
    pub fn parse_expr(
        &mut self,
        tokens: &[Token<'_>],
        at: usize,
        condition: bool,
    ) -> Result<(ExprId, usize), ExprFault>
        requires within { at ≤ length tokens.now }
        ensures grows { Grows self.old self.new }
        ensures names { IfOk result (λ r. self.new.names ≡ with_names (names_in (node_expr self.new r.0)) self.old.names) }
        ensures end { IfOk result (λ r. r.1 ≡ expr_end (lexemes_of tokens.now) at) }
        ensures ok { IfOk result (λ r. ReadsExpr self.new r.0 condition (expr_tokens (lexemes_of tokens.now) at)) }
        ensures fault { IfErr result (λ e. IsOutOfMemory e ⊎ RefusesExpr (lexemes_of tokens.now) at e) }
        ensures err { OnErr result (self.new ≡ self.old) }
    {
        let end = at + extent_len(&tokens[at..]);
        let mark = self.store.mark();
        match self
            .store
            .parse_to_end(&tokens[..end], at, MAX_EXPR_DEPTH, condition)
        {
            Ok(id) => Ok((ExprId::at(id), end)),
            Err(fault) => {
                self.store.back_to(mark);
                Err(fault)
            }
        }
    }

    /// The conjunction (`&&`) of two expressions, as a further expression. An `Err` means out of memory, and leaves the arena as
    /// it was.
    pub fn join(&mut self, a: ExprId, b: ExprId) -> Result<ExprId, ExprFault>
        requires left { a < length self.old.nodes }
        requires right { b < length self.old.nodes }
        ensures grows { Grows self.old self.new }
        ensures names { self.new.names ≡ self.old.names }
        ensures ok { IfOk result (λ id. Represents self.new id (both (node_expr self.old a) (node_expr self.old b))) }
        ensures memory { IfErr result (λ e. e.kind ≡ OutOfMemory) }
        ensures err { OnErr result (self.new ≡ self.old) }
    {
        let id = self
            .store
            .push(Node::Joined(Connective::And, a.number(), b.number()))?;
        Ok(ExprId::at(id))
    }

    /// The expression that is `y` where a given one isn't `n`, and else `n`. An `Err` means out of memory, and leaves the arena
    /// as it was.
    pub fn shown(&mut self, id: ExprId) -> Result<ExprId, ExprFault>
        requires there { id < length self.old.nodes }
        ensures grows { Grows self.old self.new }
        ensures names { self.new.names ≡ self.old.names }
        ensures ok { IfOk result (λ i. Represents self.new i (shown (node_expr self.old id))) }
        ensures memory { IfErr result (λ e. e.kind ≡ OutOfMemory) }
        ensures err { OnErr result (self.new ≡ self.old) }
    {
        let id = self.store.push(Node::Shown(id.number()))?;
        Ok(ExprId::at(id))
    }

    /// The expression that is just a constant. An `Err` means out of memory, and leaves the arena as it was.
    pub fn constant(&mut self, value: Tri) -> Result<ExprId, ExprFault>
        ensures grows { Grows self.old self.new }
        ensures names { self.new.names ≡ self.old.names }
        ensures ok { IfOk result (λ id. Represents self.new id (alone (constant value))) }
        ensures memory { IfErr result (λ e. e.kind ≡ OutOfMemory) }
        ensures err { OnErr result (self.new ≡ self.old) }
    {
        let id = self.store.push(Node::Alone(Leaf::Constant(value)))?;
        Ok(ExprId::at(id))
    }

    /// How many names the arena holds: 2^32 at most, none of them twice.
    pub fn name_count(&self) -> usize
        ensures count { result ≡ length self.now.names }
        ensures most { length self.now.names ≤ 2 ^ 32 }
        ensures distinct { AreDistinct self.now.names }
    {
        self.store.name_count()
    }

    /// How many expressions the arena holds: 2^32 at most, with the numbers from 0 on.
    pub fn node_count(&self) -> usize
        ensures count { result ≡ length self.now.nodes }
        ensures most { length self.now.nodes ≤ 2 ^ 32 }
    {
        self.store.node_count()
    }

    /// The number of a name, which is appended if the arena doesn't hold it. Mostly it is new, so it is hashed just once. No
    /// expression is added. An `Err` means out of memory, and leaves the arena as it was.
    pub fn intern(&mut self, name: &str) -> Result<NameId, ExprFault>
        ensures names { IfOk result (λ id. self.new.names ≡ with_name name.now self.old.names) }
        ensures place { IfOk result (λ id. index_of_name name.now self.new.names ≡ Some id) }
        ensures name { IfOk result (λ id. slice_index_or self.new.names id [] ≡ name.now) }
        ensures within { IfOk result (λ id. id < length self.new.names) }
        ensures nodes { self.new.nodes ≡ self.old.nodes }
        ensures grows { Grows self.old self.new }
        ensures memory { IfErr result (λ e. e.kind ≡ OutOfMemory) }
        ensures err { OnErr result (self.new ≡ self.old) }
    {
        let index = self.store.insert_name(name)?;
        Ok(NameId::at(index))
    }

    /// The text of a name, by its number.
    pub fn name(&self, id: NameId) -> &str
        requires there { id < length self.now.names }
        ensures value { result.now ≡ slice_index_or self.now.names id [] }
    {
        self.store.name(id.index())
    }

    /// The number of a name; `None` if the arena doesn't hold it. Takes no memory.
    pub fn find(&self, name: &str) -> Option<NameId>
        ensures { result ≡ index_of_name name.now self.now.names }
    {
        let index = self.store.find(name)?;
        Some(NameId::at(index))
    }

    /// What an expression is made of.
    pub fn parts(&self, id: ExprId) -> ExprParts<'_>
        requires there { id < length self.now.nodes }
        ensures expr { node_expr self.now id ≡ expr_of_parts self.now result }
        ensures within { ArePartsOf self.now id result }
    {
        parts_of(&self.store, id.index())
    }

    /// The operand that an expression consists of; `None` where the expression isn't just one operand.
    pub fn operand(&self, id: ExprId) -> Option<Operand<'_>>
        requires there { id < length self.now.nodes }
        ensures operand { option_map (operand_of_ref self.now.names) result ≡ operand_alone (node_expr self.now id) }
        ensures held { IfSome result (HasKnownName self.now.names) }
    {
        let Node::Alone(leaf) = self.store.node(id.index()) else {
            return None;
        };
        match leaf {
            Leaf::Constant(t) => Some(Operand::Tri(t)),
            Leaf::Name(i) => Some(Operand::Name(NameId::at(i))),
            Leaf::Quoted(i) => Some(Operand::Quoted(self.store.text(i as usize))),
        }
    }

    /// The number of the name that an expression consists of; `None` where the expression isn't just a name. Takes no memory.
    pub fn bare_name(&self, id: ExprId) -> Option<NameId>
        requires there { id < length self.now.nodes }
        ensures name { option_map (λ i. slice_index_or self.now.names i []) result ≡ name_alone (node_expr self.now id) }
        ensures held { IfSome result (λ i. i < length self.now.names) }
    {
        let Node::Alone(leaf) = self.store.node(id.index()) else {
            return None;
        };
        match leaf {
            Leaf::Name(index) => Some(NameId::at(index)),
            Leaf::Constant(_) => None,
            Leaf::Quoted(_) => None,
        }
    }

    /// Appends to `found` the numbers of the names in an expression, some perhaps more than once. An `Err` means out of memory,
    /// and leaves `found` as it was.
    pub fn push_names(&self, id: ExprId, found: &mut Vec<NameId>) -> Result<(), AllocError>
        requires there { id < length self.now.nodes }
        ensures words { OnOk result (map (λ i. slice_index_or self.now.names i []) found.new.items
            ≡ map (λ i. slice_index_or self.now.names i []) found.old.items ++ names_in_reverse (node_expr self.now id)) }
        ensures held { OnOk result (All (λ i. i < length self.now.names) found.old.items → All (λ i. i < length self.now.names) found.new.items) }
        ensures err { OnErr result (found.new.items ≡ found.old.items) }
    {
        let kept = found.len();
        match push_names(&self.store, id.index(), found) {
            Ok(()) => Ok(()),
            Err(fault) => {
                found.truncate(kept);
                Err(fault)
            }
        }
    }

    /// The empty set of visited expressions for `push_new_names`, with room for all expressions of the arena. An `Err` means out
    /// of memory.
    pub fn walk(&self) -> Result<VisitedSet, AllocError>
        ensures room { IfOk result (λ walk. length walk ≡ length self.now.nodes) }
        ensures none { IfOk result (λ walk. (node : ℕ) → is_visited walk node ≡ false) }
    {
        VisitedSet::new(self.store.alloc(), self.node_count())
    }

    /// Appends to `found` the numbers of the names in an expression, some perhaps more than once, and marks the expression as
    /// visited in `walk`. Parts that are visited already are skipped, since their names are in `found`. An `Err` means out of
    /// memory: it leaves `found` as it was, and empties `walk`.
    pub fn push_new_names(
        &self,
        id: ExprId,
        walk: &mut VisitedSet,
        found: &mut Vec<NameId>,
    ) -> Result<(), AllocError>
        requires there { id < length self.now.nodes }
        requires found { HasFound self.now walk.old found.old.items }
        ensures names { (p : List ℕ → Bool) → OnOk result (passes_some_name self.now p found.new.items ≡ (passes_some_name self.now p found.old.items || mentions p (node_expr self.now id))) }
        ensures held { OnOk result (All (λ i. i < length self.now.names) found.old.items → All (λ i. i < length self.now.names) found.new.items) }
        ensures found { OnOk result (HasFound self.now walk.new found.new.items) }
        ensures walked { OnOk result (is_visited walk.new id ≡ true) }
        ensures kept { (node : ℕ) → OnOk result (is_visited walk.old node ≡ true → is_visited walk.new node ≡ true) }
        ensures err { OnErr result (found.new.items ≡ found.old.items) }
        ensures none { (node : ℕ) → OnErr result (is_visited walk.new node ≡ false) }
    {
        let others = found.len();
        match push_new_names(&self.store, id.index(), walk, found) {
            Ok(()) => Ok(()),
            Err(fault) => {
                found.truncate(others);
                walk.begin();
                Err(fault)
            }
        }
    }

    /// The numbers of the names in an expression, ascending, each once. An `Err` means out of memory.
    pub fn names(&self, id: ExprId) -> Result<Vec<NameId>, AllocError>
        requires there { id < length self.now.nodes }
        ensures ascending { IfOk result (λ ids. IsStrictlyIncreasing ids.items) }
        ensures exact { IfOk result (λ ids. (i : ℕ) → Contains ids.items i
            ↔ ((i < length self.now.names) × Contains (names_in (node_expr self.now id)) (slice_index_or self.now.names i []))) }
    {
        let mut found = Vec::new(self.store.alloc());
        push_names(&self.store, id.index(), &mut found)?;
        found.sort_unstable();
        found.dedup();
        Ok(found)
    }
}
