//! The set of visited expressions of an arena.
ghost use Rattle.std.specs.Prelude.{◌≡◌, ◌<◌, ℕ, length, false, true, slice_set, IfOk};
ghost use Rattle.kc_expr.specs.between.Visits.{is_visited};

use std::alloc::{AllocError, Global};
use std::marker::Model;

/// The set of the expressions of an arena that were visited since the last `begin`. Contracts see a flag for each expression, which
/// is kept as the number of the turn in which it was last visited; a turn is what comes between one `begin` and the next.
#[derive(Drop)]
pub struct VisitedSet {
    stamps: Vec<u32>,
    turn: u32,
}

impl Model for VisitedSet {
    ghost use Rattle.std.specs.Prelude.{Bool, List, All, ◌≤◌};
    ghost use Rattle.kc_expr.specs.checker.ExpressionWalks.{stamped};

    ghost Value = { List Bool };

    ghost view = { λ w. stamped w.turn w.stamps.items };

    ghost invariant = { λ w. All (λ s. s ≤ w.turn) w.stamps.items };
}

impl VisitedSet {
    /// The empty set for an arena of `count` expressions. An `Err` means out of memory.
    pub(crate) fn new(alloc: Global, count: usize) -> Result<VisitedSet, AllocError>
        ensures room { IfOk result (λ walk. length walk ≡ count) }
        ensures none { IfOk result (λ walk. (node : ℕ) → is_visited walk node ≡ false) }
    {
        Ok(VisitedSet {
            stamps: vec![in alloc; 0; count]?,
            turn: 1,
        })
    }

    /// Empties the set. Mostly this only changes the number that marks an expression as visited.
    pub fn begin(&mut self)
        ensures room { length self.new ≡ length self.old }
        ensures none { (node : ℕ) → is_visited self.new node ≡ false }
    {
        if self.turn == u32::MAX {
            self.stamps.fill(0);
            self.turn = 0;
        }
        self.turn += 1;
    }

    /// Whether an expression is in the set, by its number.
    pub(crate) fn contains(&self, index: usize) -> bool
        requires there { index < length self.now }
        ensures value { result ≡ is_visited self.now index }
    {
        self.stamps[index] == self.turn
    }

    /// Adds an expression to the set, by its number.
    pub(crate) fn mark(&mut self, index: usize)
        requires there { index < length self.old }
        ensures marked { self.new ≡ slice_set self.old index true }
    {
        self.stamps[index] = self.turn;
    }
}
