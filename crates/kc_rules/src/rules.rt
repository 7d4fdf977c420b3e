//! A tree whose units have an order.
ghost use Rattle.std.specs.Prelude.{length};
ghost use Rattle.kc_rules_model.specs.Dependencies.{dependencies};
ghost use Rattle.kc_solver.specs.Dependencies.{IsOrder, HasNoCycle};

use kc_evaluation::Rules;
use kc_solver::Order;

/// A tree whose units don't depend on each other in a cycle, with an order in which each unit comes after its dependencies. A plain
/// struct, whose parts clauses name by `specs/between/SettledViews.antt`, so that evaluation opens nothing.
#[derive(Drop)]
pub struct Settled {
    pub(crate) rules: Rules,
    pub(crate) order: Order,
    ghost ordered: { ∥ IsOrder (length rules.tree.tree.units) (dependencies rules.tree.tree) order ∥₁ },
    ghost acyclic: { HasNoCycle (length rules.tree.tree.units) (dependencies rules.tree.tree) },
}
