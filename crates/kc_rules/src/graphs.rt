//! Units of a settled tree and their dependencies.
ghost use Rattle.std.specs.Prelude.{length};
ghost use Rattle.kc_rules_model.specs.Dependencies.{dependencies};
ghost use Rattle.kc_rules_model.specs.checker.GraphLaw.{rules_graph};

use super::rules::Settled;
use kc_solver::Graph;

impl Graph for Settled {
    ghost size = { λ s. length s.rules.tree.tree.units };

    ghost dependencies = { λ s u. dependencies s.rules.tree.tree u };

    ghost graph = { λ s. rules_graph s.rules.tree.tree };

    fn len(&self) -> u32 {
        self.rules.tree.len()
    }

    fn deps(&self, u: u32) -> &[u32] {
        self.rules.deps(u)
    }
}
