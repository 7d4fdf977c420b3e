//! Units and their dependencies.
ghost use Rattle.std.specs.Prelude.{length};
ghost use Rattle.kc_rules_model.specs.Dependencies.{dependencies};
ghost use Rattle.kc_rules_model.specs.checker.GraphLaw.{rules_graph};

use super::rules::Rules;
use kc_solver::Graph;

impl Graph for Rules {
    ghost size = { λ r. length r.tree.tree.units };

    ghost dependencies = { λ r u. dependencies r.tree.tree u };

    ghost graph = { λ r. rules_graph r.tree.tree };

    fn len(&self) -> u32 {
        self.tree.len()
    }

    fn deps(&self, u: u32) -> &[u32] {
        let start = self.starts[u as usize] as usize;
        let end = self.starts[u as usize + 1] as usize;
        &self.links[start..end]
    }
}
