//! Settling a tree.
ghost use Rattle.std.specs.Prelude.{◌≡◌, ℕ, List, length, IfOk, IfErr};
ghost use Rattle.kc_solver.specs.Dependencies.{HasNoCycle};
ghost use Rattle.kc_solver.specs.Faults.{ReportsCycle};
ghost use Rattle.kc_rules_model.specs.Dependencies.{dependencies};
ghost use Rattle.kc_rules_model.specs.SettledTrees.{IsSettledTree};
ghost use Rattle.kc_rules.specs.between.SettledViews.{tree_model_of, profile_of};
ghost use Rattle.kc_rules.specs.SettleFaults.{ReportsTreeCycle};

use super::fault::SettleFault;
use super::rules::Settled;
use kc_evaluation::{Links, Rules, links_of, modules_of};
use kc_rules_model::Profile;
use kc_solver::{Order, OrderFault, order};
use kc_tree::Tree;
use std::alloc::{AllocError, Global};

/// The fault of a tree whose units have no order.
fn fault_of(fault: OrderFault) -> SettleFault
    ensures { (size : ℕ) (dependencies : ℕ → List ℕ) → ReportsCycle size dependencies fault → ReportsTreeCycle size dependencies result }
{
    match fault {
        OrderFault::Cycle(units) => SettleFault::Cycle(units),
        OrderFault::OutOfMemory => SettleFault::OutOfMemory,
    }
}

/// A tree and an order of its units, if they don't depend on each other in a cycle.
fn ordered(alloc: Global, rules: Rules) -> Result<Settled, (Tree, SettleFault)>
    ensures tree { IfOk result (λ s. tree_model_of s ≡ rules.tree) }
    ensures profile { IfOk result (λ s. profile_of s ≡ rules.profile) }
    ensures acyclic { IfOk result (λ s. HasNoCycle (length rules.tree.tree.units) (dependencies rules.tree.tree)) }
    ensures back { IfErr result (λ e. e.0 ≡ rules.tree) }
    ensures cycle { IfErr result (λ e. ReportsTreeCycle (length rules.tree.tree.units) (dependencies rules.tree.tree) e.1) }
{
    let found = order(alloc, &rules);
    match found {
        Ok(order) => Ok(Settled { rules, order }),
        Err(fault) => {
            let Rules { tree, .. } = rules;
            Err((tree, fault_of(fault)))
        }
    }
}

/// Settles a tree, whose units then don't depend on each other in a cycle. An `Err` hands the tree back with the fault: a cycle
/// of its units, or out of memory ("recursive dependency limitations").
pub fn settle(alloc: Global, tree: Tree, profile: Profile) -> Result<Settled, (Tree, SettleFault)>
    ensures tree { IfOk result (λ s. tree_model_of s ≡ tree) }
    ensures profile { IfOk result (λ s. profile_of s ≡ profile) }
    ensures settled { IfOk result (λ s. IsSettledTree tree.tree) }
    ensures back { IfErr result (λ e. e.0 ≡ tree) }
    ensures cycle { IfErr result (λ e. ReportsTreeCycle (length tree.tree.units) (dependencies tree.tree) e.1) }
{
    let made = links_of(alloc, &tree);
    match made {
        Ok(made) => {
            let modules = modules_of(&tree);
            let Links { starts, links } = made;
            ordered(
                alloc,
                Rules {
                    tree,
                    profile,
                    modules,
                    starts,
                    links,
                },
            )
        }
        Err(AllocError) => Err((tree, SettleFault::OutOfMemory)),
    }
}
