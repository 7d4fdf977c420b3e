//! A tree with what its units depend on.
ghost use Rattle.std.specs.Prelude.{◌≡◌};
ghost use Rattle.kc_dependencies.specs.checker.Links.{AreLinks};
ghost use Rattle.kc_dependencies.specs.checker.ModulesSymbol.{modules_symbol};
ghost use Rattle.kc_tree_model.specs.TreeLookup.{IsConsistent};

use kc_rules_model::Profile;
use kc_tree::{Sym, Tree};

/// A tree, its profile, its symbol `MODULES`, and the dependencies of each unit: `links` has those of one unit after those of
/// another, and `starts` the index at which those of each unit begin, and then the length of `links`.
#[derive(Drop)]
pub struct Rules {
    pub tree: Tree,
    pub profile: Profile,
    pub modules: Option<Sym>,
    pub starts: Vec<u32>,
    pub links: Vec<u32>,
    ghost consistent: { ∥ IsConsistent tree.tree ∥₁ },
    ghost modules_is: { modules ≡ modules_symbol tree.tree },
    ghost links_are: { AreLinks tree.tree starts.items links.items },
}
