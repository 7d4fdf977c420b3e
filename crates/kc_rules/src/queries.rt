//! Queries on a settled tree.
ghost use Rattle.std.specs.Prelude.{◌≡◌, ◌<◌, length, Some, option_map};
ghost use Rattle.kc_expr.specs.between.Arena.{node_expr};
ghost use Rattle.kc_expr.specs.Lookup.{symbol_value_of};
ghost use Rattle.kc_rules_model.specs.SymbolValues.{value_of_symbol, condition};
ghost use Rattle.kc_rules_model.specs.Dependencies.{dependencies};
ghost use Rattle.kc_rules_model.specs.SettledTrees.{IsSettledTree};
ghost use Rattle.kc_rules.specs.between.SettledViews.{tree_model_of, tree_of_settled, profile_of, value_view, value_of_ref};
ghost use Rattle.kc_solver.specs.Dependencies.{IsOrder};

use super::rules::Settled;
use kc_evaluation::{Rules, Valuation};
use kc_expr::{ExprId, Looked};
use kc_rules_model::{Profile, UnitValue};
use kc_solver::Order;
use kc_tree::{Sym, Tree};
use kc_value::{Kind, Tri, ValueRef};

impl Settled {
    /// The tree that was settled: it is consistent, and none of its units depends on itself.
    pub fn tree(&self) -> &Tree
        ensures tree { result.now ≡ tree_model_of self.now }
        ensures settled { IsSettledTree (tree_of_settled self.now) }
    {
        let _ = self.rules.tree.arena();
        &self.rules.tree
    }

    /// The rules of the settled tree, which give each unit its value: the tree, with the profile and the units' dependencies.
    pub fn rules(&self) -> &Rules
        ensures tree { result.now.tree ≡ tree_model_of self.now }
        ensures profile { result.now.profile ≡ profile_of self.now }
    {
        &self.rules
    }

    /// The profile of the settled tree: how `imply` acts in it.
    pub fn profile(&self) -> Profile
        ensures { result ≡ profile_of self.now }
    {
        self.rules.profile
    }

    /// An order of the tree's units, in which each unit comes after its dependencies.
    pub fn order(&self) -> &Order
        ensures { IsOrder (length (tree_of_settled self.now).units) (dependencies (tree_of_settled self.now)) result.now }
    {
        &self.order
    }

    /// The value of a symbol, given the values of the units: its type, its tristate value and its text.
    pub fn value_of_symbol<'a>(&'a self, s: Sym, values: &'a [UnitValue]) -> Looked<'a>
        requires there { s < length (tree_of_settled self.now).symbols }
        ensures value { value_of_symbol (tree_of_settled self.now) values.now s ≡ Some (symbol_value_of result) }
    {
        let under = Valuation {
            rules: &self.rules,
            values,
        };
        under.symbol(s)
    }

    /// The value of a symbol under values of the units: of a bool or tristate a tristate, else a text. A member of a
    /// choice is `y` if it is the choice's value, else `n` ("Choices").
    pub fn symbol_value<'a>(&'a self, s: Sym, values: &'a [UnitValue]) -> ValueRef<'a>
        requires there { s < length (tree_of_settled self.now).symbols }
        ensures value { option_map value_view (value_of_symbol (tree_of_settled self.now) values.now s) ≡ Some (value_of_ref result) }
    {
        let seen = self.value_of_symbol(s, values);
        match seen.kind {
            Kind::Bool => ValueRef::Tri(seen.tri),
            Kind::Tristate => ValueRef::Tri(seen.tri),
            Kind::Text => ValueRef::Text(seen.text),
            Kind::Int => ValueRef::Text(seen.text),
            Kind::Hex => ValueRef::Text(seen.text),
        }
    }

    /// The value of an expression of the tree's arena under values of the units ("Menu dependencies").
    pub fn condition(&self, id: ExprId, values: &[UnitValue]) -> Tri
        requires there { id < length (tree_model_of self.now).exprs.nodes }
        ensures value { result ≡ condition (tree_of_settled self.now) values.now (node_expr (tree_model_of self.now).exprs id) }
    {
        let under = Valuation {
            rules: &self.rules,
            values,
        };
        under.condition(id)
    }
}
