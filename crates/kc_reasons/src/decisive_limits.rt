//! The selects and implies that decide what is selected and implied.
ghost use Rattle.std.specs.Prelude.{◌≡◌, ◌<◌, length, map, IfOk};
ghost use Rattle.kc_tree.specs.between.Views.{reverse_dependency_view};
ghost use Rattle.kc_dependencies.specs.checker.StoredRules.{AreReverseDependencies};
ghost use Rattle.kc_evaluation.specs.checker.ValuationView.{valuation_tree, valuation_exprs, valuation_values};
ghost use Rattle.kc_value.specs.Tri.{is_n};
ghost use Rattle.kc_rules_model.specs.Rule.{reverse_dependency_value};
ghost use Rattle.kc_reasons_model.specs.DecisiveLimits.{decisive_numbers};
ghost use Rattle.kc_reasons.specs.checker.LargestLimits.{is_largest};

use kc_evaluation::{Valuation, reverse_limit, reverse_value};
use kc_tree::ReverseDependency;
use kc_value::Tri;
use std::alloc::{AllocError, Global};

/// Whether a select or imply demands this much, and that isn't `n`.
fn is_largest(under: &Valuation<'_>, force: ReverseDependency, most: Tri) -> bool
    requires by { force.by < length (valuation_tree under.now).symbols }
    requires condition { force.condition < length (valuation_exprs under.now).nodes }
    ensures value { result ≡ is_largest (valuation_tree under.now) (valuation_values under.now) most (reverse_dependency_view (valuation_exprs under.now) force) }
{
    let value = reverse_value(under, force);
    !value.is_n() && value == most
}

/// The numbers, from 0, of those selects or implies that demand as much as all of them together, if that isn't `n`. An `Err`
/// means out of memory.
pub fn decisive(
    alloc: Global,
    under: &Valuation<'_>,
    all: &[ReverseDependency],
) -> Result<Vec<usize>, AllocError>
    requires fits { AreReverseDependencies (valuation_exprs under.now) (valuation_tree under.now) all.now }
    ensures ok { IfOk result (λ found. found.items ≡ decisive_numbers (valuation_tree under.now) (valuation_values under.now) (map (reverse_dependency_view (valuation_exprs under.now)) all.now)) }
{
    let most = reverse_limit(under, all);
    let mut found = Vec::new(alloc);
    for (number, force) in all.iter().enumerate() {
        if is_largest(under, *force, most) {
            found.push(number)?;
        }
    }
    Ok(found)
}
