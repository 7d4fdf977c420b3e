//! The reasons of a symbol over a configuration.
ghost use Rattle.std.specs.Prelude.{◌≡◌, ◌<◌, Some, length, slice_get, IfOk, IfSome, IsTrue};
ghost use Rattle.std.specs.Option.{option_copied};
ghost use Rattle.kc_solver.specs.Solutions.{user_of};
ghost use Rattle.kc_tree_model.specs.Trees.{Symbol};
ghost use Rattle.kc_rules_model.specs.Shapes.{user_fits};
ghost use Rattle.kc_rules.specs.between.SettledViews.{tree_model_of};
ghost use Rattle.kc_evaluation.specs.checker.ValuationView.{valuation_tree, valuation_exprs, valuation_values};
ghost use Rattle.kc_config.specs.ConfigStates.{tree_in, IsSolved};
ghost use Rattle.kc_reasons.specs.between.Parts.{AreThere};
ghost use Rattle.kc_reasons.specs.between.ReasonsView.{reasons_view};
ghost use Rattle.kc_config_reasons.specs.ConfigReasons.{AreReasonsIn};

use kc_config::{Config, user_at};
use kc_evaluation::Valuation;
use kc_reasons::{SymbolReasons, reasons_of};
use kc_rules_model::UserValue;
use kc_tree::Sym;
use std::alloc::{AllocError, Global};

/// The values that a configuration gives, under the rules of its tree.
pub fn valuation<'a>(config: &'a Config<'_>) -> Valuation<'a>
    ensures tree { valuation_tree result ≡ tree_in config.now }
    ensures exprs { valuation_exprs result ≡ (tree_model_of config.now.system).exprs }
    ensures values { valuation_values result ≡ config.now.values }
{
    let rules = config.settled().rules();
    let values = config.values();
    Valuation { rules, values }
}

/// The user value that files assign to a unit, or `None`.
fn user_in<'a>(config: &'a Config<'_>, unit: u32) -> Option<&'a UserValue>
    requires unit { unit < length (tree_in config.now).units }
    ensures user { option_copied result ≡ user_of config.now.users unit }
    ensures fits { IfSome (option_copied result) (λ x. IsTrue (user_fits (tree_in config.now) unit x)) }
{
    user_at(config.users(), unit)
}

/// The reasons of a symbol by the values that a configuration gives, which are the one solution for what its files assign. An `Err`
/// means out of memory.
pub fn reasons_in(alloc: Global, config: &Config<'_>, s: Sym) -> Result<SymbolReasons, AllocError>
    requires there { s < length (tree_in config.now).symbols }
    ensures reasons { IfOk result (λ r. (symbol : Symbol) → slice_get (tree_in config.now).symbols s ≡ Some symbol → AreReasonsIn config.now s symbol (reasons_view (tree_model_of config.now.system).exprs r)) }
    ensures needs { IfOk result (λ r. AreThere (tree_model_of config.now.system).exprs r.needs.items) }
    ensures unmet { IfOk result (λ r. AreThere (tree_model_of config.now.system).exprs r.unmet.items) }
    ensures solved { IsSolved config.now }
{
    let settled = config.settled();
    let unit = settled.tree().symbol(s).unit;
    let values = config.values();
    reasons_of(alloc, settled.rules(), s, user_in(config, unit), values)
}
