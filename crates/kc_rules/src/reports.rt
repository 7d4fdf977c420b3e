//! Tests of whether a symbol is written or unmet, given the values of the units.
ghost use Rattle.std.specs.Prelude.{◌≡◌, ◌<◌, ◌&&◌, ◌||◌, not, length, IfOk};
ghost use Rattle.kc_tree.specs.between.Views.{SymbolFits, symbol_view};
ghost use Rattle.kc_tokens.specs.Languages.{is_linux_6_12};
ghost use Rattle.kc_value.specs.Tri.{is_n};
ghost use Rattle.kc_rules_model.specs.Rule.{implied, direct_dependency};
ghost use Rattle.kc_rules_model.specs.Reports.{has_default, is_unselected, is_written_symbol, is_written, is_unmet, unmet};
ghost use Rattle.kc_rules.specs.between.SettledViews.{tree_of_settled};
ghost use Rattle.kc_evaluation.specs.checker.ValuationView.{valuation_tree, valuation_exprs, valuation_values};

use super::rules::Settled;
use kc_evaluation::{
    Valuation, active_default, default_value, has_no_member, is_from_environment, is_symbol_unmet,
    is_visible, largest, reverse_limit,
};
use kc_rules_model::UnitValue;
use kc_tree::{Sym, Symbol};
use kc_value::Kind;
use std::alloc::{AllocError, Global};

/// Whether a bool or tristate has a default that isn't `n`, or another symbol a default that counts.
fn has_default(under: &Valuation<'_>, symbol: &Symbol<'_>) -> bool
    requires fits { SymbolFits (valuation_exprs under.now) (length (valuation_tree under.now).symbols) symbol.now }
    ensures value { result ≡ has_default (valuation_tree under.now) (valuation_values under.now) (symbol_view (valuation_exprs under.now) symbol.now) }
{
    match symbol.kind {
        Kind::Bool => !default_value(under, symbol.defaults).is_n(),
        Kind::Tristate => !default_value(under, symbol.defaults).is_n(),
        Kind::Text => active_default(under, symbol.defaults).is_some(),
        Kind::Int => active_default(under, symbol.defaults).is_some(),
        Kind::Hex => active_default(under, symbol.defaults).is_some(),
    }
}

/// Whether this choice, if it is one, is optional and has no selection.
fn is_unselected(under: &Valuation<'_>, choice: Option<u32>) -> bool
    ensures { result ≡ is_unselected (valuation_tree under.now) (valuation_values under.now) choice }
{
    let Some(c) = choice else {
        return false;
    };
    if c >= under.rules.tree.choice_count() {
        return false;
    }
    let choice = under.rules.tree.choice(c);
    choice.optional && has_no_member(under.values.get(choice.unit as usize))
}

/// Whether a symbol is implied, by the rules that Linux had before 6.10 while its direct dependency isn't `n`.
fn is_implied(under: &Valuation<'_>, symbol: &Symbol<'_>) -> bool
    requires fits { SymbolFits (valuation_exprs under.now) (length (valuation_tree under.now).symbols) symbol.now }
    ensures value { let tree = valuation_tree under.now in let values = valuation_values under.now in let seen = symbol_view (valuation_exprs under.now) symbol.now in result ≡ (not (is_n (implied tree values seen)) && (is_linux_6_12 tree.language || not (is_n (direct_dependency tree values seen)))) }
{
    !reverse_limit(under, symbol.impliers).is_n()
        && (under.rules.tree.language().is_linux_6_12() || !largest(under, symbol.direct).is_n())
}

/// Whether a full file has the symbol.
fn is_symbol_written(under: &Valuation<'_>, symbol: &Symbol<'_>) -> bool
    requires fits { SymbolFits (valuation_exprs under.now) (length (valuation_tree under.now).symbols) symbol.now }
    ensures value { result ≡ is_written_symbol (valuation_tree under.now) (valuation_values under.now) (symbol_view (valuation_exprs under.now) symbol.now) }
{
    if is_visible(under, symbol) && !is_unselected(under, symbol.choice) {
        return true;
    }
    if symbol.choice.is_some() || is_from_environment(symbol) {
        return false;
    }
    has_default(under, symbol)
        || !reverse_limit(under, symbol.selectors).is_n()
        || is_implied(under, symbol)
}

/// Whether a symbol is outside choices and selected above its direct dependency, by its number.
fn is_unmet(under: &Valuation<'_>, s: Sym) -> bool
    requires there { s < length (valuation_tree under.now).symbols }
    ensures value { result ≡ is_unmet (valuation_tree under.now) (valuation_values under.now) s }
{
    is_symbol_unmet(under, &under.rules.tree.symbol(s))
}

impl Settled {
    /// Whether a full file has a line for a symbol: if it is visible, unless its optional choice has no selection; outside
    /// choices also if it has a default, is selected, or is implied, before Linux 6.10 while its direct dependency isn't `n`.
    /// Takes no memory.
    pub fn written(&self, s: Sym, values: &[UnitValue]) -> bool
        requires there { s < length (tree_of_settled self.now).symbols }
        ensures value { result ≡ is_written (tree_of_settled self.now) values.now s }
    {
        let under = Valuation {
            rules: &self.rules,
            values,
        };
        is_symbol_written(&under, &self.rules.tree.symbol(s))
    }

    /// The symbols outside choices that are selected above their direct dependency ("reverse dependencies"), in order
    /// of first definition. An `Err` means out of memory.
    pub fn unmet(&self, alloc: Global, values: &[UnitValue]) -> Result<Vec<Sym>, AllocError>
        ensures { IfOk result (λ found. found.items ≡ unmet (tree_of_settled self.now) values.now) }
    {
        let under = Valuation {
            rules: &self.rules,
            values,
        };
        let mut found = Vec::new(alloc);
        for number in 0..self.rules.tree.symbol_count() {
            let s = Sym::at(number);
            if is_unmet(&under, s) {
                found.push(s)?;
            }
        }
        Ok(found)
    }
}
