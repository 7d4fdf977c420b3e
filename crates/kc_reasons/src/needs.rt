//! What a symbol's prompts and dependencies lack.
ghost use Rattle.std.specs.Prelude.{◌≡◌, ◌<◌, [], length, unwrap_or, IfOk, if◌then◌else◌};
ghost use Rattle.std.specs.List.{list_any};
ghost use Rattle.std.specs.Option.{option_copied};
ghost use Rattle.kc_tree.specs.between.Views.{symbol_view, SymbolFits};
ghost use Rattle.kc_evaluation.specs.checker.ValuationView.{valuation_tree, valuation_exprs, valuation_values};
ghost use Rattle.kc_rules_model.specs.SymbolValues.{environment};
ghost use Rattle.kc_reasons_model.specs.Hindrances.{wanted_for};
ghost use Rattle.kc_reasons_model.specs.PlainReasons.{wanted_by, prompts_lack, dependencies_lack};
ghost use Rattle.kc_reasons.specs.between.Parts.{alternatives_view, AreThere};
ghost use Rattle.kc_reasons_model.specs.Reasons.{is_empty};

use super::low_parts::{LowPart, lacking_of_each};
use super::tristates::is_without_m;
use kc_evaluation::{Valuation, assigned_tri, is_from_environment, is_symbol_unmet, reverse_limit};
use kc_rules_model::UserValue;
use kc_tree::Symbol;
use kc_value::Tri;
use std::alloc::{AllocError, Global};

/// The least that is wanted of a prompt's condition so that an assigned tristate counts in full.
pub fn wanted_for(under: &Valuation<'_>, symbol: &Symbol<'_>, asked: Tri) -> Tri
    ensures value { result ≡ wanted_for (valuation_tree under.now) (symbol_view (valuation_exprs under.now) symbol.now) asked (valuation_values under.now) }
{
    if is_without_m(under, symbol.kind) {
        Tri::M
    } else {
        Tri::M.or(asked)
    }
}

/// What is wanted of a symbol's prompts: what its user value asks for, or that it is visible at all.
pub fn wanted_by(under: &Valuation<'_>, symbol: &Symbol<'_>, user: Option<&UserValue>) -> Tri
    ensures value { result ≡ wanted_by (valuation_tree under.now) (symbol_view (valuation_exprs under.now) symbol.now) (option_copied user.entry) (valuation_values under.now) }
{
    match assigned_tri(user) {
        None => wanted_for(under, symbol, Tri::M),
        Some(asked) => wanted_for(under, symbol, asked),
    }
}

/// Whether a list is empty.
fn is_empty<T>(list: &Vec<T>) -> bool
    ensures { result ≡ is_empty list.now.items }
{
    list.len() == 0
}

/// Whether one of some lists is empty.
fn has_empty<T>(lists: &[Vec<T>]) -> bool
    ensures { result ≡ list_any (λ v. is_empty v.items) lists.now }
{
    for list in lists {
        if is_empty(list) {
            return true;
        }
    }
    false
}

/// Lists; none where one of them is empty.
pub fn unless_one_is_empty<T: Drop>(alloc: Global, lists: Vec<Vec<T>>) -> Vec<Vec<T>>
    ensures { result.items ≡ (if list_any (λ v. is_empty v.items) lists.items then [] else lists.items) }
{
    if has_empty(&lists) {
        Vec::new(alloc)
    } else {
        lists
    }
}

/// What each prompt of a symbol lacks of what is wanted; nothing where one lacks nothing, and of a symbol with an `option env`. An
/// `Err` means out of memory.
pub fn prompts_lack(
    alloc: Global,
    under: &Valuation<'_>,
    symbol: &Symbol<'_>,
    wanted: Tri,
) -> Result<Vec<Vec<LowPart>>, AllocError>
    requires fits { SymbolFits (valuation_exprs under.now) (length (valuation_tree under.now).symbols) symbol.now }
    ensures ok { IfOk result (λ found. alternatives_view (valuation_exprs under.now) found.items ≡ prompts_lack (environment (valuation_tree under.now) (valuation_values under.now)) wanted (symbol_view (valuation_exprs under.now) symbol.now)) }
    ensures there { IfOk result (λ found. AreThere (valuation_exprs under.now) found.items) }
{
    if is_from_environment(symbol) {
        return Ok(Vec::new(alloc));
    }
    let found = lacking_of_each(alloc, under, symbol.prompts, wanted)?;
    Ok(unless_one_is_empty(alloc, found))
}

/// What the dependency of each definition of a symbol lacks of what is selected, if that is more. An `Err` means out of memory.
pub fn dependencies_lack(
    alloc: Global,
    under: &Valuation<'_>,
    symbol: &Symbol<'_>,
) -> Result<Vec<Vec<LowPart>>, AllocError>
    requires fits { SymbolFits (valuation_exprs under.now) (length (valuation_tree under.now).symbols) symbol.now }
    ensures ok { IfOk result (λ found. alternatives_view (valuation_exprs under.now) found.items ≡ dependencies_lack (valuation_tree under.now) (valuation_values under.now) (symbol_view (valuation_exprs under.now) symbol.now)) }
    ensures there { IfOk result (λ found. AreThere (valuation_exprs under.now) found.items) }
{
    if is_symbol_unmet(under, symbol) {
        let selected = reverse_limit(under, symbol.selectors);
        lacking_of_each(alloc, under, symbol.direct, selected)
    } else {
        Ok(Vec::new(alloc))
    }
}
