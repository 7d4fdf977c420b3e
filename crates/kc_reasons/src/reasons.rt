//! The reasons of a symbol.
ghost use Rattle.std.specs.Prelude.{◌≡◌, ◌<◌, ◌||◌, [], length, map, slice_get, Some, IfOk, IfSome, IsTrue, if◌then◌else◌};
ghost use Rattle.std.specs.Option.{option_copied};
ghost use Rattle.kc_tree_model.specs.TreeLookup.{unit_of};
ghost use Rattle.kc_tree.specs.between.Views.{symbol_view, reverse_dependency_view, SymbolFits};
ghost use Rattle.kc_dependencies.specs.checker.StoredRules.{AreReverseDependencies};
ghost use Rattle.kc_evaluation.specs.checker.ValuationView.{valuation_tree, valuation_exprs, valuation_values};
ghost use Rattle.kc_rules_model.specs.Shapes.{user_fits};
ghost use Rattle.kc_rules_model.specs.Reports.{is_unmet_symbol};
ghost use Rattle.kc_reasons_model.specs.DecisiveLimits.{decisive_numbers};
ghost use Rattle.kc_reasons_model.specs.Hindrances.{hindrance_to};
ghost use Rattle.kc_reasons_model.specs.Reasons.{is_by_select, is_by_imply};
ghost use Rattle.kc_reasons_model.specs.PlainReasons.{other_than, chosen_in, plain_reasons_at};
ghost use Rattle.kc_reasons.specs.between.Parts.{AreThere};
ghost use Rattle.kc_reasons.specs.between.ReasonsView.{reasons_view};

use super::cases::case_of;
use super::decisive_limits::decisive;
use super::low_parts::LowPart;
use super::needs::{dependencies_lack, prompts_lack, wanted_by};
use super::search::hindrance_to;
use kc_evaluation::{Rules, Valuation, is_symbol_unmet};
use kc_reasons_model::{Case, Hindrance, TriCase};
use kc_rules_model::{UnitValue, UserValue};
use kc_tree::{ReverseDependency, Sym, Symbol};
use std::alloc::{AllocError, Global};

/// The reasons of a symbol. An attribute goes by its number among the symbol's attributes of its kind, as do prompts and definitions
/// in `needs` and `unmet`.
#[derive(Drop)]
pub struct SymbolReasons {
    /// What gives the value.
    pub case: Case,
    /// The selected member of its choice, if that is another.
    pub chosen: Option<Sym>,
    /// What hinders that it has what its user value asks.
    pub hindrance: Option<Hindrance>,
    /// For each prompt the parts of its condition that are too low; nothing where one prompt lacks nothing.
    pub needs: Vec<Vec<LowPart>>,
    /// For each definition the parts of its dependency that are below what is selected, if that is more.
    pub unmet: Vec<Vec<LowPart>>,
    /// The selects that decide.
    pub selected_by: Vec<usize>,
    /// The implies that decide.
    pub implied_by: Vec<usize>,
}

/// The selected member of a symbol's choice, if it is another than symbol `s`.
fn chosen_in(choice: Option<u32>, s: Sym, value: Option<&UnitValue>) -> Option<Sym>
    ensures { result ≡ chosen_in choice s (option_copied value.entry) }
{
    if choice.is_none() {
        return None;
    }
    match value {
        Some(UnitValue::Member(Some(member))) => {
            if member.number() == s.number() {
                None
            } else {
                Some(*member)
            }
        }
        _ => None,
    }
}

/// Whether the selects are given: they give the value, or more is selected than is assigned.
fn is_by_select(case: Case, hindrance: Option<Hindrance>) -> bool
    ensures { result ≡ is_by_select case hindrance }
{
    if let Case::Tri(TriCase::Select, _) = case {
        return true;
    }
    matches!(hindrance, Some(Hindrance::BelowSelected))
}

/// Whether the implies are given: they give the value.
fn is_by_imply(case: Case) -> bool
    ensures { result ≡ is_by_imply case }
{
    matches!(case, Case::Tri(TriCase::Imply | TriCase::Dependency, _))
}

/// Whether the selects are listed: where they are given, and where the symbol is selected above its direct dependency.
fn are_selects_listed(
    under: &Valuation<'_>,
    symbol: &Symbol<'_>,
    case: Case,
    hindrance: Option<Hindrance>,
) -> bool
    requires fits { SymbolFits (valuation_exprs under.now) (length (valuation_tree under.now).symbols) symbol.now }
    ensures value { result ≡ (is_by_select case hindrance || is_unmet_symbol (valuation_tree under.now) (valuation_values under.now) (symbol_view (valuation_exprs under.now) symbol.now)) }
{
    is_by_select(case, hindrance) || is_symbol_unmet(under, symbol)
}

/// The selects or implies that decide, if they are listed.
fn decisive_if(
    alloc: Global,
    under: &Valuation<'_>,
    are_listed: bool,
    all: &[ReverseDependency],
) -> Result<Vec<usize>, AllocError>
    requires fits { AreReverseDependencies (valuation_exprs under.now) (valuation_tree under.now) all.now }
    ensures ok { IfOk result (λ found. found.items ≡ (if are_listed then decisive_numbers (valuation_tree under.now) (valuation_values under.now) (map (reverse_dependency_view (valuation_exprs under.now)) all.now) else [])) }
{
    if are_listed {
        decisive(alloc, under, all)
    } else {
        Ok(Vec::new(alloc))
    }
}

/// What hinders that symbol `s` of unit `u` has what the user value of the unit asks, if it has one.
fn hindrance_of(
    alloc: Global,
    under: &Valuation<'_>,
    u: u32,
    s: Sym,
    user: Option<&UserValue>,
) -> Result<Option<Hindrance>, AllocError>
    requires unit { u < length (valuation_tree under.now).units }
    requires there { s < length (valuation_tree under.now).symbols }
    requires user { IfSome (option_copied user) (λ x. IsTrue (user_fits (valuation_tree under.now) u x)) }
    ensures ok { IfOk result (λ o. o ≡ hindrance_to under.now.rules.now.profile (valuation_tree under.now) u s (option_copied user.entry) (valuation_values under.now)) }
{
    match user {
        None => Ok(None),
        Some(x) => hindrance_to(alloc, under.rules, u, s, x, under.values),
    }
}

/// The reasons of symbol `s` under values of the units, if its unit has this user value, or none. An `Err` means out of memory.
pub fn reasons_of(
    alloc: Global,
    rules: &Rules,
    s: Sym,
    user: Option<&UserValue>,
    values: &[UnitValue],
) -> Result<SymbolReasons, AllocError>
    requires there { s < length rules.now.tree.tree.symbols }
    requires user { IfSome (option_copied user) (λ x. IsTrue (user_fits rules.now.tree.tree (unit_of rules.now.tree.tree s) x)) }
    ensures ok { IfOk result (λ r. plain_reasons_at rules.now.profile rules.now.tree.tree s (option_copied user.entry) values.now ≡ Some (reasons_view rules.now.tree.exprs r)) }
    ensures needs { IfOk result (λ r. AreThere rules.now.tree.exprs r.needs.items) }
    ensures unmet { IfOk result (λ r. AreThere rules.now.tree.exprs r.unmet.items) }
{
    let under = &Valuation { rules, values };
    let symbol = &rules.tree.symbol(s);
    let case = case_of(alloc, rules, symbol.unit, user, values)?;
    let hindrance = hindrance_of(alloc, under, symbol.unit, s, user)?;
    let chosen = chosen_in(symbol.choice, s, values.get(symbol.unit as usize));
    let needs = prompts_lack(alloc, under, symbol, wanted_by(under, symbol, user))?;
    let unmet = dependencies_lack(alloc, under, symbol)?;
    let are_selects_listed = are_selects_listed(under, symbol, case, hindrance);
    let selected_by = decisive_if(alloc, under, are_selects_listed, symbol.selectors)?;
    let implied_by = decisive_if(alloc, under, is_by_imply(case), symbol.impliers)?;
    Ok(SymbolReasons {
        case,
        chosen,
        hindrance,
        needs,
        unmet,
        selected_by,
        implied_by,
    })
}
