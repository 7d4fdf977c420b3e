//! The reasons of a symbol that `explain` gives, with their places.
ghost use Rattle.std.specs.Prelude.{◌≡◌, ◌<◌, List, Some, true, length, slice_get, IfOk};
ghost use Rattle.std.specs.List.{range_with_len};
ghost use Rattle.kc_expr.specs.between.Arena.{Exprs};
ghost use Rattle.kc_tree_model.specs.Trees.{Symbol as ModelSymbol};
ghost use Rattle.kc_tree_model.specs.Blocks.{Group};
ghost use Rattle.kc_tree_model.specs.Contents.{contents_of};
ghost use Rattle.kc_tree.specs.between.Views.{symbol_view, SymbolFits};
ghost use Rattle.kc_rules_model.specs.SymbolValues.{environment};
ghost use Rattle.kc_rules.specs.between.SettledViews.{tree_model_of};
ghost use Rattle.kc_evaluation.specs.checker.ValuationView.{valuation_tree, valuation_exprs, valuation_values};
ghost use Rattle.kc_dotconfig_model.specs.ConfigLines.{LineMeaning};
ghost use Rattle.kc_config.specs.ConfigStates.{tree_in};
ghost use Rattle.kc_reasons_model.specs.SymbolLines.{lines_of_symbol};
ghost use Rattle.kc_reasons.specs.between.ReasonsView.{reasons_view};
ghost use Rattle.kc_symbol_lines.specs.between.LinesView.{symbol_lines_view, AreHeld};
ghost use Rattle.kc_located_reasons.specs.GivenPlaces.{given_place};
ghost use Rattle.kc_located_reasons.specs.LocatedNeeds.{prompts_lack_at, dependencies_lack_at};
ghost use Rattle.kc_located_reasons.specs.between.PartsView.{ArePartsThere};
ghost use Rattle.kc_explanation.specs.between.ReasonPlacesView.{places_view};
ghost use Rattle.kmin_explain.specs.Explanations.{reasons_of, listed_reasons};
ghost use Rattle.kmin_explain.specs.between.Sources.{config_of, AreReadSources, AreSourcesOf, sources_model};

use super::sources::Sources;
use kc_config_reasons::reasons_in;
use kc_evaluation::Valuation;
use kc_explanation::ReasonPlaces;
use kc_located_reasons::{dependencies_lack_at, place_of_case, prompts_lack_at};
use kc_reasons::{Case, SymbolReasons};
use kc_symbol_lines::SymbolLines;
use kc_tree::{Sym, Symbol};
use kc_value::Tri;
use std::alloc::{AllocError, Global};

/// The numbers below a count, from 0.
fn all_numbers(alloc: Global, count: usize) -> Result<Vec<usize>, AllocError>
    ensures { IfOk result (λ found. found.items ≡ range_with_len 0 count) }
{
    let mut found = Vec::new(alloc);
    for number in 0..count {
        found.push(number)?;
    }
    Ok(found)
}

/// The reasons of symbol `s`, of which with `all` every select and imply is listed. An `Err` means out of memory.
pub(crate) fn listed_reasons(
    by: &Sources<'_>,
    all: bool,
    s: Sym,
) -> Result<SymbolReasons, AllocError>
    requires there { s < length (tree_in (config_of by.now)).symbols }
    ensures reasons { (read : List Group) (meanings : List (List LineMeaning)) (symbol : ModelSymbol) → slice_get (tree_in (config_of by.now)).symbols s ≡ Some symbol
        → IfOk result (λ r. reasons_view (tree_model_of (config_of by.now).system).exprs r ≡ listed_reasons all symbol (reasons_of (sources_model by.now read meanings) s symbol)) }
{
    let reasons = reasons_in(by.alloc, by.config, s)?;
    if all {
        with_all(by.alloc, &by.config.settled().tree().symbol(s), reasons)
    } else {
        Ok(reasons)
    }
}

/// Reasons of a symbol with every select and imply.
fn with_all(
    alloc: Global,
    symbol: &Symbol<'_>,
    reasons: SymbolReasons,
) -> Result<SymbolReasons, AllocError>
    ensures { (exprs : Exprs) → IfOk result (λ r. reasons_view exprs r ≡ listed_reasons true (symbol_view exprs symbol.now) (reasons_view exprs reasons)) }
{
    let mut listed = reasons;
    listed.selected_by = all_numbers(alloc, symbol.selectors.len())?;
    listed.implied_by = all_numbers(alloc, symbol.impliers.len())?;
    Ok(listed)
}

/// The lines of symbol `s`.
pub fn lines_of(by: &Sources<'_>, s: Sym) -> Result<SymbolLines, AllocError>
    requires read { AreReadSources by.now }
    requires there { s < length (tree_in (config_of by.now)).symbols }
    ensures lines { (read : List Group) (meanings : List (List LineMeaning)) (symbol : ModelSymbol) → AreSourcesOf by.now read meanings
        → slice_get (tree_in (config_of by.now)).symbols s ≡ Some symbol
        → IfOk result (λ l. symbol_lines_view (tree_model_of (config_of by.now).system).exprs l ≡ lines_of_symbol (tree_in (config_of by.now)).language (contents_of read) symbol.name) }
    ensures prompts { IfOk result (λ l. AreHeld (tree_model_of (config_of by.now).system).exprs l.prompts.items) }
    ensures direct { IfOk result (λ l. AreHeld (tree_model_of (config_of by.now).system).exprs l.direct.items) }
{
    let tree = by.config.settled().tree();
    by.index.lines_of(by.alloc, tree, by.lines, s)
}

/// The places of what gives a symbol its value in a case, of what its prompts lack of what is wanted, and of what its definitions'
/// dependencies lack of what is selected.
pub(crate) fn reason_places(
    alloc: Global,
    under: &Valuation<'_>,
    symbol: &Symbol<'_>,
    lines: &SymbolLines,
    wanted: Tri,
    case: Case,
) -> Result<ReasonPlaces, AllocError>
    requires fits { SymbolFits (valuation_exprs under.now) (length (valuation_tree under.now).symbols) symbol.now }
    requires prompts { AreHeld (valuation_exprs under.now) lines.now.prompts.items }
    requires direct { AreHeld (valuation_exprs under.now) lines.now.direct.items }
    ensures places { IfOk result (λ p. places_view (valuation_exprs under.now) p ≡ record {
      given_at = given_place (valuation_tree under.now) (valuation_values under.now) (symbol_view (valuation_exprs under.now) symbol.now) (symbol_lines_view (valuation_exprs under.now) lines.now) case;
      needs = prompts_lack_at (environment (valuation_tree under.now) (valuation_values under.now)) wanted (symbol_view (valuation_exprs under.now) symbol.now) (symbol_lines_view (valuation_exprs under.now) lines.now);
      unmet = dependencies_lack_at (valuation_tree under.now) (valuation_values under.now) (symbol_view (valuation_exprs under.now) symbol.now) (symbol_lines_view (valuation_exprs under.now) lines.now);
    }) }
    ensures needs { IfOk result (λ p. ArePartsThere (valuation_exprs under.now) p.needs.items) }
    ensures unmet { IfOk result (λ p. ArePartsThere (valuation_exprs under.now) p.unmet.items) }
{
    let needs = prompts_lack_at(alloc, under, symbol, lines, wanted)?;
    let unmet = dependencies_lack_at(alloc, under, symbol, lines)?;
    let given_at = place_of_case(under, symbol, lines, case);
    Ok(ReasonPlaces {
        given_at,
        needs,
        unmet,
    })
}
