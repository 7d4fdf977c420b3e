//! What a symbol's prompts and dependencies lack, and which lines have it.
ghost use Rattle.std.specs.Prelude.{◌≡◌, ◌<◌, [], length, IfOk};
ghost use Rattle.kc_tree.specs.between.Views.{symbol_view, SymbolFits};
ghost use Rattle.kc_evaluation.specs.checker.ValuationView.{valuation_tree, valuation_exprs, valuation_values};
ghost use Rattle.kc_rules_model.specs.SymbolValues.{environment};
ghost use Rattle.kc_symbol_lines.specs.between.LinesView.{symbol_lines_view, AreHeld};
ghost use Rattle.kc_located_reasons.specs.LocatedNeeds.{prompts_lack_at, dependencies_lack_at};
ghost use Rattle.kc_located_reasons.specs.between.PartsView.{located_alternatives_view, ArePartsThere};

use super::located_parts::{LocatedPart, located_lacking_of_each};
use kc_evaluation::{Valuation, is_from_environment, is_symbol_unmet, reverse_limit};
use kc_reasons::unless_one_is_empty;
use kc_symbol_lines::SymbolLines;
use kc_tree::Symbol;
use kc_value::Tri;
use std::alloc::{AllocError, Global};

/// What each prompt of a symbol lacks of what is wanted, by its lines; nothing where one lacks nothing, and of a symbol with an
/// `option env`. An `Err` means out of memory.
pub fn prompts_lack_at(
    alloc: Global,
    under: &Valuation<'_>,
    symbol: &Symbol<'_>,
    lines: &SymbolLines,
    wanted: Tri,
) -> Result<Vec<Vec<LocatedPart>>, AllocError>
    requires held { AreHeld (valuation_exprs under.now) lines.now.prompts.items }
    ensures ok { IfOk result (λ found. located_alternatives_view (valuation_exprs under.now) found.items ≡ prompts_lack_at (environment (valuation_tree under.now) (valuation_values under.now)) wanted (symbol_view (valuation_exprs under.now) symbol.now) (symbol_lines_view (valuation_exprs under.now) lines.now)) }
    ensures there { IfOk result (λ found. ArePartsThere (valuation_exprs under.now) found.items) }
{
    if is_from_environment(symbol) {
        return Ok(Vec::new(alloc));
    }
    let found = located_lacking_of_each(alloc, under, &lines.prompts, wanted)?;
    Ok(unless_one_is_empty(alloc, found))
}

/// What the dependency of each definition of a symbol lacks of what is selected, if that is more, by its lines. An `Err` means out
/// of memory.
pub fn dependencies_lack_at(
    alloc: Global,
    under: &Valuation<'_>,
    symbol: &Symbol<'_>,
    lines: &SymbolLines,
) -> Result<Vec<Vec<LocatedPart>>, AllocError>
    requires fits { SymbolFits (valuation_exprs under.now) (length (valuation_tree under.now).symbols) symbol.now }
    requires held { AreHeld (valuation_exprs under.now) lines.now.direct.items }
    ensures ok { IfOk result (λ found. located_alternatives_view (valuation_exprs under.now) found.items ≡ dependencies_lack_at (valuation_tree under.now) (valuation_values under.now) (symbol_view (valuation_exprs under.now) symbol.now) (symbol_lines_view (valuation_exprs under.now) lines.now)) }
    ensures there { IfOk result (λ found. ArePartsThere (valuation_exprs under.now) found.items) }
{
    if is_symbol_unmet(under, symbol) {
        let selected = reverse_limit(under, symbol.selectors);
        located_lacking_of_each(alloc, under, &lines.direct, selected)
    } else {
        Ok(Vec::new(alloc))
    }
}
