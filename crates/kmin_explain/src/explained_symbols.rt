//! What is known of a symbol that is explained.
ghost use Rattle.std.specs.Prelude.{◌≡◌, ◌<◌, List, Some, length, slice_get, IfOk};
ghost use Rattle.kc_tree_model.specs.Trees.{Symbol as ModelSymbol};
ghost use Rattle.kc_tree_model.specs.Blocks.{Group};
ghost use Rattle.kc_dotconfig_model.specs.ConfigLines.{LineMeaning};
ghost use Rattle.kc_rules.specs.between.SettledViews.{tree_model_of};
ghost use Rattle.kc_config.specs.ConfigStates.{tree_in};
ghost use Rattle.kmin_explain.specs.between.Sources.{config_of, AreReadSources, AreSourcesOf, sources_model};
ghost use Rattle.kmin_explain.specs.between.ExplainedSymbols.{IsWithin, IsExplained};

use super::asked_symbols::{AskedSymbol, asked_symbol};
use super::sources::Sources;
use super::symbol_reasons::{lines_of, listed_reasons, reason_places};
use kc_config::user_at;
use kc_config_reasons::valuation;
use kc_explanation::ReasonPlaces;
use kc_reasons::{SymbolReasons, wanted_by};
use kc_symbol_lines::SymbolLines;
use kc_tree::Sym;
use std::alloc::AllocError;

/// A symbol that is explained, as the lines of files speak of it, with its reasons, its lines, and the places of what gives its value
/// and of what it lacks.
#[derive(Drop)]
pub struct ExplainedSymbol {
    pub symbol: AskedSymbol,
    pub reasons: SymbolReasons,
    pub lines: SymbolLines,
    pub places: ReasonPlaces,
}

/// What is known of symbol `s`, of which with `all` every select and imply is listed. An `Err` means out of memory.
pub fn explained_symbol(by: &Sources<'_>, all: bool, s: Sym) -> Result<ExplainedSymbol, AllocError>
    requires read { AreReadSources by.now }
    requires there { s < length (tree_in (config_of by.now)).symbols }
    ensures number { IfOk result (λ found. found.symbol.s ≡ s) }
    ensures within { IfOk result (IsWithin by.now) }
    ensures explained { (read : List Group) (meanings : List (List LineMeaning)) (symbol : ModelSymbol) → AreSourcesOf by.now read meanings
        → slice_get (tree_in (config_of by.now)).symbols s ≡ Some symbol
        → IfOk result (IsExplained (sources_model by.now read meanings) (tree_model_of (config_of by.now).system).exprs all symbol) }
{
    let reasons = listed_reasons(by, all, s)?;
    let lines = lines_of(by, s)?;
    let under = &valuation(by.config);
    let symbol = &under.rules.tree.symbol(s);
    let wanted = wanted_by(under, symbol, user_at(by.config.users(), symbol.unit));
    let places = reason_places(by.alloc, under, symbol, &lines, wanted, reasons.case)?;
    Ok(ExplainedSymbol {
        symbol: asked_symbol(by, s),
        reasons,
        lines,
        places,
    })
}
