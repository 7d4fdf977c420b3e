//! The text of `explain` for symbols.
ghost use Rattle.std.specs.Prelude.{◌≡◌, ◌<◌, ◌++◌, List, All, length, option_map, IfOk, OnOk};
ghost use Rattle.std.specs.List.{range_with_len};
ghost use Rattle.kc_tree_model.specs.Blocks.{Group};
ghost use Rattle.kc_dotconfig_model.specs.ConfigLines.{LineMeaning};
ghost use Rattle.kc_rules.specs.between.SettledViews.{tree_model_of};
ghost use Rattle.kc_config.specs.ConfigStates.{tree_in};
ghost use Rattle.kc_reasons.specs.between.ReasonsView.{reasons_view};
ghost use Rattle.kc_symbol_lines.specs.between.LinesView.{position_view, symbol_lines_view};
ghost use Rattle.kc_explanation.specs.Located.{located_first_line, located_details_at};
ghost use Rattle.kc_explanation.specs.between.ReasonPlacesView.{places_view};
ghost use Rattle.kmin_explain.specs.Explanations.{explained_at, explained_in, is_hindered_at, is_one_hindered};
ghost use Rattle.kmin_explain.specs.between.Sources.{config_of, AreReadSources, AreSourcesOf, sources_model};
ghost use Rattle.kmin_explain.specs.between.ExplainedSymbols.{IsWithin};

use super::asked_lines::push_asked_lines;
use super::explained_symbols::{ExplainedSymbol, explained_symbol};
use super::sources::Sources;
use kc_config_reasons::{deciding_line, reasons_in, valuation};
use kc_explanation::{push_located_details, push_located_first_line};
use kc_tree::Sym;
use std::alloc::{AllocError, Global};

/// Appends the first line of the text for a symbol: its value, what gives it, and where.
fn push_first_line(
    out: &mut Vec<u8>,
    by: &Sources<'_>,
    found: &ExplainedSymbol,
) -> Result<(), AllocError>
    requires within { IsWithin by.now found.now }
    ensures { OnOk result (out.new.items ≡ out.old.items ++ located_first_line by.now.strings by.now.tree_paths.now (tree_in (config_of by.now)) (config_of by.now).values found.now.symbol.s found.now.reasons.chosen found.now.reasons.case (option_map position_view found.now.places.given_at)) }
{
    let under = &valuation(by.config);
    push_located_first_line(
        out,
        &by.context(under),
        found.symbol.s,
        found.reasons.chosen,
        found.reasons.case,
        found.places.given_at,
    )
}

/// Appends what comes in the text for a symbol after its value and what was asked. An `Err` means out of memory.
pub fn push_details(
    out: &mut Vec<u8>,
    by: &Sources<'_>,
    found: &ExplainedSymbol,
) -> Result<(), AllocError>
    requires within { IsWithin by.now found.now }
    ensures { OnOk result (out.new.items ≡ out.old.items ++ located_details_at by.now.strings by.now.tree_paths.now (tree_in (config_of by.now)) (config_of by.now).values found.now.symbol.s (symbol_lines_view (tree_model_of (config_of by.now).system).exprs found.now.lines) (reasons_view (tree_model_of (config_of by.now).system).exprs found.now.reasons) (places_view (tree_model_of (config_of by.now).system).exprs found.now.places)) }
{
    let under = &valuation(by.config);
    push_located_details(
        out,
        &by.context(under),
        found.symbol.s,
        &found.lines,
        &found.reasons,
        &found.places,
    )
}

/// Appends the text for symbol `s`.
fn push_explained(out: &mut Vec<u8>, by: &Sources<'_>, all: bool, s: Sym) -> Result<(), AllocError>
    requires read { AreReadSources by.now }
    requires there { s < length (tree_in (config_of by.now)).symbols }
    ensures { (read : List Group) (meanings : List (List LineMeaning)) → AreSourcesOf by.now read meanings → OnOk result (out.new.items ≡ out.old.items ++ explained_at (sources_model by.now read meanings) all s) }
{
    let found = explained_symbol(by, all, s)?;
    push_first_line(out, by, &found)?;
    push_asked_lines(out, by, &found)?;
    push_details(out, by, &found)
}

/// The text that explains symbols, in their order: why each has its value, what the configuration files ask of it, and what it lacks.
/// With `all` every select and imply is listed, also those that don't decide. An `Err` means out of memory.
pub fn explanation_of(by: &Sources<'_>, all: bool, symbols: &[Sym]) -> Result<Vec<u8>, AllocError>
    requires read { AreReadSources by.now }
    requires there { All (λ s. s < length (tree_in (config_of by.now)).symbols) symbols.now }
    ensures { (read : List Group) (meanings : List (List LineMeaning)) → AreSourcesOf by.now read meanings → IfOk result (λ text. text.items ≡ explained_in (sources_model by.now read meanings) all symbols.now) }
{
    let mut text = Vec::new(by.alloc);
    for s in symbols {
        push_explained(&mut text, by, all, *s)?;
    }
    Ok(text)
}

/// The symbols with the numbers below a count, in their order. An `Err` means out of memory.
pub fn every_symbol(alloc: Global, count: u32) -> Result<Vec<Sym>, AllocError>
    ensures { IfOk result (λ symbols. symbols.items ≡ range_with_len 0 count) }
{
    let mut symbols = Vec::new(alloc);
    for s in 0..count {
        symbols.push(Sym::at(s))?;
    }
    Ok(symbols)
}

/// Whether a line for symbol `s` isn't taken.
fn is_hindered(by: &Sources<'_>, s: Sym) -> Result<bool, AllocError>
    requires there { s < length (tree_in (config_of by.now)).symbols }
    ensures { (read : List Group) (meanings : List (List LineMeaning)) → AreSourcesOf by.now read meanings → IfOk result (λ found. found ≡ is_hindered_at (sources_model by.now read meanings) s) }
{
    let unit = by.config.settled().tree().unit_of(s);
    if deciding_line(by.files, unit, s).is_none() {
        return Ok(false);
    }
    let reasons = reasons_in(by.alloc, by.config, s)?;
    Ok(reasons.hindrance.is_some())
}

/// Whether a line for one of some symbols isn't taken: a configuration file says something of the symbol, and it hasn't the value that
/// is asked. An `Err` means out of memory.
pub fn is_one_hindered(by: &Sources<'_>, symbols: &[Sym]) -> Result<bool, AllocError>
    requires there { All (λ s. s < length (tree_in (config_of by.now)).symbols) symbols.now }
    ensures { (read : List Group) (meanings : List (List LineMeaning)) → AreSourcesOf by.now read meanings → IfOk result (λ found. found ≡ is_one_hindered (sources_model by.now read meanings) symbols.now) }
{
    for s in symbols {
        if is_hindered(by, *s)? {
            return Ok(true);
        }
    }
    Ok(false)
}
