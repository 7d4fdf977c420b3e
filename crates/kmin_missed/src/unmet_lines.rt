//! The lines of `check --long`.
ghost use Rattle.std.specs.Prelude.{◌≡◌, ◌<◌, ◌++◌, List, All, Some, length, flat_map, slice_get, IfOk, OnOk};
ghost use Rattle.kc_tree_model.specs.Blocks.{Group};
ghost use Rattle.kc_dotconfig_model.specs.ConfigLines.{LineMeaning};
ghost use Rattle.kc_tree_model.specs.Trees.{Symbol as ModelSymbol};
ghost use Rattle.kc_config.specs.ConfigStates.{tree_in};
ghost use Rattle.kc_tree_model.specs.Contents.{contents_of};
ghost use Rattle.kc_reasons_model.specs.SymbolLines.{lines_of_symbol};
ghost use Rattle.kc_explanation.specs.Located.{place_text};
ghost use Rattle.kmin_explain.specs.Explanations.{reasons_of};
ghost use Rattle.kmin_missed.specs.UnmetLines.{first_place, unmet_row_at};
ghost use Rattle.kmin_missed.specs.checker.UnmetDetails.{unmet_details};
ghost use Rattle.kmin_explain.specs.between.Sources.{config_of, AreReadSources, AreSourcesOf, sources_model};

use crate::one_line::push_in_one_line;
use kc_config_reasons::{reasons_in, valuation};
use kc_explanation::{push_located_unmet, push_name, push_tree_place, push_value_of};
use kc_located_reasons::dependencies_lack_at;
use kc_symbol_lines::Position;
use kc_tree::Sym;
use kmin_explain::{Sources, lines_of};
use std::alloc::AllocError;

/// What selects symbol `s`, and what is unmet.
fn unmet_details(by: &Sources<'_>, s: Sym) -> Result<Vec<u8>, AllocError>
    requires read { AreReadSources by.now }
    requires there { s < length (tree_in (config_of by.now)).symbols }
    ensures { (read : List Group) (meanings : List (List LineMeaning)) (symbol : ModelSymbol) → AreSourcesOf by.now read meanings
        → slice_get (tree_in (config_of by.now)).symbols s ≡ Some symbol
        → IfOk result (λ text. text.items ≡ unmet_details (sources_model by.now read meanings) symbol (reasons_of (sources_model by.now read meanings) s symbol) (lines_of_symbol (tree_in (config_of by.now)).language (contents_of read) symbol.name)) }
{
    let reasons = reasons_in(by.alloc, by.config, s)?;
    let lines = lines_of(by, s)?;
    let under = &valuation(by.config);
    let symbol = &under.rules.tree.symbol(s);
    let unmet = dependencies_lack_at(by.alloc, under, symbol, &lines)?;
    let mut text = Vec::new(by.alloc);
    push_located_unmet(
        &mut text,
        &by.context(under),
        s,
        &lines.selectors,
        &reasons.selected_by,
        &unmet,
    )?;
    Ok(text)
}

/// Appends the place of the first definition of symbol `s`.
fn push_first_place(out: &mut Vec<u8>, by: &Sources<'_>, s: Sym) -> Result<(), AllocError>
    requires there { s < length (tree_in (config_of by.now)).symbols }
    ensures { (symbol : ModelSymbol) → slice_get (tree_in (config_of by.now)).symbols s ≡ Some symbol → OnOk result (out.new.items ≡ out.old.items ++ place_text by.now.tree_paths.now (first_place symbol)) }
{
    let symbol = &valuation(by.config).rules.tree.symbol(s);
    let at = Position {
        file: symbol.file,
        line: symbol.line,
    };
    push_tree_place(out, by.tree_paths, at)
}

/// Appends the line of symbol `s`.
fn push_unmet_row(out: &mut Vec<u8>, by: &Sources<'_>, s: Sym) -> Result<(), AllocError>
    requires read { AreReadSources by.now }
    requires there { s < length (tree_in (config_of by.now)).symbols }
    ensures { (read : List Group) (meanings : List (List LineMeaning)) → AreSourcesOf by.now read meanings → OnOk result (out.new.items ≡ out.old.items ++ unmet_row_at (sources_model by.now read meanings) s) }
{
    let details = unmet_details(by, s)?;
    let under = &valuation(by.config);
    push_first_place(out, by, s)?;
    out.extend_from_slice(b": ")?;
    push_name(out, under, s)?;
    out.extend_from_slice(b": ")?;
    push_value_of(out, under, by.strings, s)?;
    push_in_one_line(out, b": ", &details)?;
    out.extend_from_slice(b"\n")?;
    Ok(())
}

/// The text of `check --long` for symbols that are selected against their dependencies, in their order. An `Err` means out of memory.
pub fn lines_of_unmet(by: &Sources<'_>, symbols: &[Sym]) -> Result<Vec<u8>, AllocError>
    requires read { AreReadSources by.now }
    requires there { All (λ s. s < length (tree_in (config_of by.now)).symbols) symbols.now }
    ensures { (read : List Group) (meanings : List (List LineMeaning)) → AreSourcesOf by.now read meanings → IfOk result (λ text. text.items ≡ flat_map (unmet_row_at (sources_model by.now read meanings)) symbols.now) }
{
    let mut text = Vec::new(by.alloc);
    for s in symbols {
        push_unmet_row(&mut text, by, *s)?;
    }
    Ok(text)
}
