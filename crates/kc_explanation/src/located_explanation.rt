//! The text that explains a symbol's value, with the places of lines.
ghost use Rattle.std.specs.Prelude.{◌≡◌, ◌<◌, ◌++◌, ◌∷◌, [], length, map, slice_get, option_map, codes, OnOk, Some};
ghost use Rattle.std.specs.Global.{Vec};
ghost use Rattle.kc_tree.specs.between.Views.{reverse_dependency_view, symbol_view, SymbolFits};
ghost use Rattle.kc_dependencies.specs.checker.StoredRules.{AreReverseDependencies};
ghost use Rattle.kc_reasons.specs.between.ReasonsView.{reasons_view};
ghost use Rattle.kc_symbol_lines.specs.between.LinesView.{position_view, symbol_lines_view};
ghost use Rattle.kc_located_reasons.specs.between.PartsView.{located_alternatives_view, ArePartsThere};
ghost use Rattle.kc_located_reasons.specs.declared.located_parts.LocatedPart.{LocatedPart};
ghost use Rattle.kc_explanation.specs.Explained.{case_text, chosen_text};
ghost use Rattle.kc_explanation.specs.Located.{place_in_parentheses, located_first_line, located_forcing_line, located_forcing_lines, located_details_at, located_unmet_at};
ghost use Rattle.kc_explanation.specs.checker.Contexts.{exprs_of, tree_of, values_of};
ghost use Rattle.kc_explanation.specs.checker.PartLines.{part_text, needed_lines, forces_lines, detail_lines};
ghost use Rattle.kc_explanation.specs.between.ReasonPlacesView.{places_view};

use super::context::Context;
use super::explanation::{is_without_prompt, name_of, push_case, push_chosen};
use super::part_texts::push_part_lines;
use super::place_texts::push_place_if;
use super::token_texts::{push_value, push_value_text};
use kc_located_reasons::LocatedPart;
use kc_reasons::{Case, SymbolReasons};
use kc_symbol_lines::{Position, SymbolLines};
use kc_tree::{ReverseDependency, Sym, Symbol};
use std::alloc::AllocError;

/// The places of what gives a symbol its value, and of what its prompts and the dependencies of its definitions lack.
#[derive(Drop)]
pub struct ReasonPlaces {
    pub given_at: Option<Position>,
    pub needs: Vec<Vec<LocatedPart>>,
    pub unmet: Vec<Vec<LocatedPart>>,
}

/// Appends what gives a value, and where, if there is a place, up to the end of the line.
fn push_given(
    out: &mut Vec<u8>,
    by: &Context<'_>,
    chosen: Option<Sym>,
    case: Case,
    at: Option<Position>,
) -> Result<(), AllocError>
    ensures { OnOk result (out.new.items ≡ out.old.items ++ (chosen_text (tree_of by.now) chosen ++ (case_text case ++ (place_in_parentheses by.now.paths.now (option_map position_view at) ++ 10 ∷ [])))) }
{
    push_chosen(out, by.under, chosen)?;
    push_case(out, case)?;
    push_place_if(out, by.paths, at)?;
    out.extend_from_slice(b"\n")?;
    Ok(())
}

/// Appends the first line of the text that explains symbol `s`: its value and what gives it, and where, if there is a place. An `Err`
/// means out of memory.
pub fn push_located_first_line(
    out: &mut Vec<u8>,
    by: &Context<'_>,
    s: Sym,
    chosen: Option<Sym>,
    case: Case,
    at: Option<Position>,
) -> Result<(), AllocError>
    requires there { s < length (tree_of by.now).symbols }
    ensures { OnOk result (out.new.items ≡ out.old.items ++ located_first_line by.now.strings by.now.paths.now (tree_of by.now) (values_of by.now) s chosen case (option_map position_view at)) }
{
    out.extend_from_slice(name_of(by.under, s).as_bytes())?;
    out.extend_from_slice(b"=")?;
    push_value_text(out, by.strings, &by.under.symbol(s))?;
    out.extend_from_slice(b": ")?;
    push_given(out, by, chosen, case, at)?;
    Ok(())
}

/// The place with a number, if there is one.
pub fn place_at(places: &[Position], number: usize) -> Option<Position>
    ensures { option_map position_view result ≡ slice_get (map position_view places.now) number }
{
    match places.get(number) {
        None => None,
        Some(at) => Some(*at),
    }
}

/// The selects or the implies of a symbol, with the word before each of their lines, and their places.
#[derive(Clone, Copy)]
struct Forces<'a> {
    word: &'a str,
    all: &'a [ReverseDependency],
    places: &'a [Position],
}

/// Appends a line for a symbol that selects or implies, and where, if there is a place.
fn push_forcing_line(
    out: &mut Vec<u8>,
    by: &Context<'_>,
    word: &str,
    force: ReverseDependency,
    at: Option<Position>,
) -> Result<(), AllocError>
    requires by { force.by < length (tree_of by.now).symbols }
    ensures { OnOk result (out.new.items ≡ out.old.items ++ located_forcing_line by.now.strings by.now.paths.now (tree_of by.now) (values_of by.now) word.now (Some (reverse_dependency_view (exprs_of by.now) force)) (option_map position_view at)) }
{
    let seen = by.under.symbol(force.by);
    out.extend_from_slice(b"  ")?;
    out.extend_from_slice(word.as_bytes())?;
    out.extend_from_slice(name_of(by.under, force.by).as_bytes())?;
    push_value(out, by, &seen)?;
    push_place_if(out, by.paths, at)?;
    out.extend_from_slice(b"\n")?;
    Ok(())
}

/// Appends a line for the select or imply with a number, if there is one, and where, if it has a place.
fn push_numbered_line(
    out: &mut Vec<u8>,
    by: &Context<'_>,
    forces: &Forces<'_>,
    number: usize,
) -> Result<(), AllocError>
    requires fits { AreReverseDependencies (exprs_of by.now) (tree_of by.now) forces.now.all.now }
    ensures { OnOk result (out.new.items ≡ out.old.items ++ located_forcing_line by.now.strings by.now.paths.now (tree_of by.now) (values_of by.now) forces.now.word.now (slice_get (map (reverse_dependency_view (exprs_of by.now)) forces.now.all.now) number) (slice_get (map position_view forces.now.places.now) number)) }
{
    if number < forces.all.len() {
        let at = place_at(forces.places, number);
        push_forcing_line(out, by, forces.word, forces.all[number], at)
    } else {
        out.extend_from_slice(b"")
    }
}

/// Appends a line for each of the selects or implies with these numbers.
fn push_forcing_lines(
    out: &mut Vec<u8>,
    by: &Context<'_>,
    forces: &Forces<'_>,
    numbers: &[usize],
) -> Result<(), AllocError>
    requires fits { AreReverseDependencies (exprs_of by.now) (tree_of by.now) forces.now.all.now }
    ensures { OnOk result (out.new.items ≡ out.old.items ++ located_forcing_lines by.now.strings by.now.paths.now (tree_of by.now) (values_of by.now) forces.now.word.now (map (reverse_dependency_view (exprs_of by.now)) forces.now.all.now) (map position_view forces.now.places.now) numbers.now) }
{
    for number in numbers {
        push_numbered_line(out, by, forces, *number)?;
    }
    Ok(())
}

/// Appends a line for each of the selects of a symbol with these numbers, and where.
fn push_selects(
    out: &mut Vec<u8>,
    by: &Context<'_>,
    symbol: &Symbol<'_>,
    selectors: &[Position],
    selected_by: &[usize],
) -> Result<(), AllocError>
    requires fits { SymbolFits (exprs_of by.now) (length (tree_of by.now).symbols) symbol.now }
    ensures { OnOk result (out.new.items ≡ out.old.items ++ located_forcing_lines by.now.strings by.now.paths.now (tree_of by.now) (values_of by.now) (codes "selected by ") (symbol_view (exprs_of by.now) symbol.now).selectors (map position_view selectors.now) selected_by.now) }
{
    let selects = &Forces {
        word: "selected by ",
        all: symbol.selectors,
        places: selectors,
    };
    push_forcing_lines(out, by, selects, selected_by)
}

/// Appends a line for each select and imply of a symbol that is among its reasons, and where.
fn push_forces(
    out: &mut Vec<u8>,
    by: &Context<'_>,
    symbol: &Symbol<'_>,
    reasons: &SymbolReasons,
    selectors: &[Position],
    impliers: &[Position],
) -> Result<(), AllocError>
    requires fits { SymbolFits (exprs_of by.now) (length (tree_of by.now).symbols) symbol.now }
    ensures { OnOk result (out.new.items ≡ out.old.items ++ forces_lines by.now (symbol_view (exprs_of by.now) symbol.now) (map position_view selectors.now) (map position_view impliers.now) reasons.now.selected_by.items reasons.now.implied_by.items) }
{
    push_selects(out, by, symbol, selectors, &reasons.selected_by)?;
    let implies = &Forces {
        word: "implied by ",
        all: symbol.impliers,
        places: impliers,
    };
    push_forcing_lines(out, by, implies, &reasons.implied_by)
}

/// Appends what the prompts need, if there is one.
fn push_needs(
    out: &mut Vec<u8>,
    by: &Context<'_>,
    without_prompt: bool,
    needs: &[Vec<LocatedPart>],
) -> Result<(), AllocError>
    requires there { ArePartsThere (exprs_of by.now) needs.now }
    ensures { OnOk result (out.new.items ≡ out.old.items ++ needed_lines without_prompt (map (λ (v : Vec LocatedPart). map (part_text by.now) v.items) needs.now)) }
{
    if without_prompt {
        out.extend_from_slice(b"  it has no prompt\n")
    } else {
        push_part_lines(out, by, b"needs ", needs)
    }
}

/// Appends what comes after a symbol's value and what was asked: what its prompts need, what selects and implies it, and what is unmet.
fn push_details(
    out: &mut Vec<u8>,
    by: &Context<'_>,
    symbol: &Symbol<'_>,
    reasons: &SymbolReasons,
    needs: &[Vec<LocatedPart>],
    unmet: &[Vec<LocatedPart>],
    selectors: &[Position],
    impliers: &[Position],
) -> Result<(), AllocError>
    requires fits { SymbolFits (exprs_of by.now) (length (tree_of by.now).symbols) symbol.now }
    requires needs { ArePartsThere (exprs_of by.now) needs.now }
    requires unmet { ArePartsThere (exprs_of by.now) unmet.now }
    ensures { OnOk result (out.new.items ≡ out.old.items ++ detail_lines by.now (symbol_view (exprs_of by.now) symbol.now) reasons.now.hindrance (map (λ (v : Vec LocatedPart). map (part_text by.now) v.items) needs.now) (map position_view selectors.now) (map position_view impliers.now) reasons.now.selected_by.items reasons.now.implied_by.items (map (λ (v : Vec LocatedPart). map (part_text by.now) v.items) unmet.now)) }
{
    push_needs(out, by, is_without_prompt(reasons.hindrance, symbol), needs)?;
    push_forces(out, by, symbol, reasons, selectors, impliers)?;
    push_part_lines(out, by, b"unmet: ", unmet)
}

/// Appends what comes in the text that explains symbol `s` after its value and what was asked: what its prompts need, what selects and
/// implies it, and what is unmet, by its reasons, its lines and the places of what it lacks. An `Err` means out of memory.
pub fn push_located_details(
    out: &mut Vec<u8>,
    by: &Context<'_>,
    s: Sym,
    lines: &SymbolLines,
    reasons: &SymbolReasons,
    places: &ReasonPlaces,
) -> Result<(), AllocError>
    requires there { s < length (tree_of by.now).symbols }
    requires needs { ArePartsThere (exprs_of by.now) places.now.needs.items }
    requires unmet { ArePartsThere (exprs_of by.now) places.now.unmet.items }
    ensures { OnOk result (out.new.items ≡ out.old.items ++ located_details_at by.now.strings by.now.paths.now (tree_of by.now) (values_of by.now) s (symbol_lines_view (exprs_of by.now) lines.now) (reasons_view (exprs_of by.now) reasons.now) (places_view (exprs_of by.now) places.now)) }
{
    let symbol = &by.under.rules.tree.symbol(s);
    push_details(
        out,
        by,
        symbol,
        reasons,
        &places.needs,
        &places.unmet,
        &lines.selectors,
        &lines.impliers,
    )
}

/// Appends of symbol `s`, which is selected against its dependencies, what selects it, by the numbers of the selects that decide, and
/// what is unmet. An `Err` means out of memory.
pub fn push_located_unmet(
    out: &mut Vec<u8>,
    by: &Context<'_>,
    s: Sym,
    selectors: &[Position],
    selected_by: &[usize],
    unmet: &[Vec<LocatedPart>],
) -> Result<(), AllocError>
    requires there { s < length (tree_of by.now).symbols }
    requires unmet { ArePartsThere (exprs_of by.now) unmet.now }
    ensures { OnOk result (out.new.items ≡ out.old.items ++ located_unmet_at by.now.strings by.now.paths.now (tree_of by.now) (values_of by.now) s (map position_view selectors.now) selected_by.now (located_alternatives_view (exprs_of by.now) unmet.now)) }
{
    let symbol = &by.under.rules.tree.symbol(s);
    push_selects(out, by, symbol, selectors, selected_by)?;
    push_part_lines(out, by, b"unmet: ", unmet)
}
