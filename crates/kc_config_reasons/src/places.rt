//! Of several configuration files the lines that say something of a symbol.
ghost use Rattle.std.specs.Prelude.{◌≡◌, ◌<◌, ◌+◌, ◌∷◌, ◌++◌, [], ℕ, List, length, map, drop, IfOk, OnOk, option_map, option_to_list};
ghost use Rattle.std.specs.List.{AllZip};
ghost use Rattle.kc_tree_model.specs.Trees.{Tree};
ghost use Rattle.kc_tree_model.specs.TreeLookup.{unit_of};
ghost use Rattle.kc_rules_model.specs.Equality.{same_user};
ghost use Rattle.kc_dotconfig_model.specs.ConfigLines.{LineMeaning};
ghost use Rattle.kc_reasons_model.specs.AssigningLines.{assigning_place};
ghost use Rattle.kc_reasons_model.specs.OverriddenLines.{places_of, overridden};
ghost use Rattle.kc_config_reasons.specs.between.FileLines.{line_kept, KeepsLines};
ghost use Rattle.kc_config_reasons.specs.between.Places.{place_view, overridden_view};
ghost use Rattle.kc_config_reasons.specs.checker.PlaceSteps.{place_at, overridden_at, places_kept, place_asking_otherwise};

use super::file_lines::{AskingLine, FileLines};
use kc_rules::Settled;
use kc_solver::System;
use kc_tree::Sym;
use std::alloc::{AllocError, Global};

/// A line of the configuration file with this number, from 0.
#[derive(Clone, Copy)]
pub struct AskingPlace<'a> {
    pub file: usize,
    pub line: &'a AskingLine,
}

/// The last line of a configuration file on a symbol, and that of the first later file that asks for another value.
#[derive(Clone, Copy)]
pub struct Overridden<'a> {
    pub place: AskingPlace<'a>,
    pub by: AskingPlace<'a>,
}

/// Of some configuration files, each of which overrides those before it, the last that has a line that says something of symbol `s`,
/// which is of this unit: its last such line.
pub fn deciding_line(files: &[FileLines], unit: u32, s: Sym) -> Option<AskingPlace<'_>>
    ensures { (tree : Tree) (meanings : List (List LineMeaning)) → unit ≡ unit_of tree s → AllZip (KeepsLines tree) meanings files.now → option_map place_view result ≡ assigning_place unit s 0 meanings }
{
    for file in (0..files.len()).rev() {
        if let Some(line) = files[file].line_for(unit, s) {
            return Some(AskingPlace { file, line });
        }
    }
    None
}

/// Appends the line of a file, if there is one.
fn push_place<'a>(
    found: &mut Vec<AskingPlace<'a>>,
    file: usize,
    line: Option<&'a AskingLine>,
) -> Result<(), AllocError>
    ensures { OnOk result (found.new.items ≡ found.old.items ++ option_to_list (option_map (place_at file) line.entry)) }
{
    if let Some(line) = line {
        found.push(AskingPlace { file, line })?;
    }
    Ok(())
}

/// Of each file that has one, its last line that says something of symbol `s` of this unit.
fn places_kept(
    alloc: Global,
    files: &[FileLines],
    unit: u32,
    s: Sym,
) -> Result<Vec<AskingPlace<'_>>, AllocError>
    ensures { IfOk result (λ found. map place_view found.items ≡ places_kept unit s 0 files.now) }
{
    let mut found = Vec::new(alloc);
    for (file, lines) in files.iter().enumerate() {
        push_place(&mut found, file, lines.line_for(unit, s))?;
    }
    Ok(found)
}

/// Whether two lines ask for the same value.
fn ask_alike(a: &AskingLine, b: &AskingLine) -> bool
    ensures { result ≡ same_user a.now.user b.now.user }
{
    Settled::same_user(&a.user, &b.user)
}

/// The first later line that asks for another value than that at `i`, where this is the one for the line after it.
fn place_asking_otherwise<'a>(
    places: &[AskingPlace<'a>],
    i: usize,
    after: Option<AskingPlace<'a>>,
) -> Option<AskingPlace<'a>>
    requires there { i < length places.now }
    requires after { option_map place_view after ≡ place_asking_otherwise (map place_view (drop (i + 1) places.now)) }
    ensures value { option_map place_view result ≡ place_asking_otherwise (map place_view (drop i places.now)) }
{
    if i + 1 == places.len() {
        return None;
    }
    let place = places[i];
    let next = places[i + 1];
    if ask_alike(place.line, next.line) {
        after
    } else {
        Some(next)
    }
}

/// Appends a line, if a later one overrides it.
fn push_overridden<'a>(
    found: &mut Vec<Overridden<'a>>,
    place: AskingPlace<'a>,
    by: Option<AskingPlace<'a>>,
) -> Result<(), AllocError>
    ensures { OnOk result (found.new.items ≡ found.old.items ++ option_to_list (option_map (overridden_at place.entry) by.entry)) }
{
    if let Some(by) = by {
        found.push(Overridden { place, by })?;
    }
    Ok(())
}

/// Of lines, in the order of their files, those that a later one overrides.
fn overridden_among<'a>(
    alloc: Global,
    places: &[AskingPlace<'a>],
) -> Result<Vec<Overridden<'a>>, AllocError>
    ensures { IfOk result (λ found. map overridden_view found.items ≡ overridden (map place_view places.now)) }
{
    let mut found = Vec::new(alloc);
    let mut by = None;
    for i in (0..places.len()).rev() {
        by = place_asking_otherwise(places, i, by);
        push_overridden(&mut found, places[i], by)?;
    }
    found.reverse();
    Ok(found)
}

/// Of some configuration files, each of which overrides those before it, the last lines that say something of symbol `s`, which is of
/// this unit, and ask for another value than that of a later file, each with that of the first such file. An `Err` means out of
/// memory.
pub fn overridden_lines(
    alloc: Global,
    files: &[FileLines],
    unit: u32,
    s: Sym,
) -> Result<Vec<Overridden<'_>>, AllocError>
    ensures { IfOk result (λ found. (tree : Tree) (meanings : List (List LineMeaning)) → unit ≡ unit_of tree s → AllZip (KeepsLines tree) meanings files.now → map overridden_view found.items ≡ overridden (places_of unit s 0 meanings)) }
{
    let places = places_kept(alloc, files, unit, s)?;
    overridden_among(alloc, &places)
}
