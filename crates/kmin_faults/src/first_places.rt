//! The first definitions of the symbols of a tree.
ghost use Rattle.std.specs.Prelude.{◌≡◌, ◌<◌, ◌&&◌, ◌==◌, IfOk, length, nat_le, option_map, reverse};
ghost use Rattle.std.specs.List.{list_any};
ghost use Rattle.kc_checks.specs.between.Summaries.{group_at};
ghost use Rattle.kc_tree_model.specs.TreeReading.{reading};
ghost use Rattle.kmin_faults.specs.FirstPlaces.{first_type, other_definition};
ghost use Rattle.kmin_faults.specs.between.StoredDefinitions.{begins_before, defined_by, definition_at, defines, first_of, first_type_in, first_typed, gives_type, has_type, is_same_place, is_typed, other_definition_in, other_place, place_of, position_of, unless_same};

use crate::listings::listing_of;
use kc_checks::end_of;
use kc_parser::{Group, GroupHead, Line, Listing};
use kc_statements::ReadAttribute;
use kc_tree::Texts;
use std::alloc::{AllocError, Global};

/// A place in the texts of a tree: the number of its file, and the line.
#[derive(Clone, Copy)]
pub struct TextPlace {
    pub file: u32,
    pub line: u32,
}

/// The place of the first definition with a type of the symbol whose definition has this line, among the texts that are read from the
/// path `first` on; `None` if there is none. An `Err` means out of memory.
pub fn first_type(
    alloc: Global,
    texts: &Texts,
    first: &str,
    at: TextPlace,
) -> Result<Option<TextPlace>, AllocError>
    ensures { IfOk result (λ place. option_map position_of place ≡ first_type (reading texts.now first.now).read (position_of at)) }
{
    let listing = listing_of(alloc, texts, first)?;
    Ok(first_type_in(&listing, at))
}

/// The place of the first definition of the symbol whose definition begins at a line, if that is another; else of the first other one
/// that has a type; `None` if there is neither. An `Err` means out of memory.
pub fn other_definition(
    alloc: Global,
    texts: &Texts,
    first: &str,
    at: TextPlace,
) -> Result<Option<TextPlace>, AllocError>
    ensures { IfOk result (λ place. option_map position_of place ≡ other_definition (reading texts.now first.now).read (position_of at)) }
{
    let listing = listing_of(alloc, texts, first)?;
    Ok(other_definition_in(&listing, at))
}

/// The place of the first definition with a type of the symbol whose definition has this place.
fn first_type_in(listing: &Listing, at: TextPlace) -> Option<TextPlace>
    ensures { result ≡ first_type_in listing.now at }
{
    match definition_at(&listing.groups, at) {
        Some(symbol) => first_typed(listing, symbol),
        None => None,
    }
}

/// The place of another definition of the symbol whose definition has this place.
fn other_definition_in(listing: &Listing, at: TextPlace) -> Option<TextPlace>
    ensures { result ≡ other_definition_in listing.now at }
{
    match definition_at(&listing.groups, at) {
        Some(symbol) => other_place(listing, at, symbol),
        None => None,
    }
}

/// The place of a symbol's first definition, if it is another than this; else of its first one with a type, if that is another.
fn other_place(listing: &Listing, at: TextPlace, symbol: u32) -> Option<TextPlace>
    ensures { result ≡ other_place listing.now at symbol }
{
    match unless_same(first_of(&listing.groups, symbol), at) {
        Some(place) => Some(place),
        None => unless_same(first_typed(listing, symbol), at),
    }
}

/// Whether two places are the same.
fn is_same_place(one: TextPlace, other: TextPlace) -> bool
    ensures { result ≡ is_same_place one other }
{
    one.file == other.file && one.line == other.line
}

/// A place, unless it is this one.
fn unless_same(place: Option<TextPlace>, at: TextPlace) -> Option<TextPlace>
    ensures { result ≡ unless_same place at }
{
    match place {
        Some(place) if !is_same_place(place, at) => Some(place),
        _ => None,
    }
}

/// The number of the symbol that a statement defines, if it defines one.
fn defined_by(head: GroupHead) -> Option<u32>
    ensures { result ≡ defined_by head }
{
    match head {
        GroupHead::Config(symbol) => Some(symbol),
        _ => None,
    }
}

/// Whether a statement defines a symbol, and begins in the file of a place, at its line or before.
fn begins_before(at: TextPlace, group: &Group) -> bool
    ensures { result ≡ begins_before at group.now }
{
    match defined_by(group.head) {
        Some(_) => group.file == at.file && group.line <= at.line,
        None => false,
    }
}

/// The number of the symbol whose definition has a place: that of the last line before it, or at it, where a definition begins.
fn definition_at(groups: &[Group], at: TextPlace) -> Option<u32>
    ensures { result ≡ definition_at at (reverse groups.now) }
{
    let mut found = None;
    let mut nearest = 0;
    for group in groups {
        if is_nearer(at, group, nearest) {
            found = defined_by(group.head);
            nearest = group.line;
        }
    }
    found
}

/// Whether a definition begins before a place or at it, at this line or after it.
fn is_nearer(at: TextPlace, group: &Group, nearest: u32) -> bool
    ensures { result ≡ (begins_before at group.now && nat_le nearest group.now.line) }
{
    begins_before(at, group) && nearest <= group.line
}

/// The place of the first definition of a symbol.
fn first_of(groups: &[Group], symbol: u32) -> Option<TextPlace>
    ensures { result ≡ first_of groups.now symbol }
{
    for group in groups {
        if defines(symbol, group) {
            return Some(place_of(group));
        }
    }
    None
}

/// The place of the first definition of a symbol that has a type.
fn first_typed(listing: &Listing, symbol: u32) -> Option<TextPlace>
    ensures { result ≡ first_typed listing.now symbol }
{
    for number in 0..listing.groups.len() {
        if is_typed_definition(listing, symbol, number) {
            return Some(place_of(&listing.groups[number]));
        }
    }
    None
}

/// Whether a statement, by its number, defines a symbol and has a type.
fn is_typed_definition(listing: &Listing, symbol: u32, number: usize) -> bool
    requires there { number < length listing.now.groups.items }
    ensures value { result ≡ (defines symbol (group_at listing.now.groups.items number) && is_typed listing.now number) }
{
    defines(symbol, &listing.groups[number]) && is_typed(listing, number)
}

/// Whether a statement defines a symbol.
fn defines(symbol: u32, group: &Group) -> bool
    ensures { result ≡ defines symbol group.now }
{
    match defined_by(group.head) {
        Some(number) => number == symbol,
        None => false,
    }
}

/// The place of a statement.
fn place_of(group: &Group) -> TextPlace
    ensures { result ≡ place_of group.now }
{
    TextPlace {
        file: group.file,
        line: group.line,
    }
}

/// Whether a statement, by its number, has a type.
fn is_typed(listing: &Listing, number: usize) -> bool
    requires there { number < length listing.now.groups.items }
    ensures value { result ≡ is_typed listing.now number }
{
    let begin = listing.groups[number].attributes;
    let end = end_of(&listing.groups, &listing.lines, number);
    has_type(&listing.lines, begin, end)
}

/// Whether one of the attributes from one place up to another gives a type; false where the list doesn't have them.
fn has_type(lines: &[Line], begin: usize, end: usize) -> bool
    ensures { result ≡ has_type lines.now begin end }
{
    if begin > end || end > lines.len() {
        return false;
    }
    has_typed_line(&lines[begin..end])
}

/// Whether one of some attributes gives a type.
fn has_typed_line(lines: &[Line]) -> bool
    ensures { result ≡ list_any (λ (line : Line). gives_type line.attribute) lines.now }
{
    lines.iter().any(|line| gives_type(&line.attribute))
}

/// Whether an attribute gives a type.
fn gives_type(attribute: &ReadAttribute) -> bool
    ensures { result ≡ gives_type attribute.now }
{
    attribute.type_given().is_some()
}
