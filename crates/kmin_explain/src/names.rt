//! The symbols that the names of `explain` mean.
ghost use Rattle.std.specs.Prelude.{◌≡◌, ◌<◌, ℕ, List, length, map, All, IfOk, IfSome, IfNone, Some, None, OnOk, option_map};
ghost use Rattle.std.specs.Borrow.{Bor};
ghost use Rattle.std.specs.Option.{option_and_then};
ghost use Rattle.kc_tree_model.specs.TreeLookup.{symbol_named};
ghost use Rattle.kc_dotconfig_model.specs.between.Prefixes.{prefix_bytes};
ghost use Rattle.kc_dotconfig_model.specs.between.LineMeanings.{after_front};
ghost use Rattle.kmin_explain.specs.Names.{names_in, symbol_meant, unknown_in, symbols_named};
ghost use Rattle.kmin_explain.specs.checker.Marks.{AreMarked, with_meant};

use super::each_once::SymbolsOnce;
use kc_dotconfig::Prefix;
use kc_tree::{Sym, Tree};
use std::alloc::{AllocError, Global};

/// The name after the prefix; `None` if it doesn't begin with it.
pub(crate) fn after_prefix<'a>(prefix: &Prefix, name: &'a str) -> Option<&'a str>
    ensures some { IfSome result (λ rest. after_front (prefix_bytes prefix.now) name.now ≡ Some rest.now) }
    ensures none { IfNone result (after_front (prefix_bytes prefix.now) name.now ≡ None) }
{
    let front = prefix.as_bytes();
    if !name.as_bytes().starts_with(front) {
        return None;
    }
    Some(&name[front.len()..])
}

/// The symbol that a name means: the one with this name, else with the name without the prefix.
fn symbol_meant(tree: &Tree, prefix: &Prefix, name: &str) -> Option<Sym>
    ensures symbol { result ≡ symbol_meant tree.now.tree (prefix_bytes prefix.now) name.now }
    ensures there { IfSome result (λ s. s < length tree.now.tree.symbols) }
{
    match tree.find(name) {
        Some(s) => Some(s),
        None => symbol_prefixed(tree, prefix, name),
    }
}

/// The symbol with a name without the prefix, if it has it.
fn symbol_prefixed(tree: &Tree, prefix: &Prefix, name: &str) -> Option<Sym>
    ensures symbol { result ≡ option_and_then (symbol_named tree.now.tree) (after_front (prefix_bytes prefix.now) name.now) }
    ensures there { IfSome result (λ s. s < length tree.now.tree.symbols) }
{
    match after_prefix(prefix, name) {
        Some(rest) => tree.find(rest),
        None => None,
    }
}

/// The names of a list with a comma between each two.
fn names_in(alloc: Global, list: &str) -> Result<Vec<&str>, AllocError>
    ensures { IfOk result (λ names. map (λ (name : Bor (List ℕ)). name.now) names.items ≡ names_in list.now) }
{
    list.split(',').collect(alloc)
}

/// The first name of a list, with commas between names, that means no symbol; `None` if each means one. A name means the symbol with
/// this name, else with the name without the prefix. An `Err` means out of memory.
pub fn unknown_name<'a>(
    alloc: Global,
    tree: &Tree,
    prefix: &Prefix,
    list: &'a str,
) -> Result<Option<&'a str>, AllocError>
    ensures { IfOk result (λ found. option_map (λ (name : Bor (List ℕ)). name.now) found ≡ unknown_in tree.now.tree (prefix_bytes prefix.now) (names_in list.now)) }
{
    let names = names_in(alloc, list)?;
    Ok(unknown_among(tree, prefix, &names))
}

/// The first of some names that means no symbol.
fn unknown_among<'a>(tree: &Tree, prefix: &Prefix, names: &[&'a str]) -> Option<&'a str>
    ensures { option_map (λ (name : Bor (List ℕ)). name.now) result ≡ unknown_in tree.now.tree (prefix_bytes prefix.now) (map (λ (name : Bor (List ℕ)). name.now) names.now) }
{
    for name in names {
        if symbol_meant(tree, prefix, name).is_none() {
            return Some(*name);
        }
    }
    None
}

/// The symbols that the names of a list, with commas between them, mean, each once, in order of first sight. A name that means none
/// is passed over. An `Err` means out of memory.
pub fn named_symbols(
    alloc: Global,
    tree: &Tree,
    prefix: &Prefix,
    list: &str,
) -> Result<Vec<Sym>, AllocError>
    ensures symbols { IfOk result (λ found. found.items ≡ symbols_named tree.now.tree (prefix_bytes prefix.now) (names_in list.now)) }
    ensures there { IfOk result (λ found. All (λ s. s < length tree.now.tree.symbols) found.items) }
{
    let names = names_in(alloc, list)?;
    let mut found = SymbolsOnce::new(alloc, tree.symbol_count())?;
    for name in &names {
        add_named(tree, prefix, name, &mut found)?;
    }
    let SymbolsOnce { found, .. } = found;
    Ok(found)
}

/// Adds the symbol that a name means, if it means one and that isn't there yet.
fn add_named(
    tree: &Tree,
    prefix: &Prefix,
    name: &str,
    found: &mut SymbolsOnce,
) -> Result<(), AllocError>
    requires marks { AreMarked found.old }
    requires many { length found.old.is_found.items ≡ length tree.now.tree.symbols }
    ensures found { OnOk result (found.new.found.items ≡ with_meant found.old.found.items (symbol_meant tree.now.tree (prefix_bytes prefix.now) name.now)) }
    ensures marks { OnOk result (AreMarked found.new) }
    ensures many { OnOk result (length found.new.is_found.items ≡ length tree.now.tree.symbols) }
{
    match symbol_meant(tree, prefix, name) {
        Some(s) => found.add(s),
        None => Ok(()),
    }
}
