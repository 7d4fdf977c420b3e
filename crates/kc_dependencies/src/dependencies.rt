//! The dependencies of units.
ghost use Rattle.std.specs.Prelude.{◌≡◌, ◌<◌, ◌++◌, ◌||◌, ℕ, [], ◌∷◌, length, IfOk, IfSome, OnOk, slice_get, slice_index_or};
ghost use Rattle.std.specs.List.{list_any};
ghost use Rattle.kc_tree.specs.between.Views.{SymbolFits, ChoiceFits, symbol_view, choice_view};
ghost use Rattle.std.specs.Option.{option_map};
ghost use Rattle.kc_tree_model.specs.TreeLookup.{IsConsistent, unit_of};
ghost use Rattle.kc_rules_model.specs.Dependencies.{dependencies, needed_by, needed_by_symbol, needed_by_choice};
ghost use Rattle.kc_dependencies.specs.checker.StoredRules.{AreReverseDependencies};
ghost use Rattle.kc_dependencies.specs.checker.Links.{HasBegun, AreLinks, AreUnits, has, is_at, is_of, depends_on_reverse, by_modules};
ghost use Rattle.kc_dependencies.specs.checker.ModulesSymbol.{modules_symbol};

use super::modules::modules_of;
use super::names::{FoundNames, MentionsNames};
use kc_expr::NameId;
use kc_tree::{Choice, ReverseDependency, Sym, Symbol, Tree, Unit};
use kc_value::Kind;
use std::alloc::{AllocError, Global};

/// Appends the units of the symbols that select or imply.
fn push_reverse_dependencies(
    tree: &Tree,
    all: &[ReverseDependency],
    units: &mut Vec<u32>,
) -> Result<(), AllocError>
    requires fits { AreReverseDependencies tree.now.exprs tree.now.tree all.now }
    ensures units { (d : ℕ) → OnOk result (has units.new.items d ≡ (has units.old.items d || depends_on_reverse tree.now.tree d all.now)) }
    ensures below { AreUnits tree.now.tree units.old.items → OnOk result (AreUnits tree.now.tree units.new.items) }
{
    for force in all {
        units.push(tree.unit_of(force.by))?;
    }
    Ok(())
}

/// Appends the unit of a symbol, if there is one.
#[tactic(auto, using(crate::proofs::Pushes::nothing_more))]
fn push_unit(tree: &Tree, symbol: &Option<Sym>, units: &mut Vec<u32>) -> Result<(), AllocError>
    requires there { IfSome symbol.now (λ s. s < length tree.now.tree.symbols) }
    ensures units { (d : ℕ) → OnOk result (has units.new.items d ≡ (has units.old.items d || is_at d (option_map (unit_of tree.now.tree) symbol.now))) }
    ensures below { AreUnits tree.now.tree units.old.items → OnOk result (AreUnits tree.now.tree units.new.items) }
{
    match symbol {
        Some(s) => {
            units.push(tree.unit_of(*s))?;
            Ok(())
        }
        None => Ok(()),
    }
}

/// Appends the unit of a name, if it is defined.
fn push_named(tree: &Tree, name: NameId, units: &mut Vec<u32>) -> Result<(), AllocError>
    requires consistent { IsConsistent tree.now.tree }
    ensures units { (d : ℕ) → OnOk result (has units.new.items d ≡ (has units.old.items d || is_of tree.now.tree d (slice_index_or tree.now.exprs.names name []))) }
    ensures below { AreUnits tree.now.tree units.old.items → OnOk result (AreUnits tree.now.tree units.new.items) }
{
    let symbol = tree.symbol_at(name);
    push_unit(tree, &symbol, units)
}

/// Appends the units of the defined names.
fn push_units(tree: &Tree, names: &[NameId], units: &mut Vec<u32>) -> Result<(), AllocError>
    requires consistent { IsConsistent tree.now.tree }
    ensures units { (d : ℕ) → OnOk result (has units.new.items d ≡ (has units.old.items d || list_any (λ i. is_of tree.now.tree d (slice_index_or tree.now.exprs.names i [])) names.now)) }
    ensures below { AreUnits tree.now.tree units.old.items → OnOk result (AreUnits tree.now.tree units.new.items) }
{
    for name in names {
        push_named(tree, *name, units)?;
    }
    Ok(())
}

/// Appends the unit of `MODULES`, if it is defined and the symbol is a tristate.
#[tactic(auto, using(crate::proofs::Pushes::nothing_more))]
fn push_modules(
    tree: &Tree,
    modules: &Option<Sym>,
    kind: Kind,
    units: &mut Vec<u32>,
) -> Result<(), AllocError>
    requires there { IfSome modules.now (λ s. s < length tree.now.tree.symbols) }
    ensures units { (d : ℕ) → OnOk result (has units.new.items d ≡ (has units.old.items d || by_modules tree.now.tree d kind modules.now)) }
    ensures below { AreUnits tree.now.tree units.old.items → OnOk result (AreUnits tree.now.tree units.new.items) }
{
    match kind {
        Kind::Tristate => push_unit(tree, modules, units),
        Kind::Bool => Ok(()),
        Kind::Text => Ok(()),
        Kind::Int => Ok(()),
        Kind::Hex => Ok(()),
    }
}

/// What is gathered for the dependencies of a unit: the names that it mentions, and the units that it needs, in any order, some
/// perhaps more than once.
#[derive(Drop)]
struct Needs {
    found: FoundNames,
    units: Vec<u32>,
}

/// Gathers what a symbol outside choices needs.
fn push_symbol_needs(
    tree: &Tree,
    modules: &Option<Sym>,
    symbol: &Symbol<'_>,
    needs: &mut Needs,
) -> Result<(), AllocError>
    requires consistent { IsConsistent tree.now.tree }
    requires fits { SymbolFits tree.now.exprs (length tree.now.tree.symbols) symbol.now }
    requires modules { modules.now ≡ modules_symbol tree.now.tree }
    requires there { IfSome modules.now (λ s. s < length tree.now.tree.symbols) }
    requires begun { HasBegun tree.now.exprs needs.old }
    ensures units { (d : ℕ) → OnOk result (has needs.new.units.items d ≡ has (needed_by_symbol tree.now.tree (symbol_view tree.now.exprs symbol.now)) d) }
    ensures below { OnOk result (AreUnits tree.now.tree needs.new.units.items) }
    ensures room { OnOk result (length needs.new.found.visited ≡ length tree.now.exprs.nodes) }
{
    symbol.push_names(tree, &mut needs.found)?;
    push_reverse_dependencies(tree, symbol.selectors, &mut needs.units)?;
    push_reverse_dependencies(tree, symbol.impliers, &mut needs.units)?;
    push_modules(tree, modules, symbol.kind, &mut needs.units)?;
    push_units(tree, needs.found.names.as_slice(), &mut needs.units)
}

/// Gathers what a choice needs.
fn push_choice_needs(tree: &Tree, choice: &Choice<'_>, needs: &mut Needs) -> Result<(), AllocError>
    requires consistent { IsConsistent tree.now.tree }
    requires fits { ChoiceFits tree.now.exprs (length tree.now.tree.symbols) choice.now }
    requires begun { HasBegun tree.now.exprs needs.old }
    ensures units { (d : ℕ) → OnOk result (has needs.new.units.items d ≡ has (needed_by_choice tree.now.tree (choice_view tree.now.exprs choice.now)) d) }
    ensures below { OnOk result (AreUnits tree.now.tree needs.new.units.items) }
    ensures room { OnOk result (length needs.new.found.visited ≡ length tree.now.exprs.nodes) }
{
    choice.push_names(tree, &mut needs.found)?;
    push_units(tree, needs.found.names.as_slice(), &mut needs.units)
}

/// Gathers what a unit needs.
fn push_needed(
    tree: &Tree,
    modules: &Option<Sym>,
    u: u32,
    needs: &mut Needs,
) -> Result<(), AllocError>
    requires consistent { IsConsistent tree.now.tree }
    requires unit { u < length tree.now.tree.units }
    requires modules { modules.now ≡ modules_symbol tree.now.tree }
    requires there { IfSome modules.now (λ s. s < length tree.now.tree.symbols) }
    requires begun { HasBegun tree.now.exprs needs.old }
    ensures units { (d : ℕ) → OnOk result (has needs.new.units.items d ≡ has (needed_by tree.now.tree (slice_get tree.now.tree.units u)) d) }
    ensures below { OnOk result (AreUnits tree.now.tree needs.new.units.items) }
    ensures room { OnOk result (length needs.new.found.visited ≡ length tree.now.exprs.nodes) }
{
    match tree.unit(u) {
        Unit::Symbol(s) => push_symbol_needs(tree, modules, &tree.symbol(s), needs),
        Unit::Choice(c) => push_choice_needs(tree, &tree.choice(c), needs),
    }
}

/// Gathers the dependencies of a unit, ascending, each once.
fn needed(tree: &Tree, modules: &Option<Sym>, u: u32, needs: &mut Needs) -> Result<(), AllocError>
    requires consistent { IsConsistent tree.now.tree }
    requires unit { u < length tree.now.tree.units }
    requires modules { modules.now ≡ modules_symbol tree.now.tree }
    requires there { IfSome modules.now (λ s. s < length tree.now.tree.symbols) }
    requires room { length needs.old.found.visited ≡ length tree.now.exprs.nodes }
    ensures needed { OnOk result (needs.new.units.items ≡ dependencies tree.now.tree u) }
    ensures room { OnOk result (length needs.new.found.visited ≡ length tree.now.exprs.nodes) }
{
    needs.found.names.clear();
    needs.found.visited.begin();
    needs.units.clear();
    push_needed(tree, modules, u, needs)?;
    needs.units.sort_unstable();
    needs.units.dedup();
    Ok(())
}

/// The dependencies of all units of a tree: `links` has those of one unit after those of another, and `starts` the index at which
/// those of each unit begin, and then the length of `links`.
#[derive(Drop)]
pub struct Links {
    pub starts: Vec<u32>,
    pub links: Vec<u32>,
}

/// A place as 32 bits; more links than that don't fit in memory.
fn place(len: usize) -> Result<u32, AllocError>
    ensures { IfOk result (λ place. place ≡ len) }
{
    if len > u32::MAX as usize {
        return Err(AllocError);
    }
    Ok(len as u32)
}

/// Puts the dependencies of a unit after those of the units before it.
fn link(links: &mut Links, units: &[u32]) -> Result<(), AllocError>
    ensures links { OnOk result (links.new.links.items ≡ links.old.links.items ++ units.now) }
    ensures starts { OnOk result (links.new.starts.items ≡ links.old.starts.items ++ (length (links.old.links.items ++ units.now) ∷ [])) }
{
    links.links.extend_from_slice(units)?;
    let end = place(links.links.len())?;
    links.starts.push(end)?;
    Ok(())
}

/// The dependencies of all units of a tree, those of each unit ascending and each once. An `Err` means out of memory.
pub fn links_of(alloc: Global, tree: &Tree) -> Result<Links, AllocError>
    ensures { IfOk result (λ l. AreLinks tree.now.tree l.starts.items l.links.items) }
{
    let modules = modules_of(tree);
    let mut made = Links {
        starts: Vec::with_capacity(alloc, tree.len() as usize + 1)?,
        links: Vec::new(alloc),
    };
    made.starts.push(0)?;
    let mut needs = Needs {
        found: FoundNames {
            visited: tree.arena().walk()?,
            names: Vec::new(alloc),
        },
        units: Vec::new(alloc),
    };
    for u in 0..tree.len() {
        needed(tree, &modules, u, &mut needs)?;
        link(&mut made, needs.units.as_slice())?;
    }
    Ok(made)
}
