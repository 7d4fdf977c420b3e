//! The parts of symbols and choices that can name symbols of a unit.
ghost use Rattle.std.specs.Prelude.{◌≡◌, ◌<◌, ℕ, Bool, All, IfOk, [], length, slice_get, slice_index_or};
ghost use Rattle.std.specs.List.{list_any};
ghost use Rattle.kc_expr.specs.between.Arena.{node_expr};
ghost use Rattle.kc_tree.specs.TreeModel.{TreeModel};
ghost use Rattle.kc_tree.specs.between.Views.{DefaultFits, HasOperands, MemberDefaultFits, RangeFits, ReverseDependencyFits, default_view, range_view, reverse_dependency_view};
ghost use Rattle.kc_tree_model.specs.TreeLookup.{IsConsistent};
ghost use Rattle.kmin_faults.specs.Causes.{default_names_unit, is_of_unit, names_unit, prompts_name_unit, range_names_unit, reverse_names_unit};

use kc_expr::{ExprId, NameId};
use kc_tree::{Default, MemberDefault, Range, ReverseDependency, Sym, Tree};
use std::alloc::{AllocError, Global};

/// A search of a tree for what names the symbols of one unit.
#[derive(Clone, Copy)]
pub(crate) struct Search<'a> {
    pub(crate) alloc: Global,
    pub(crate) tree: &'a Tree,
    pub(crate) unit: u32,
}

/// A part of a symbol or a choice that can name symbols.
pub(crate) trait NamesUnit {
    /// Whether its expressions and symbols are those of a tree.
    ghost fits: { TreeModel → Self → Type 0 };

    /// Whether it names a symbol of a unit.
    ghost does: { TreeModel → (unit : ℕ) → Self → Bool };

    /// Whether it names a symbol of this unit. An `Err` means out of memory.
    fn names_unit(&self, search: &Search<'_>) -> Result<bool, AllocError>
        requires fits { fits search.now.tree.now self.now }
        ensures value { IfOk result (λ is. is ≡ does search.now.tree.now search.now.unit self.now) };
}

/// Whether one of some parts names a symbol of this unit.
pub(crate) fn is_in_some<P: NamesUnit>(search: &Search<'_>, parts: &[P]) -> Result<bool, AllocError>
    requires fit { All (P.fits search.now.tree.now) parts.now }
    ensures value { IfOk result (λ is. is ≡ list_any (P.does search.now.tree.now search.now.unit) parts.now) }
{
    for part in parts {
        if part.names_unit(search)? {
            return Ok(true);
        }
    }
    Ok(false)
}

impl NamesUnit for ExprId {
    ghost fits = { λ tree id. id < length tree.exprs.nodes };

    ghost does = { λ tree unit id. names_unit tree.tree unit (node_expr tree.exprs id) };

    fn names_unit(&self, search: &Search<'_>) -> Result<bool, AllocError> {
        let mut names = Vec::new(search.alloc);
        search.tree.arena().push_names(*self, &mut names)?;
        Ok(has_one_of_unit(search, &names))
    }
}

/// A default names symbols in its value and in its condition.
impl NamesUnit for Default {
    ghost fits = { λ tree default. DefaultFits (length tree.exprs.nodes) default };

    ghost does = { λ tree unit default. default_names_unit tree.tree unit (default_view tree.exprs default) };

    fn names_unit(&self, search: &Search<'_>) -> Result<bool, AllocError> {
        if self.value.names_unit(search)? {
            return Ok(true);
        }
        self.condition.names_unit(search)
    }
}

/// A range names symbols in its bounds and in its condition.
impl NamesUnit for Range {
    ghost fits = { λ tree range. RangeFits (length tree.exprs.nodes) range × HasOperands tree.exprs range };

    ghost does = { λ tree unit range. range_names_unit tree.tree unit (range_view tree.exprs range) };

    fn names_unit(&self, search: &Search<'_>) -> Result<bool, AllocError> {
        if self.low.names_unit(search)? {
            return Ok(true);
        }
        if self.high.names_unit(search)? {
            return Ok(true);
        }
        self.condition.names_unit(search)
    }
}

/// A select or an imply names the symbol that has it, and those in its condition.
impl NamesUnit for ReverseDependency {
    ghost fits = { λ tree one. ReverseDependencyFits (length tree.exprs.nodes) (length tree.tree.symbols) one };

    ghost does = { λ tree unit one. reverse_names_unit tree.tree unit (reverse_dependency_view tree.exprs one) };

    fn names_unit(&self, search: &Search<'_>) -> Result<bool, AllocError> {
        if search.tree.unit_of(self.by) == search.unit {
            return Ok(true);
        }
        self.condition.names_unit(search)
    }
}

/// Of a choice's default the condition counts, and not the member.
impl NamesUnit for MemberDefault {
    ghost fits = { λ tree default. MemberDefaultFits (length tree.exprs.nodes) (length tree.tree.symbols) default };

    ghost does = { λ tree unit default. names_unit tree.tree unit (node_expr tree.exprs default.condition) };

    fn names_unit(&self, search: &Search<'_>) -> Result<bool, AllocError> {
        self.condition.names_unit(search)
    }
}

/// Of a choice's member the conditions of its prompts count.
impl NamesUnit for Sym {
    ghost fits = { λ tree symbol. symbol < length tree.tree.symbols };

    ghost does = { λ tree unit symbol. prompts_name_unit tree.tree unit (slice_get tree.tree.symbols symbol) };

    fn names_unit(&self, search: &Search<'_>) -> Result<bool, AllocError> {
        is_in_some(search, search.tree.symbol(*self).prompts)
    }
}

/// Whether one of some names is that of a symbol of this unit.
fn has_one_of_unit(search: &Search<'_>, names: &[NameId]) -> bool
    requires consistent { IsConsistent search.now.tree.now.tree }
    ensures value { result ≡ list_any (λ name. is_of_unit search.now.tree.now.tree search.now.unit (slice_index_or search.now.tree.now.exprs.names name [])) names.now }
{
    for name in names {
        if is_of_unit(search, *name) {
            return true;
        }
    }
    false
}

/// Whether a name is that of a symbol of this unit.
fn is_of_unit(search: &Search<'_>, name: NameId) -> bool
    requires consistent { IsConsistent search.now.tree.now.tree }
    ensures value { result ≡ is_of_unit search.now.tree.now.tree search.now.unit (slice_index_or search.now.tree.now.exprs.names name []) }
{
    match search.tree.symbol_at(name) {
        Some(symbol) => search.tree.unit_of(symbol) == search.unit,
        None => false,
    }
}
