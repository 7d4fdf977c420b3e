//! What makes a symbol or a choice depend on another.
ghost use Rattle.std.specs.Prelude.{◌≡◌, ◌<◌, ◌==◌, ◌&&◌, ℕ, Bool, IfOk, IfSome, find, length, not, option_map};
ghost use Rattle.kc_expr.specs.between.Arena.{node_expr};
ghost use Rattle.kc_expr.specs.Expr.{modules};
ghost use Rattle.kc_value.specs.Kinds.{is_tristate};
ghost use Rattle.kc_tokens.specs.Languages.{is_linux_6_12};
ghost use Rattle.kc_tree.specs.TreeModel.{TreeModel};
ghost use Rattle.kc_tree.specs.between.Views.{ChoiceFits, SymbolFits, choice_view, symbol_view};
ghost use Rattle.kmin_faults.specs.Causes.{all_causes, cause_of, choice_depends, is_of_unit, prompt_names_unit, symbol_depends};

use crate::naming_parts::{NamesUnit, Search, is_in_some};
use kc_expr::ExprId;
use kc_tree::{Choice, Symbol, Tree, Unit};
use kc_value::Kind;
use std::alloc::{AllocError, Global};

/// What makes one symbol or choice depend on another.
#[derive(Clone, Copy, Debug, PartialEq, Eq)]
pub enum Cause {
    DependsOn,
    Prompt,
    Default,
    Range,
    Select,
    Imply,
    /// A prompt of a choice's member.
    Member,
    /// A tristate depends on `MODULES`.
    Tristate,
}

/// What can make a unit depend on another, in the order in which it is looked for. A symbol's direct dependencies come first, since its
/// other conditions have them too.
const CAUSES: [Cause; 8] = [
    Cause::DependsOn,
    Cause::Prompt,
    Cause::Default,
    Cause::Range,
    Cause::Select,
    Cause::Imply,
    Cause::Member,
    Cause::Tristate,
];

/// The first cause that makes a unit of a tree, by its number, depend on another; `None` if none does. An `Err` means out of memory.
pub fn cause_of(
    alloc: Global,
    tree: &Tree,
    unit: u32,
    other: u32,
) -> Result<Option<Cause>, AllocError>
    ensures { IfOk result (λ cause. cause ≡ cause_of tree.now.tree unit other) }
{
    if unit >= tree.len() {
        return Ok(None);
    }
    let search = Search {
        alloc,
        tree,
        unit: other,
    };
    match tree.unit(unit) {
        Unit::Symbol(symbol) => first_cause(&search, &tree.symbol(symbol), &CAUSES),
        Unit::Choice(choice) => first_cause(&search, &tree.choice(choice), &CAUSES),
    }
}

/// A unit that causes can make depend on another.
trait Dependent {
    ghost use Rattle.kmin_faults.specs.declared.causes.Cause.{Cause};

    /// Whether its expressions and symbols are those of a tree.
    ghost fits: { TreeModel → Self → Type 0 };

    /// Whether a cause makes it depend on a unit.
    ghost depends: { Cause → TreeModel → Self → (unit : ℕ) → Bool };

    /// Whether a cause makes it depend on this unit. An `Err` means out of memory.
    fn depends_on(&self, search: &Search<'_>, cause: Cause) -> Result<bool, AllocError>
        requires fits { fits search.now.tree.now self.now }
        ensures value { IfOk result (λ does. does ≡ depends cause search.now.tree.now self.now search.now.unit) };
}

/// The first of some causes that makes a symbol or a choice depend on a unit.
fn first_cause<D: Dependent>(
    search: &Search<'_>,
    dependent: &D,
    causes: &[Cause],
) -> Result<Option<Cause>, AllocError>
    requires fits { D.fits search.now.tree.now dependent.now }
    ensures value { IfOk result (λ cause. cause ≡ find (λ one. D.depends one search.now.tree.now dependent.now search.now.unit) causes.now) }
{
    for cause in causes {
        if dependent.depends_on(search, *cause)? {
            return Ok(Some(*cause));
        }
    }
    Ok(None)
}

impl Dependent for Symbol<'_> {
    ghost fits = { λ tree symbol. SymbolFits tree.exprs (length tree.tree.symbols) symbol };

    ghost depends = { λ cause tree symbol unit. symbol_depends cause tree.tree (symbol_view tree.exprs symbol) unit };

    fn depends_on(&self, search: &Search<'_>, cause: Cause) -> Result<bool, AllocError> {
        match cause {
            Cause::DependsOn => is_in_some(search, self.direct),
            Cause::Prompt => is_in_some(search, self.prompts),
            Cause::Default => is_in_some(search, self.defaults),
            Cause::Range => is_in_some(search, self.ranges),
            Cause::Select => is_in_some(search, self.selectors),
            Cause::Imply => is_in_some(search, self.impliers),
            Cause::Member => Ok(false),
            Cause::Tristate => Ok(is_tristate_by(search, self.kind)),
        }
    }
}

impl Dependent for Choice<'_> {
    ghost fits = { λ tree choice. ChoiceFits tree.exprs (length tree.tree.symbols) choice };

    ghost depends = { λ cause tree choice unit. choice_depends cause tree.tree (choice_view tree.exprs choice) unit };

    fn depends_on(&self, search: &Search<'_>, cause: Cause) -> Result<bool, AllocError> {
        match cause {
            Cause::Prompt => is_in_prompt(search, self.prompt),
            Cause::Default => is_in_some(search, self.defaults),
            Cause::Member => is_in_some(search, self.members),
            _ => Ok(false),
        }
    }
}

/// Whether a symbol of this type is a tristate, and the symbol `MODULES` is of this unit.
fn is_tristate_by(search: &Search<'_>, kind: Kind) -> bool
    ensures { result ≡ (is_tristate kind && is_of_unit search.now.tree.now.tree search.now.unit modules) }
{
    match kind {
        Kind::Tristate => has_modules(search),
        _ => false,
    }
}

/// Whether the symbol `MODULES` is of this unit.
fn has_modules(search: &Search<'_>) -> bool
    ensures { result ≡ is_of_unit search.now.tree.now.tree search.now.unit modules }
{
    match search.tree.find("MODULES") {
        Some(symbol) => search.tree.unit_of(symbol) == search.unit,
        None => false,
    }
}

/// Whether the condition of a choice's prompt names a symbol of this unit; under the rules of Linux 6.12 it counts for nothing.
fn is_in_prompt(search: &Search<'_>, prompt: Option<ExprId>) -> Result<bool, AllocError>
    requires there { IfSome prompt (λ id. id < length search.now.tree.now.exprs.nodes) }
    ensures value { IfOk result (λ is. is ≡ (not (is_linux_6_12 search.now.tree.now.tree.language) && prompt_names_unit search.now.tree.now.tree search.now.unit (option_map (node_expr search.now.tree.now.exprs) prompt))) }
{
    if search.tree.language().is_linux_6_12() {
        return Ok(false);
    }
    match prompt {
        Some(id) => id.names_unit(search),
        None => Ok(false),
    }
}
