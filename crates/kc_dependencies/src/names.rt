//! The names that units mention. A condition that several attributes of a unit share is walked once.
ghost use Rattle.std.specs.Prelude.{◌≡◌, ◌<◌, ◌||◌, ℕ, Bool, List, All, length, OnOk, Some};
ghost use Rattle.std.specs.List.{list_any};
ghost use Rattle.kc_expr.specs.between.Arena.{node_expr};
ghost use Rattle.kc_expr.specs.between.Visits.{passes_some_name, mentions, HasFound};
ghost use Rattle.kc_tree.specs.TreeModel.{TreeModel};
ghost use Rattle.kc_tree.specs.between.Views.{DefaultFits, RangeFits, ReverseDependencyFits, MemberDefaultFits, SymbolFits, ChoiceFits};
ghost use Rattle.kc_dependencies.specs.checker.Links.{in_default, in_range, in_reverse_dependency, in_member, in_member_default, in_symbol, in_prompt, counted_prompt, in_choice};

use kc_expr::{ExprId, NameId, VisitedSet};
use kc_tree::{Choice, Default, MemberDefault, Range, ReverseDependency, Sym, Symbol, Tree};
use std::alloc::AllocError;

/// The names that were found in the parts of a unit, and the expressions that were visited for them.
#[derive(Drop)]
pub(crate) struct FoundNames {
    pub visited: VisitedSet,
    pub names: Vec<NameId>,
}

/// A part of a unit that mentions names.
pub(crate) trait MentionsNames {
    /// Whether its expressions and symbols are those of a tree.
    ghost fits: { TreeModel → Self → Type 0 };

    /// Whether a name in it passes a test of names.
    ghost passes: { TreeModel → (List ℕ → Bool) → Self → Bool };

    /// Appends the names in it, but for those in expressions that were visited before. An `Err` means out of memory.
    fn push_names(&self, tree: &Tree, found: &mut FoundNames) -> Result<(), AllocError>
        requires fits { fits tree.now self.now }
        requires found { HasFound tree.now.exprs found.old.visited found.old.names.items }
        ensures names { (p : List ℕ → Bool) → OnOk result (passes_some_name tree.now.exprs p found.new.names.items ≡ (passes_some_name tree.now.exprs p found.old.names.items || passes tree.now p self.now)) }
        ensures found { OnOk result (HasFound tree.now.exprs found.new.visited found.new.names.items) };
}

/// Appends the names in some parts.
fn push_all<P: MentionsNames>(
    tree: &Tree,
    parts: &[P],
    found: &mut FoundNames,
) -> Result<(), AllocError>
    requires fits { All (P.fits tree.now) parts.now }
    requires found { HasFound tree.now.exprs found.old.visited found.old.names.items }
    ensures names { (p : List ℕ → Bool) → OnOk result (passes_some_name tree.now.exprs p found.new.names.items ≡ (passes_some_name tree.now.exprs p found.old.names.items || list_any (P.passes tree.now p) parts.now)) }
    ensures found { OnOk result (HasFound tree.now.exprs found.new.visited found.new.names.items) }
{
    for part in parts {
        part.push_names(tree, found)?;
    }
    Ok(())
}

impl MentionsNames for ExprId {
    ghost fits = { λ tree id. id < length tree.exprs.nodes };

    ghost passes = { λ tree p id. mentions p (node_expr tree.exprs id) };

    fn push_names(&self, tree: &Tree, found: &mut FoundNames) -> Result<(), AllocError> {
        tree.arena()
            .push_new_names(*self, &mut found.visited, &mut found.names)
    }
}

impl MentionsNames for Default {
    ghost fits = { λ tree d. DefaultFits (length tree.exprs.nodes) d };

    ghost passes = { λ tree p d. in_default tree.exprs p d };

    fn push_names(&self, tree: &Tree, found: &mut FoundNames) -> Result<(), AllocError> {
        self.value.push_names(tree, found)?;
        self.condition.push_names(tree, found)
    }
}

impl MentionsNames for Range {
    ghost fits = { λ tree r. RangeFits (length tree.exprs.nodes) r };

    ghost passes = { λ tree p r. in_range tree.exprs p r };

    fn push_names(&self, tree: &Tree, found: &mut FoundNames) -> Result<(), AllocError> {
        self.low.push_names(tree, found)?;
        self.high.push_names(tree, found)?;
        self.condition.push_names(tree, found)
    }
}

/// Of a select or imply only the condition counts.
impl MentionsNames for ReverseDependency {
    ghost fits = { λ tree f. ReverseDependencyFits (length tree.exprs.nodes) (length tree.tree.symbols) f };

    ghost passes = { λ tree p f. in_reverse_dependency tree.exprs p f };

    fn push_names(&self, tree: &Tree, found: &mut FoundNames) -> Result<(), AllocError> {
        self.condition.push_names(tree, found)
    }
}

/// Of a member of a choice only the conditions of its prompts count.
impl MentionsNames for Sym {
    ghost fits = { λ tree s. s < length tree.tree.symbols };

    ghost passes = { λ tree p s. in_member tree.tree p s };

    fn push_names(&self, tree: &Tree, found: &mut FoundNames) -> Result<(), AllocError> {
        push_all(tree, tree.symbol(*self).prompts, found)
    }
}

impl MentionsNames for MemberDefault {
    ghost fits = { λ tree d. MemberDefaultFits (length tree.exprs.nodes) (length tree.tree.symbols) d };

    ghost passes = { λ tree p d. in_member_default tree.tree tree.exprs p d };

    fn push_names(&self, tree: &Tree, found: &mut FoundNames) -> Result<(), AllocError> {
        self.condition.push_names(tree, found)?;
        self.member.push_names(tree, found)
    }
}

/// The names in the attributes of a symbol outside choices and in the conditions by which others select or imply it.
impl MentionsNames for Symbol<'_> {
    ghost fits = { λ tree symbol. SymbolFits tree.exprs (length tree.tree.symbols) symbol };

    ghost passes = { λ tree p symbol. in_symbol tree.exprs p symbol };

    fn push_names(&self, tree: &Tree, found: &mut FoundNames) -> Result<(), AllocError> {
        push_all(tree, self.prompts, found)?;
        push_all(tree, self.defaults, found)?;
        push_all(tree, self.ranges, found)?;
        push_all(tree, self.direct, found)?;
        push_all(tree, self.selectors, found)?;
        push_all(tree, self.impliers, found)
    }
}

/// Appends the names in the condition of a choice's prompt, if there is one.
#[tactic(auto, using(crate::proofs::Pushes::nothing_more))]
fn push_prompt(
    tree: &Tree,
    prompt: Option<ExprId>,
    found: &mut FoundNames,
) -> Result<(), AllocError>
    requires fits { (i : ℕ) → prompt ≡ Some i → i < length tree.now.exprs.nodes }
    requires found { HasFound tree.now.exprs found.old.visited found.old.names.items }
    ensures names { (p : List ℕ → Bool) → OnOk result (passes_some_name tree.now.exprs p found.new.names.items ≡ (passes_some_name tree.now.exprs p found.old.names.items || in_prompt tree.now.exprs p prompt)) }
    ensures found { OnOk result (HasFound tree.now.exprs found.new.visited found.new.names.items) }
{
    match prompt {
        Some(id) => id.push_names(tree, found),
        None => Ok(()),
    }
}

/// The condition on which a choice is shown; `None` under the rules of Linux 6.12, where it counts for nothing.
fn counted_prompt(tree: &Tree, choice: &Choice<'_>) -> Option<ExprId>
    ensures { result ≡ counted_prompt tree.now.tree choice.now }
{
    if tree.language().is_linux_6_12() {
        None
    } else {
        choice.prompt
    }
}

/// The names in the conditions of a choice's prompt, where it counts, defaults and members' prompts.
impl MentionsNames for Choice<'_> {
    ghost fits = { λ tree choice. ChoiceFits tree.exprs (length tree.tree.symbols) choice };

    ghost passes = { λ tree p choice. in_choice tree.tree tree.exprs p choice };

    fn push_names(&self, tree: &Tree, found: &mut FoundNames) -> Result<(), AllocError> {
        push_prompt(tree, counted_prompt(tree, self), found)?;
        push_all(tree, self.defaults, found)?;
        push_all(tree, self.members, found)
    }
}
