//! The walk that joins each group's conditions with the enclosing ones.
ghost use Rattle.std.specs.Prelude.{◌≡◌, ◌∷◌, ◌<◌, ◌++◌, ◌+◌, ℕ, [], List, All, Some, None, IfOk, IfSome, OnOk, Option, drop, length, map, option_map, option_to_list, reverse, slice_get, unwrap_or};
ghost use Rattle.kc_tokens.specs.declared.language.Language.{Language};
ghost use Rattle.kc_tokens.specs.Languages.{is_linux_6_12};
ghost use Rattle.kc_value.specs.declared.tri.Tri.TheVariants.{N};
ghost use Rattle.kc_expr.specs.between.Arena.{Grows, Represents, node_expr};
ghost use Rattle.kc_expr.specs.Expr.{Expr, alone, constant, shown};
ghost use Rattle.kc_parser.specs.between.ListingView.{LineNodesExist, RepresentsHead, line_in};
ghost use Rattle.kc_tree_model.specs.Blocks.{Group as ModelGroup, of_head};
ghost use Rattle.kc_tree_model.specs.Conditions.{conjunction_of, context, attribute_values, dependencies_of, prompts_of};
ghost use Rattle.kc_tree_model.specs.Statements.{visible_of};
ghost use Rattle.kc_tree_model.specs.declared.statement.Head.TheVariants.{Choice as choice, Condition as condition_head};
ghost use Rattle.kc_conditions.specs.checker.Conjuncts.{AreJoined};
ghost use Rattle.kc_conditions.specs.between.Firsts.{first_prompt, RepresentsPrompt, RepresentsInside, is_end, GroupHeadNodesExist};
ghost use Rattle.kc_conditions.specs.between.Walks.{RepresentsEnclosing, HasWalked, innermost_enclosing, or_yes};

use super::conditions::{
    EnclosingConditions, EntryConditions, entry_conditions, join_optional, push_conditions,
};
use kc_expr::{Arena, ExprId};
use kc_parser::{GroupHead, Line};
use kc_tokens::{ExprFault, Language};
use kc_value::Tri;
use std::alloc::Global;

/// The dependency and the `visible if` of a group, joined with the enclosing ones. The end of a block has the conditions inside
/// that block, and in `ended` the index of its title if it is a menu. The conditions of the group's attributes begin at index
/// `first`.
#[derive(Clone, Copy)]
pub struct GroupConditions {
    pub dependency: ExprId,
    pub visible: ExprId,
    pub ended: Option<usize>,
    pub first: usize,
}

/// A walk over the groups of a listing: the joined conditions inside the open blocks (`stack`, innermost last), of the groups
/// walked so far, and of their attributes. `yes` and `no` are the expressions `y` and `n`.
#[derive(Drop)]
pub(crate) struct GroupWalk {
    pub arena: Arena,
    pub yes: ExprId,
    pub no: ExprId,
    pub stack: Vec<EnclosingConditions>,
    pub groups: Vec<GroupConditions>,
    pub conditions: Vec<ExprId>,
}

/// The condition of the first prompt among attribute lines with their conditions; `None` without a prompt.
pub fn first_condition(lines: &[Line], conditions: &[ExprId]) -> Option<ExprId>
    requires many { length conditions.now ≡ length lines.now }
    ensures value { result ≡ first_prompt lines.now conditions.now }
{
    for i in 0..lines.len() {
        if lines[i].attribute.is_prompt() {
            return Some(conditions[i]);
        }
    }
    None
}

/// Whether a block or a file ends.
fn ends(head: &GroupHead) -> bool
    ensures { result ≡ is_end head.now }
{
    matches!(*head, GroupHead::Ends(_) | GroupHead::FileEnd)
}

/// The condition inside a choice whose prompt has this condition.
fn shown_condition(
    arena: &mut Arena,
    no: ExprId,
    prompt: Option<ExprId>,
) -> Result<ExprId, ExprFault>
    requires there { IfSome prompt (λ i. i < length arena.old.nodes) }
    ensures grows { Grows arena.old arena.new }
    ensures represents { IfOk result (λ s. (e : Option Expr) → RepresentsPrompt arena.old prompt e → Represents arena.old no (alone (constant N))
        → Represents arena.new s (unwrap_or (option_map shown e) (alone (constant N)))) }
{
    match prompt {
        Some(condition) => arena.shown(condition),
        None => Ok(no),
    }
}

/// The conditions inside a choice with these conditions, whose prompt has the condition `prompt`.
fn inside_choice(
    arena: &mut Arena,
    language: Language,
    no: ExprId,
    entry: &EntryConditions,
    prompt: Option<ExprId>,
) -> Result<EnclosingConditions, ExprFault>
    requires there { IfSome prompt (λ i. i < length arena.old.nodes) }
    ensures grows { Grows arena.old arena.new }
    ensures represents { (texts : List (List ℕ)) (yes : ℕ) (m : ModelGroup) (opened : List ModelGroup)
        → m.head ≡ of_head choice
        → AreJoined arena.old entry.now (dependencies_of (context (is_linux_6_12 language) opened) m) (context (is_linux_6_12 language) opened).visibles (attribute_values visible_of m)
        → RepresentsPrompt arena.old prompt (slice_get (prompts_of (context (is_linux_6_12 language) opened) m) 0) → Represents arena.old no (alone (constant N))
        → IfOk result (λ a. RepresentsEnclosing language arena.new texts yes a (m ∷ opened)) }
{
    if language.is_linux_6_12() {
        return Ok(EnclosingConditions {
            dependencies: entry.dependencies,
            visibles: entry.visibles,
            title: None,
        });
    }
    let shown = shown_condition(arena, no, prompt)?;
    Ok(EnclosingConditions {
        dependencies: Some(shown),
        visibles: None,
        title: None,
    })
}

/// The conditions inside an `if`.
fn inside_if(
    arena: &mut Arena,
    enclosing: &EnclosingConditions,
    condition: ExprId,
) -> Result<EnclosingConditions, ExprFault>
    requires enclosing { IfSome enclosing.now.dependencies (λ i. i < length arena.old.nodes) }
    requires condition { condition < length arena.old.nodes }
    ensures grows { Grows arena.old arena.new }
    ensures represents { (language : Language) (texts : List (List ℕ)) (yes : ℕ) (m : ModelGroup) (opened : List ModelGroup)
        → m.head ≡ of_head (condition_head (node_expr arena.old condition)) → RepresentsEnclosing language arena.old texts yes enclosing.now opened
        → IfOk result (λ a. RepresentsEnclosing language arena.new texts yes a (m ∷ opened)) }
{
    let dependencies = join_optional(arena, enclosing.dependencies, Some(condition))?;
    Ok(EnclosingConditions {
        dependencies,
        visibles: enclosing.visibles,
        title: None,
    })
}

/// The conditions inside the block that a group opens, if it opens one.
fn inside(
    arena: &mut Arena,
    language: Language,
    no: ExprId,
    head: &GroupHead,
    enclosing: &EnclosingConditions,
    entry: &EntryConditions,
    prompt: Option<ExprId>,
) -> Result<Option<EnclosingConditions>, ExprFault>
    requires prompt { IfSome prompt (λ i. i < length arena.old.nodes) }
    requires enclosing { IfSome enclosing.now.dependencies (λ i. i < length arena.old.nodes) }
    requires held { GroupHeadNodesExist (length arena.old.nodes) head.now }
    ensures grows { Grows arena.old arena.new }
    ensures represents { (names texts : List (List ℕ)) (yes : ℕ) (m : ModelGroup) (opened : List ModelGroup)
        → RepresentsHead arena.old names texts head.now m.head
        → RepresentsEnclosing language arena.old texts yes enclosing.now opened
        → AreJoined arena.old entry.now (dependencies_of (context (is_linux_6_12 language) opened) m) (context (is_linux_6_12 language) opened).visibles (attribute_values visible_of m)
        → RepresentsPrompt arena.old prompt (slice_get (prompts_of (context (is_linux_6_12 language) opened) m) 0)
        → Represents arena.old yes (conjunction_of []) → Represents arena.old no (alone (constant N))
        → IfOk result (RepresentsInside language arena.new texts yes m opened) }
{
    match *head {
        GroupHead::Choice => Ok(Some(inside_choice(arena, language, no, entry, prompt)?)),
        GroupHead::Menu(title) => Ok(Some(EnclosingConditions {
            dependencies: entry.dependencies,
            visibles: entry.visibles,
            title: Some(title),
        })),
        GroupHead::Condition(condition) => Ok(Some(inside_if(arena, enclosing, condition)?)),
        GroupHead::Source(_) => Ok(Some(EnclosingConditions {
            dependencies: enclosing.dependencies,
            visibles: enclosing.visibles,
            title: None,
        })),
        _ => Ok(None),
    }
}

/// The expressions `y` and `n`.
fn yes_and_no(arena: &mut Arena) -> Result<(ExprId, ExprId), ExprFault>
    ensures grows { Grows arena.old arena.new }
    ensures yes { IfOk result (λ r. Represents arena.new r.0 (conjunction_of [])) }
    ensures no { IfOk result (λ r. Represents arena.new r.1 (alone (constant N))) }
{
    let yes = arena.constant(Tri::Y)?;
    let no = arena.constant(Tri::N)?;
    Ok((yes, no))
}

impl GroupWalk {
    /// A walk before the first group of a listing, with the expressions `y` and `n` added to its arena, and with capacity for these
    /// numbers of groups and of attribute lines.
    pub(crate) fn new(
        alloc: Global,
        arena: Arena,
        groups: usize,
        lines: usize,
    ) -> Result<GroupWalk, ExprFault>
        ensures grows { IfOk result (λ w. Grows arena w.arena) }
        ensures walked { IfOk result (λ w. (language : Language) (texts : List (List ℕ)) → HasWalked language texts w []) }
        ensures empty { IfOk result (λ w. w.groups.items ≡ []) }
    {
        let group_conditions = Vec::with_capacity(alloc, groups)?;
        let conditions = Vec::with_capacity(alloc, lines)?;
        let mut arena = arena;
        let constants = yes_and_no(&mut arena)?;
        Ok(GroupWalk {
            arena,
            yes: constants.0,
            no: constants.1,
            stack: Vec::new(alloc),
            groups: group_conditions,
            conditions,
        })
    }

    /// The conditions that enclose the next group.
    fn enclosing(&self) -> EnclosingConditions
        ensures { result ≡ innermost_enclosing (reverse self.now.stack.items) }
    {
        match self.stack.last() {
            Some(enclosing) => *enclosing,
            None => EnclosingConditions {
                dependencies: None,
                visibles: None,
                title: None,
            },
        }
    }

    /// Appends a group with these conditions.
    fn push_group(
        &mut self,
        dependencies: Option<ExprId>,
        visibles: Option<ExprId>,
        ended: Option<usize>,
        first: usize,
    ) -> Result<(), ExprFault>
        ensures groups { OnOk result (self.new.groups.items ≡ self.old.groups.items ++ record { dependency = or_yes self.old.yes dependencies; visible = or_yes self.old.yes visibles; ended = ended; first = first } ∷ []) }
        ensures arena { self.new.arena ≡ self.old.arena }
        ensures yes { self.new.yes ≡ self.old.yes }
        ensures no { self.new.no ≡ self.old.no }
        ensures stack { self.new.stack.items ≡ self.old.stack.items }
        ensures conditions { self.new.conditions.items ≡ self.old.conditions.items }
    {
        let group = GroupConditions {
            dependency: dependencies.unwrap_or(self.yes),
            visible: visibles.unwrap_or(self.yes),
            ended,
            first,
        };
        self.groups.push(group)?;
        Ok(())
    }

    /// Walks an end.
    fn end(&mut self, enclosing: &EnclosingConditions, first: usize) -> Result<(), ExprFault>
        ensures groups { OnOk result (self.new.groups.items ≡ self.old.groups.items ++ record { dependency = or_yes self.old.yes enclosing.now.dependencies; visible = or_yes self.old.yes enclosing.now.visibles; ended = enclosing.now.title; first = first } ∷ []) }
        ensures arena { self.new.arena ≡ self.old.arena }
        ensures yes { self.new.yes ≡ self.old.yes }
        ensures no { self.new.no ≡ self.old.no }
        ensures stack { reverse self.new.stack.items ≡ drop 1 (reverse self.old.stack.items) }
        ensures conditions { self.new.conditions.items ≡ self.old.conditions.items }
    {
        let _ = self.stack.pop();
        self.push_group(
            enclosing.dependencies,
            enclosing.visibles,
            enclosing.title,
            first,
        )
    }

    /// The condition of the first prompt among the newest attributes, whose conditions begin at a place.
    fn first_prompt_condition(&self, lines: &[Line], first: usize) -> Option<ExprId>
        requires many { length self.now.conditions.items ≡ first + length lines.now }
        ensures value { result ≡ first_prompt lines.now (drop first self.now.conditions.items) }
    {
        first_condition(lines, &self.conditions[first..])
    }

    /// Opens a block, if a group opens one.
    fn enter(&mut self, inside: Option<EnclosingConditions>) -> Result<(), ExprFault>
        ensures stack { OnOk result (self.new.stack.items ≡ self.old.stack.items ++ option_to_list inside) }
        ensures arena { self.new.arena ≡ self.old.arena }
        ensures yes { self.new.yes ≡ self.old.yes }
        ensures no { self.new.no ≡ self.old.no }
        ensures groups { self.new.groups.items ≡ self.old.groups.items }
        ensures conditions { self.new.conditions.items ≡ self.old.conditions.items }
    {
        match inside {
            Some(enclosing) => {
                self.stack.push(enclosing)?;
                Ok(())
            }
            None => Ok(()),
        }
    }

    /// Walks the next group of a tree in `language`, given by its statement and its attribute lines: adds its joined conditions, and
    /// opens or ends a block.
    pub(crate) fn visit(
        &mut self,
        language: Language,
        head: &GroupHead,
        lines: &[Line],
    ) -> Result<(), ExprFault>
        requires walked { (texts : List (List ℕ)) × (before : List ModelGroup) × HasWalked language texts self.old before }
        requires head { GroupHeadNodesExist (length self.old.arena.nodes) head.now }
        requires lines { All (LineNodesExist self.old.arena) lines.now }
        ensures grows { Grows self.old.arena self.new.arena }
        ensures walked { (names texts : List (List ℕ)) (before : List ModelGroup) (m : ModelGroup) → HasWalked language texts self.old before
            → RepresentsHead self.old.arena names texts head.now m.head → m.attributes ≡ map (line_in self.old.arena) lines.now
            → OnOk result (HasWalked language texts self.new (m ∷ before)) }
        ensures more { OnOk result (length self.new.groups.items ≡ length self.old.groups.items + 1) }
    {
        let enclosing = self.enclosing();
        let entry = entry_conditions(&mut self.arena, &enclosing, lines)?;
        let first = self.conditions.len();
        push_conditions(
            &mut self.arena,
            self.yes,
            &entry,
            lines,
            &mut self.conditions,
        )?;
        if ends(head) {
            return self.end(&enclosing, first);
        }
        let prompt = self.first_prompt_condition(lines, first);
        let opened = inside(
            &mut self.arena,
            language,
            self.no,
            head,
            &enclosing,
            &entry,
            prompt,
        )?;
        self.enter(opened)?;
        self.push_group(entry.dependencies, entry.visibles, None, first)
    }
}
