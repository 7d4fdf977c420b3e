//! The first fault of the checks on a listing that was read without a fault.
ghost use Rattle.std.specs.Prelude.{◌≡◌, ◌<◌, ◌+◌, ◌^◌, ◌&&◌, ℕ, List, IfOk, IfSome, None, Some, bytes_eq, length, slice_get, if◌then◌else◌};
ghost use Rattle.kc_expr.specs.Expr.{modules as modules_name};
ghost use Rattle.kc_tokens.specs.declared.language.Language.{Language as AnyLanguage};
ghost use Rattle.std.specs.List.{list_all};
ghost use Rattle.kc_tree_model.specs.Blocks.{Group as ModelGroup};
ghost use Rattle.kc_tree_model.specs.Conditions.{GroupInContext, groups_in_context};
ghost use Rattle.kc_tree_model.specs.Contents.{contents_of, member_names};
ghost use Rattle.kc_tree_model.specs.Limits.{names_defined};
ghost use Rattle.kc_tree_model.specs.TreeFaults.{faults_of_group, is_no_member_kind, is_same_choice, tree_faults};
ghost use Rattle.kc_parser.specs.between.EnclosingChoices.{is_choice_code};
ghost use Rattle.kc_parser.specs.between.ListingView.{RepresentsListing};
ghost use Rattle.kc_parser.specs.declared.listing.GroupHead.TheVariants as codes;
ghost use Rattle.kc_checks.specs.checker.Marks.{AreMarked};
ghost use Rattle.kc_checks.specs.between.FaultSearch.{AreFaultless, AreSmall, CountsChoices, HasMembers};
ghost use Rattle.kc_checks.specs.checker.Kinds.{choice_around, is_added_code, is_added_line, only_extends_member_code};
ghost use Rattle.kc_checks.specs.between.Summaries.{group_at, IsRepresented, IsSummed};

use super::attribute_checks::{first_choice_fault, first_symbol_fault};
use super::fault_kinds::definition_fault;
use super::group_lines::lines_of;
use super::marks::mark_members;
use super::summary::{Summary, is_first};
use kc_parser::{Group, GroupHead, Line, Listing};
use kc_statements::ReadAttribute;
use kc_tokens::Language;
use kc_tree::{ItemsByNumber, is_no_member_kind};
use kc_tree_model::{Attribute, Sym, TreeFault};
use kc_value::Kind;
use std::alloc::{AllocError, Global};

/// Whether a symbol is that of modules.
fn is_modules(listing: &Listing, s: u32) -> bool
    requires shown { IsRepresented listing.now }
    requires here { s < length listing.now.names.symbols.items }
    ensures value { (read : List ModelGroup) (name : List ℕ) → RepresentsListing listing.now read → slice_get (names_defined read) s ≡ Some name → result ≡ bytes_eq name modules_name }
{
    let id = listing.names.symbols[s as usize];
    listing.names.arena.name(id) == "MODULES"
}

/// Whether a later definition of a choice member may have an attribute: a type without a prompt, `depends on`, `select`, `imply` or
/// help text.
fn is_added(attribute: &ReadAttribute) -> bool
    ensures { result ≡ is_added_code attribute.now }
{
    matches!(
        *attribute,
        Attribute::Typed(_)
            | Attribute::Depends(_)
            | Attribute::Select(_)
            | Attribute::Imply(_)
            | Attribute::Help
    )
}

/// Whether some lines are of attributes alone that a later definition of a member may have.
fn only_add_attributes(lines: &[Line]) -> bool
    ensures { result ≡ list_all is_added_line lines.now }
{
    lines.iter().all(|line| is_added(&line.attribute))
}

/// Whether a definition with these attributes may follow that of a member in its choice; `is_again` is set if it is in that choice.
fn only_extends_member(language: Language, is_member: bool, is_again: bool, lines: &[Line]) -> bool
    ensures { result ≡ only_extends_member_code language is_member is_again lines.now }
{
    match language {
        Language::Strict => false,
        Language::Linux(_) => (!is_member && only_add_attributes(lines)) || is_again,
    }
}

/// The number of the choice that encloses the group of a number, if there is such a group and it is in a choice.
fn choice_around(groups: &[Group], number: Option<u32>) -> Option<u32>
    ensures { result ≡ choice_around groups.now number }
{
    match number {
        Some(number) => match groups.get(number as usize) {
            Some(group) => group.choice,
            None => None,
        },
        None => None,
    }
}

/// Whether two places are in the same choice, by the numbers of the choices that enclose them.
fn is_same_choice(a: Option<u32>, b: Option<u32>) -> bool
    ensures { result ≡ is_same_choice a b }
{
    match a {
        Some(a) => match b {
            Some(b) => a == b,
            None => false,
        },
        None => false,
    }
}

/// Whether a definition of a symbol whose first type is `given` is in a choice, and that type isn't one of a member.
fn is_misfit(language: Language, is_member: bool, given: Option<Kind>) -> bool
    ensures { result ≡ (is_member && is_no_member_kind language given) }
{
    is_member && is_no_member_kind(language, given)
}

/// The first fault of a definition and its attributes.
fn config_fault(
    listing: &Listing,
    language: Language,
    summary: &Summary,
    s: u32,
    i: usize,
) -> Option<TreeFault>
    requires shown { IsRepresented listing.now }
    requires summary { IsSummed listing.now summary.now }
    requires here { i < length listing.now.groups.items }
    requires head { (group_at listing.now.groups.items i).head ≡ codes.Config s }
    ensures fault { (read : List ModelGroup) (p : GroupInContext) → RepresentsListing listing.now read → slice_get (groups_in_context read) i ≡ Some p → result ≡ slice_get (faults_of_group language (contents_of read) p) 0 }
{
    let symbol_summary = summary.symbols[s as usize];
    let group = &listing.groups[i];
    let is_member = group.choice.is_some();
    let is_modules = is_modules(listing, s);
    let lines = lines_of(listing, i);
    let first_choice = choice_around(&listing.groups, symbol_summary.first);
    let is_again = is_same_choice(first_choice, group.choice);
    let may_follow = only_extends_member(language, is_member, is_again, lines);
    let is_misfit = is_misfit(language, is_member, symbol_summary.given);
    let is_first = is_first(symbol_summary.first, i);
    let fault = definition_fault(&symbol_summary, is_misfit, is_first, is_modules, may_follow);
    if let Some(kind) = fault {
        return Some(TreeFault::at_line(group.file, group.line, kind));
    }
    first_symbol_fault(
        listing,
        &summary.symbols,
        symbol_summary.kind(),
        is_modules,
        group.file,
        lines,
    )
}

/// The first fault of a choice, whose members have this mark.
fn choice_fault(listing: &Listing, marks: &[u32], mark: u32, i: usize) -> Option<TreeFault>
    requires shown { IsRepresented listing.now }
    requires many { length marks.now ≡ length listing.now.names.symbols.items }
    requires here { i < length listing.now.groups.items }
    requires head { (group_at listing.now.groups.items i).head ≡ codes.Choice }
    ensures fault { (read : List ModelGroup) (p : GroupInContext) → RepresentsListing listing.now read → slice_get (groups_in_context read) i ≡ Some p
        → AreMarked (names_defined read) (member_names (contents_of read) p.group.number) marks.now mark → (language : AnyLanguage) → result ≡ slice_get (faults_of_group language (contents_of read) p) 0 }
{
    let file = listing.groups[i].file;
    first_choice_fault(listing, marks, mark, file, lines_of(listing, i))
}

/// The first fault of a group; `choices` counts the choices before it. Marks the members of a choice that it opens.
fn group_fault(
    listing: &Listing,
    language: Language,
    summary: &Summary,
    members: &ItemsByNumber<Sym>,
    marks: &mut Vec<u32>,
    choices: u32,
    i: usize,
) -> Option<TreeFault>
    requires shown { IsRepresented listing.now }
    requires summary { IsSummed listing.now summary.now }
    requires here { i < length listing.now.groups.items }
    requires members { HasMembers listing.now members.now.starts.items members.now.items.items }
    requires many { length marks.old.items ≡ length listing.now.names.symbols.items }
    requires small { AreSmall marks.old.items choices }
    requires counted { CountsChoices listing.now i choices }
    requires few { choices + 1 < 2 ^ 32 }
    ensures fault { (read : List ModelGroup) (p : GroupInContext) → RepresentsListing listing.now read → slice_get (groups_in_context read) i ≡ Some p → result ≡ slice_get (faults_of_group language (contents_of read) p) 0 }
    ensures many { length marks.new.items ≡ length listing.now.names.symbols.items }
    ensures marks { AreSmall marks.new.items (if is_choice_code (group_at listing.now.groups.items i).head then choices + 1 else choices) }
{
    match listing.groups[i].head {
        GroupHead::Config(s) => config_fault(listing, language, summary, s, i),
        GroupHead::Choice => {
            mark_members(marks, members.get(choices as usize), choices + 1);
            choice_fault(listing, marks, choices + 1, i)
        }
        _ => None,
    }
}

/// Whether a statement is a `choice`.
pub fn begins_choice(head: &GroupHead) -> bool
    ensures { result ≡ is_choice_code head.now }
{
    matches!(*head, GroupHead::Choice)
}

/// The number of choices up to and including a statement; `choices` counts those before it.
fn count_choices(head: &GroupHead, choices: u32) -> u32
    requires few { choices + 1 < 2 ^ 32 }
    ensures value { result ≡ (if is_choice_code head.now then choices + 1 else choices) }
{
    if begins_choice(head) {
        choices + 1
    } else {
        choices
    }
}

/// The checks on the groups of a listing, one after another: the members of each choice, the marks of those of the choices so far,
/// and how many choices these groups open.
#[derive(Drop)]
pub struct Checks {
    pub members: ItemsByNumber<Sym>,
    pub marks: Vec<u32>,
    pub choices: u32,
}

impl Checks {
    /// The checks before the first group of a listing, which has this summary. An `Err` means out of memory.
    pub fn new(alloc: Global, listing: &Listing, summary: &Summary) -> Result<Checks, AllocError>
        requires shown { IsRepresented listing.now }
        requires summary { IsSummed listing.now summary.now }
        requires few { length listing.now.groups.items < 2 ^ 32 }
        ensures { (language : AnyLanguage) → IfOk result (AreFaultless language listing.now 0) }
    {
        let members = summary.members.grouped(alloc, summary.choices as usize)?;
        let marks = vec![in alloc; 0; listing.names.symbols.len()]?;
        Ok(Checks {
            members,
            marks,
            choices: 0,
        })
    }

    /// The first fault of the next group, whose number is this one, or `None`, after checks without a fault on those before it.
    pub fn next_fault(
        &mut self,
        listing: &Listing,
        language: Language,
        summary: &Summary,
        i: usize,
    ) -> Option<TreeFault>
        requires shown { IsRepresented listing.now }
        requires summary { IsSummed listing.now summary.now }
        requires few { length listing.now.groups.items < 2 ^ 32 }
        requires here { i < length listing.now.groups.items }
        requires before { AreFaultless language listing.now i self.old }
        ensures choices { self.new.choices ≡ (if is_choice_code (group_at listing.now.groups.items i).head then self.old.choices + 1 else self.old.choices) }
        ensures after { result ≡ None → AreFaultless language listing.now (i + 1) self.new }
        ensures fault { (read : List ModelGroup) → RepresentsListing listing.now read → IfSome result (λ f. Some f ≡ slice_get (tree_faults language read) 0) }
    {
        let found = group_fault(
            listing,
            language,
            summary,
            &self.members,
            &mut self.marks,
            self.choices,
            i,
        );
        self.choices = count_choices(&listing.groups[i].head, self.choices);
        found
    }
}
