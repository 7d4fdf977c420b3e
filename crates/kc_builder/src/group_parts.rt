//! What the groups of a listing give its tree, gathered group by group after their checks.
ghost use Rattle.std.specs.Prelude.{◌≡◌, ◌⊎◌, ◌<◌, ◌+◌, ◌^◌, List, IfErr, IfOk, None, OnOk, Some, length, slice_get, if◌then◌else◌};
ghost use Rattle.kc_tokens.specs.declared.language.Language.{Language as AnyLanguage};
ghost use Rattle.kc_tree_model.specs.Blocks.{Group as ModelGroup};
ghost use Rattle.kc_tree_model.specs.TreeFaults.{tree_faults};
ghost use Rattle.kc_parser.specs.between.EnclosingChoices.{is_choice_code};
ghost use Rattle.kc_parser.specs.between.ListingView.{RepresentsListing};
ghost use Rattle.kc_parser.specs.between.MemoryFaults.{no_memory};
ghost use Rattle.kc_conditions.specs.between.GroupConditions.{conditions_at, own_conditions};
ghost use Rattle.kc_checks.specs.between.FaultSearch.{AreFaultless};
ghost use Rattle.kc_checks.specs.between.Summaries.{group_at, own_lines, IsRepresented, IsSummed};
ghost use Rattle.kc_builder.specs.checker.ChoiceDefaults.{IsWalkOf};
ghost use Rattle.kc_builder.specs.checker.GroupParts.{AreEmpty, AreParts, HasGroup, HasNextGroup};

use super::choice_defaults::push_group_defaults;
use super::choice_rows::push_row;
use super::definitions::{no_attributes, push_attributes};
use super::entries::push_entry;
use super::group_attributes::GroupAttributes;
use kc_checks::{Checks, Summary, lines_of};
use kc_conditions::{GroupConditions, WalkedListing, conditions_of};
use kc_expr::ExprId;
use kc_parser::Listing;
use kc_tree::{Attributes, ChoiceRow, EntryRow, ItemsWithKeys, MemberDefault};
use kc_tree_model::TreeFault;
use std::alloc::{AllocError, Global};

/// What groups give a tree: the attributes of symbols, the rows of choices with their defaults, and the entries.
#[derive(Drop)]
pub(crate) struct GroupParts {
    pub attributes: Attributes,
    pub rows: Vec<ChoiceRow>,
    pub defaults: ItemsWithKeys<MemberDefault>,
    pub entries: Vec<EntryRow>,
}

impl GroupParts {
    /// What no group gives, with capacity for the entries of this number of groups. An `Err` means out of memory.
    fn new(alloc: Global, groups: usize) -> Result<GroupParts, AllocError>
        ensures { IfOk result AreEmpty }
    {
        let entries = Vec::with_capacity(alloc, groups)?;
        Ok(GroupParts {
            attributes: no_attributes(alloc),
            rows: Vec::new(alloc),
            defaults: ItemsWithKeys::new(alloc),
            entries,
        })
    }

    /// Adds what the group of this number gives; `choices` counts the choices before it. An `Err` means out of memory.
    fn push_group(
        &mut self,
        listing: &Listing,
        groups: &[GroupConditions],
        conditions: &[ExprId],
        choices: u32,
        i: usize,
    ) -> Result<(), AllocError>
        requires walked { (language : AnyLanguage) × (read : List ModelGroup) × IsWalkOf language listing.now groups.now conditions.now read }
        requires here { i < length listing.now.groups.items }
        ensures ok { OnOk result (HasGroup listing.now.names (group_at listing.now.groups.items i) (own_lines listing.now i) (own_conditions groups.now conditions.now i) (conditions_at groups.now i) choices self.old self.new) }
    {
        let group = &listing.groups[i];
        let joined = &groups[i];
        let lines = lines_of(listing, i);
        let given = conditions_of(groups, conditions, i);
        let own = GroupAttributes {
            names: &listing.names,
            lines,
            conditions: given,
        };
        push_attributes(&mut self.attributes, own, &group.head, joined.dependency)?;
        push_row(&mut self.rows, group, lines, given)?;
        push_group_defaults(&mut self.defaults, own, &group.head, choices)?;
        push_entry(&mut self.entries, &group.head, joined, choices)?;
        Ok(())
    }

    /// Adds what the group of this number of a walked listing gives, if the checks, without a fault so far, find none in it.
    ///
    /// # Errors
    ///
    /// The first fault of the group; if memory runs out, `OutOfMemory` with no file.
    fn push_checked(
        &mut self,
        checks: &mut Checks,
        walked: &WalkedListing,
        summary: &Summary,
        i: usize,
    ) -> Result<(), TreeFault>
        requires walked { (read : List ModelGroup) × IsWalkOf walked.now.language walked.now.listing walked.now.groups.items walked.now.conditions.items read }
        requires summary { IsSummed walked.now.listing summary.now }
        requires few { length walked.now.listing.groups.items < 2 ^ 32 }
        requires here { i < length walked.now.listing.groups.items }
        requires before { AreFaultless walked.now.language walked.now.listing i checks.old }
        ensures after { OnOk result (AreFaultless walked.now.language walked.now.listing (i + 1) checks.new) }
        ensures choices { OnOk result (checks.new.choices ≡ (if is_choice_code (group_at walked.now.listing.groups.items i).head then checks.old.choices + 1 else checks.old.choices)) }
        ensures group { OnOk result (HasNextGroup walked.now i checks.old.choices self.old self.new) }
        ensures fault { (read : List ModelGroup) → RepresentsListing walked.now.listing read → IfErr result (λ f. (f ≡ no_memory) ⊎ (Some f ≡ slice_get (tree_faults walked.now.language read) 0)) }
    {
        let listing = &walked.listing;
        let choices = checks.choices;
        match checks.next_fault(listing, walked.language, summary, i) {
            Some(fault) => return Err(fault),
            None => {}
        }
        let groups = walked.groups.as_slice();
        let conditions = walked.conditions.as_slice();
        match self.push_group(listing, groups, conditions, choices, i) {
            Ok(()) => Ok(()),
            Err(_) => Err(TreeFault::out_of_memory()),
        }
    }
}

/// The checks before the first group of a listing, which has this summary, and what no group gives. An `Err` means out of memory.
fn started(
    alloc: Global,
    listing: &Listing,
    summary: &Summary,
) -> Result<(Checks, GroupParts), AllocError>
    requires shown { IsRepresented listing.now }
    requires summary { IsSummed listing.now summary.now }
    requires few { length listing.now.groups.items < 2 ^ 32 }
    ensures checks { (language : AnyLanguage) → IfOk result (λ r. AreFaultless language listing.now 0 r.0) }
    ensures choices { IfOk result (λ r. r.0.choices ≡ 0) }
    ensures parts { IfOk result (λ r. AreEmpty r.1) }
{
    let checks = Checks::new(alloc, listing, summary)?;
    let parts = GroupParts::new(alloc, listing.groups.len())?;
    Ok((checks, parts))
}

/// What the groups of a walked listing, which has this summary, give its tree, if the checks on the whole tree find no fault.
///
/// # Errors
///
/// The first fault of these checks, in reading order; if memory runs out, `OutOfMemory` with no file.
pub(crate) fn checked_parts(
    alloc: Global,
    walked: &WalkedListing,
    summary: &Summary,
) -> Result<GroupParts, TreeFault>
    requires walked { (read : List ModelGroup) × IsWalkOf walked.now.language walked.now.listing walked.now.groups.items walked.now.conditions.items read }
    requires summary { IsSummed walked.now.listing summary.now }
    requires few { length walked.now.listing.groups.items < 2 ^ 32 }
    ensures faultless { (read : List ModelGroup) → RepresentsListing walked.now.listing read → IfOk result (λ _. None ≡ slice_get (tree_faults walked.now.language read) 0) }
    ensures parts { (read : List ModelGroup) → IsWalkOf walked.now.language walked.now.listing walked.now.groups.items walked.now.conditions.items read → IfOk result (AreParts walked.now.language walked.now.listing read) }
    ensures fault { (read : List ModelGroup) → RepresentsListing walked.now.listing read → IfErr result (λ f. (f ≡ no_memory) ⊎ (Some f ≡ slice_get (tree_faults walked.now.language read) 0)) }
{
    let Ok(state) = started(alloc, &walked.listing, summary) else {
        return Err(TreeFault::out_of_memory());
    };
    let (mut checks, mut parts) = state;
    for i in 0..walked.listing.groups.len() {
        parts.push_checked(&mut checks, walked, summary, i)?;
    }
    Ok(parts)
}
