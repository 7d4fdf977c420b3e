//! The walk over all groups of a listing.
ghost use Rattle.std.specs.Prelude.{◌≡◌, ◌≤◌, ◌<◌, ℕ, All, IfOk, List, length, reverse, slice_range};
ghost use Rattle.kc_value.specs.declared.tri.Tri.TheVariants.{N};
ghost use Rattle.kc_expr.specs.Expr.{alone, constant};
ghost use Rattle.kc_expr.specs.between.Arena.{Grows, Represents};
ghost use Rattle.kc_parser.specs.between.ListingView.{RepresentsGroups, LineNodesExist, RepresentsListing};
ghost use Rattle.kc_tree_model.specs.Blocks.{Group as ModelGroup};
ghost use Rattle.kc_checks.specs.between.Summaries.{attributes_end, group_at, IsRepresented};
ghost use Rattle.kc_conditions.specs.between.Walks.{RepresentsAllConditions, HasWalked};

use super::group_walk::{GroupConditions, GroupWalk};
use kc_checks::{end_of, part};
use kc_expr::{Arena, ExprId};
use kc_parser::{Group, Line, Listing, SymbolTable};
use kc_tokens::{ExprFault, Language};
use std::alloc::Global;

/// A listing with its conditions joined with the enclosing ones: its arena also has the joined conditions, `groups` has
/// those of each group, and `conditions` those of all groups' attributes, in reading order; `language` is that of the files, and
/// `no` is the expression `n`.
#[derive(Drop)]
pub struct WalkedListing {
    pub listing: Listing,
    pub language: Language,
    pub groups: Vec<GroupConditions>,
    pub conditions: Vec<ExprId>,
    pub no: ExprId,
}

/// The attributes of a group.
fn lines_at<'a>(groups: &[Group], lines: &'a [Line], i: usize) -> &'a [Line]
    requires here { i < length groups.now }
    requires rising { (group_at groups.now i).attributes ≤ attributes_end groups.now lines.now i }
    requires within { attributes_end groups.now lines.now i ≤ length lines.now }
    ensures value { result.now ≡ slice_range lines.now (group_at groups.now i).attributes (attributes_end groups.now lines.now i) }
{
    part(lines, groups[i].attributes, end_of(groups, lines, i))
}

/// Walks the groups of a tree in `language` with their attributes, which are in `lines`.
fn walk_through(
    alloc: Global,
    language: Language,
    arena: Arena,
    groups: &[Group],
    lines: &[Line],
) -> Result<GroupWalk, ExprFault>
    requires shown { (names texts : List (List ℕ)) × (read : List ModelGroup) × RepresentsGroups arena names texts lines.now (length lines.now) (reverse groups.now) read }
    requires held { All (LineNodesExist arena) lines.now }
    ensures grows { IfOk result (λ w. Grows arena w.arena) }
    ensures walked { (names texts : List (List ℕ)) (read : List ModelGroup) → RepresentsGroups arena names texts lines.now (length lines.now) (reverse groups.now) read
        → IfOk result (λ w. HasWalked language texts w read) }
{
    let mut walk = GroupWalk::new(alloc, arena, groups.len(), lines.len())?;
    for i in 0..groups.len() {
        walk.visit(language, &groups[i].head, lines_at(groups, lines, i))?;
    }
    Ok(walk)
}

/// Walks all groups of a listing and joins their conditions with the enclosing ones. An `Err` means out of memory.
pub fn walk_all(
    alloc: Global,
    language: Language,
    listing: Listing,
) -> Result<WalkedListing, ExprFault>
    requires shown { IsRepresented listing }
    ensures language { IfOk result (λ w. w.language ≡ language) }
    ensures groups { IfOk result (λ w. w.listing.groups ≡ listing.groups) }
    ensures no { IfOk result (λ w. Represents w.listing.names.arena w.no (alone (constant N))) }
    ensures shows { (read : List ModelGroup) → RepresentsListing listing read → IfOk result (λ w. RepresentsListing w.listing read) }
    ensures walked { (read : List ModelGroup) → RepresentsListing listing read
        → IfOk result (λ w. RepresentsAllConditions language w.listing.names.arena w.listing.texts.items w.conditions.items (length w.conditions.items) (reverse w.groups.items) read) }
{
    let Listing {
        names,
        texts,
        groups,
        lines,
    } = listing;
    let SymbolTable {
        arena,
        symbols,
        numbers,
    } = names;
    let walk = walk_through(alloc, language, arena, &groups, &lines)?;
    let names = SymbolTable {
        arena: walk.arena,
        symbols,
        numbers,
    };
    Ok(WalkedListing {
        listing: Listing {
            names,
            texts,
            groups,
            lines,
        },
        language,
        groups: walk.groups,
        conditions: walk.conditions,
        no: walk.no,
    })
}
