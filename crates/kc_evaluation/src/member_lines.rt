//! The member of a choice that the assignments of its members select, under the rules of Linux 6.12.
ghost use Rattle.std.specs.Prelude.{◌≡◌, ℕ, ◌<◌, ◌==◌, ◌&&◌, not, length, find, IfOk};
ghost use Rattle.std.specs.List.{list_any};
ghost use Rattle.std.specs.List.Sorted.{IsNonDecreasing};
ghost use Rattle.kc_tree.specs.between.Views.{choice_view, ChoiceFits};
ghost use Rattle.kc_dependencies.specs.checker.StoredRules.{AreMembers};
ghost use Rattle.kc_rules_model.specs.MemberLines.{is_listed, last_y, first_listed, selected_by_lines};
ghost use Rattle.kc_rules_model.specs.Rule.{is_visible_member, default_member};
ghost use Rattle.kc_evaluation.specs.checker.Choices.{is_free};
ghost use Rattle.kc_evaluation.specs.checker.ValuationView.{valuation_tree, valuation_exprs, valuation_values};

use super::choices::{default_member, is_member_visible};
use super::valuation::Valuation;
use kc_rules_model::MemberLine;
use kc_tree::{Choice, Sym};
use std::alloc::{AllocError, Global};

/// Whether a listed member is a symbol of the tree and visible.
fn is_seen(under: &Valuation<'_>, s: Sym) -> bool
    ensures { result ≡ is_visible_member (valuation_tree under.now) (valuation_values under.now) s }
{
    if s.number() >= under.rules.tree.symbol_count() {
        return false;
    }
    is_member_visible(under, s)
}

/// The last listed member that has `y` and is visible, if there is one.
pub fn last_y(under: &Valuation<'_>, lines: &[MemberLine]) -> Option<Sym>
    ensures value { result ≡ last_y (is_visible_member (valuation_tree under.now) (valuation_values under.now)) lines.now }
{
    for i in (0..lines.len()).rev() {
        let line = lines[i];
        if line.is_y && is_seen(under, line.member) {
            return Some(line.member);
        }
    }
    None
}

/// Whether a member is listed, with `y` or with `n`.
pub fn is_listed(lines: &[MemberLine], s: Sym) -> bool
    ensures { result ≡ is_listed lines.now s }
{
    for line in lines {
        if line.member.number() == s.number() {
            return true;
        }
    }
    false
}

/// The first listed member that is visible, if there is one.
pub fn first_listed(under: &Valuation<'_>, lines: &[MemberLine]) -> Option<Sym>
    ensures value { result ≡ first_listed (is_visible_member (valuation_tree under.now) (valuation_values under.now)) lines.now }
{
    for line in lines {
        if is_seen(under, line.member) {
            return Some(line.member);
        }
    }
    None
}

/// The numbers of the listed members, ascending.
fn listed_numbers(alloc: Global, lines: &[MemberLine]) -> Result<Vec<u32>, AllocError>
    ensures same { (s : ℕ) → IfOk result (λ numbers. list_any (λ m. m == s) numbers.items ≡ is_listed lines.now s) }
    ensures sorted { IfOk result (λ numbers. IsNonDecreasing numbers.items) }
{
    let mut numbers = Vec::with_capacity(alloc, lines.len())?;
    for line in lines {
        numbers.push(line.member.number())?;
    }
    numbers.sort_unstable();
    Ok(numbers)
}

/// Whether some numbers, which ascend, have that of a member.
fn has_number(numbers: &[u32], s: Sym) -> bool
    requires sorted { IsNonDecreasing numbers.now }
    ensures value { result ≡ list_any (λ m. m == s) numbers.now }
{
    numbers.binary_search(&s.number()).is_ok()
}

/// Whether a member is visible and its number isn't among these, which ascend.
fn is_free(under: &Valuation<'_>, numbers: &[u32], s: Sym) -> bool
    requires there { s < length (valuation_tree under.now).symbols }
    requires sorted { IsNonDecreasing numbers.now }
    ensures value { result ≡ is_free (valuation_tree under.now) (valuation_values under.now) numbers.now s }
{
    is_member_visible(under, s) && !has_number(numbers, s)
}

/// The first visible member of a choice whose number isn't among these, which ascend.
fn first_without_number(under: &Valuation<'_>, members: &[Sym], numbers: &[u32]) -> Option<Sym>
    requires fits { AreMembers (valuation_tree under.now) members.now }
    requires sorted { IsNonDecreasing numbers.now }
    ensures value { result ≡ find (is_free (valuation_tree under.now) (valuation_values under.now) numbers.now) members.now }
{
    for s in members {
        if is_free(under, numbers, *s) {
            return Some(*s);
        }
    }
    None
}

/// The first visible member of a choice that isn't listed, if there is one. An `Err` means out of memory.
pub fn first_unlisted(
    alloc: Global,
    under: &Valuation<'_>,
    members: &[Sym],
    lines: &[MemberLine],
) -> Result<Option<Sym>, AllocError>
    requires fits { AreMembers (valuation_tree under.now) members.now }
    ensures ok { IfOk result (λ m. m ≡ find (λ s. is_visible_member (valuation_tree under.now) (valuation_values under.now) s && not (is_listed lines.now s)) members.now) }
{
    let numbers = listed_numbers(alloc, lines)?;
    Ok(first_without_number(under, members, numbers.as_slice()))
}

/// The selection of a choice by the rules of Linux 6.12, from what lines give to its members: of the visible ones with `y` the last
/// in the list, if there is one; else the default member, unless it is listed; then the first visible member that isn't listed;
/// where all visible ones are listed, the first of them in the list. An `Err` means out of memory.
pub fn selected_by_lines(
    alloc: Global,
    under: &Valuation<'_>,
    choice: &Choice<'_>,
    lines: &[MemberLine],
) -> Result<Option<Sym>, AllocError>
    requires fits { ChoiceFits (valuation_exprs under.now) (length (valuation_tree under.now).symbols) choice.now }
    ensures ok { let tree = valuation_tree under.now in let values = valuation_values under.now in IfOk result (λ m. m ≡ selected_by_lines (is_visible_member tree values) choice.now.members.now (default_member tree (choice_view (valuation_exprs under.now) choice.now) values) lines.now) }
{
    if let Some(s) = last_y(under, lines) {
        return Ok(Some(s));
    }
    match default_member(under, choice) {
        None => Ok(None),
        Some(default) => {
            if !is_listed(lines, default) {
                return Ok(Some(default));
            }
            match first_unlisted(alloc, under, choice.members, lines)? {
                Some(s) => Ok(Some(s)),
                None => Ok(first_listed(under, lines)),
            }
        }
    }
}
