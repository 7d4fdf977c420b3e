//! Choices of which lines select another member by the rules of Linux from 6.10 on than by those before.
ghost use Rattle.std.specs.Prelude.{◌≡◌, ◌<◌, ◌++◌, ℕ, Some, length, map, option_to_list, slice_get, IfOk, OnOk};
ghost use Rattle.std.specs.Global.{Vec};
ghost use Rattle.std.specs.List.{filter_map};
ghost use Rattle.std.specs.List.Sorted.{IsStrictlySortedBy};
ghost use Rattle.std.specs.Map.{keys_of};
ghost use Rattle.std.specs.Ordering.{nat_cmp};
ghost use Rattle.kc_dotconfig_model.specs.declared.choice_line.ChoiceLine.{ChoiceLine as TheLine};
ghost use Rattle.kc_tree_model.specs.Trees.{Choice as TheChoice};
ghost use Rattle.kc_rules_model.specs.declared.values.UnitValue.TheVariants.{Member as MemberValue};
ghost use Rattle.kc_rules_model.specs.Equality.{value_is};
ghost use Rattle.kc_rules_model.specs.SymbolValues.{member_of};
ghost use Rattle.kc_rules.specs.between.SettledViews.{tree_of_settled};
ghost use Rattle.kc_dotconfig_model.specs.OtherChoices.{has_no_version, placed_from, lines_of, given_by, last_line, last_n_line, noticed_line, other_line, place_of, other_choices_of};
ghost use Rattle.kc_minimal.specs.checker.LineGroups.{lines_at, line_from, by_group};

use kc_dotconfig::{ChoiceLine, add_item, last_lines};
use kc_rules::{MemberLine, Settled, UnitValue};
use kc_tokens::{Language, LinuxVersion};
use kc_tree::{Sym, Unit};
use std::alloc::{AllocError, Global};
use std::collections::BTreeMap;

/// Appends the lines of members in a file to those of the files before it, each with the number of the file.
pub fn add_lines(
    all: &mut Vec<(usize, ChoiceLine)>,
    file: usize,
    lines: &[ChoiceLine],
) -> Result<(), AllocError>
    ensures { OnOk result (all.new.items ≡ all.old.items ++ map (λ l. (file, l)) lines.now) }
{
    for line in lines {
        all.push((file, *line))?;
    }
    Ok(())
}

/// The lines of members in several files, each with the number of its file, from 0.
pub fn placed_lines(
    alloc: Global,
    files: &[Vec<ChoiceLine>],
) -> Result<Vec<(usize, ChoiceLine)>, AllocError>
    ensures { IfOk result (λ lines. lines.items ≡ placed_from 0 (map (λ (f : Vec TheLine). f.items) files.now)) }
{
    let mut lines = Vec::new(alloc);
    for file in 0..files.len() {
        add_lines(&mut lines, file, files[file].as_slice())?;
    }
    Ok(lines)
}

/// Whether a tree in this language has the rules of Linux before 6.10, and doesn't say that they are meant.
fn has_no_version(language: Language) -> bool
    ensures { result ≡ has_no_version language }
{
    match language {
        Language::Linux(LinuxVersion::Unknown) => true,
        _ => false,
    }
}

/// The lines of each choice that has lines, by its unit.
fn grouped(
    alloc: Global,
    lines: &[(usize, ChoiceLine)],
) -> Result<BTreeMap<u32, Vec<(usize, ChoiceLine)>>, AllocError>
    ensures { IfOk result (λ groups. (u : ℕ) → lines_at groups.entries u ≡ lines_of u lines.now) }
{
    let mut groups = BTreeMap::new(alloc);
    for line in lines {
        add_item(alloc, &mut groups, line.1.unit, *line)?;
    }
    Ok(groups)
}

/// The lines of each choice that has lines, in order of units.
fn groups_of(
    alloc: Global,
    lines: &[(usize, ChoiceLine)],
) -> Result<Vec<(u32, Vec<(usize, ChoiceLine)>)>, AllocError>
    ensures groups { IfOk result (λ groups. (u : ℕ) → lines_at groups.items u ≡ lines_of u lines.now) }
    ensures rising { IfOk result (λ groups. IsStrictlySortedBy nat_cmp (keys_of groups.items)) }
{
    let groups = grouped(alloc, lines)?;
    groups.into_iter().collect(alloc)
}

/// The last line of a member.
fn last_line(s: Sym, lines: &[(usize, ChoiceLine)]) -> Option<(usize, ChoiceLine)>
    ensures { result ≡ last_line s lines.now }
{
    for i in (0..lines.len()).rev() {
        let line = &lines[i];
        if line.1.given.member.number() == s.number() {
            return Some(*line);
        }
    }
    None
}

/// The last line of a member, if that gives it `n`.
fn last_n_line(s: Sym, lines: &[(usize, ChoiceLine)]) -> Option<(usize, ChoiceLine)>
    ensures { result ≡ last_n_line s lines.now }
{
    match last_line(s, lines) {
        Some(line) if !line.1.given.is_y => Some(line),
        _ => None,
    }
}

/// The line with the notice on a choice, from the member that it selects and the other one.
fn noticed_line(
    own: Option<Sym>,
    other: Option<Sym>,
    lines: &[(usize, ChoiceLine)],
) -> Option<(usize, ChoiceLine)>
    ensures { result ≡ noticed_line own other lines.now }
{
    if let Some(s) = own {
        if let Some(line) = last_n_line(s, lines) {
            return Some(line);
        }
    }
    match other {
        Some(s) => last_line(s, lines),
        None => None,
    }
}

/// What lines of a choice give to its members.
fn given_by(alloc: Global, lines: &[(usize, ChoiceLine)]) -> Result<Vec<MemberLine>, AllocError>
    ensures { IfOk result (λ given. given.items ≡ given_by lines.now) }
{
    let mut given = Vec::with_capacity(alloc, lines.len())?;
    for line in lines {
        given.push(line.1.given)?;
    }
    Ok(given)
}

/// The member that the choice whose unit is `u` selects.
fn member_of(values: &[UnitValue], u: u32) -> Option<Sym>
    ensures { result ≡ member_of (slice_get values.now u) }
{
    match values.get(u as usize) {
        Some(UnitValue::Member(member)) => *member,
        _ => None,
    }
}

/// Whether the choice whose unit is `u` selects this member, or none where it is none.
fn is_selection(values: &[UnitValue], u: u32, member: &Option<Sym>) -> bool
    ensures { result ≡ value_is (slice_get values.now u) (MemberValue member.now) }
{
    match (values.get(u as usize), member) {
        (Some(UnitValue::Member(Some(a))), Some(b)) => a.number() == b.number(),
        (Some(UnitValue::Member(None)), None) => true,
        _ => false,
    }
}

/// The line with the notice on the choice of this number, whose unit is `u`, if there is a notice.
fn other_line(
    alloc: Global,
    settled: &Settled,
    values: &[UnitValue],
    c: u32,
    u: u32,
    lines: &[(usize, ChoiceLine)],
) -> Result<Option<(usize, ChoiceLine)>, AllocError>
    requires there { c < length (tree_of_settled settled.now).choices }
    ensures value { (choice : TheChoice) → slice_get (tree_of_settled settled.now).choices c ≡ Some choice → IfOk result (λ line. line ≡ other_line (tree_of_settled settled.now) values.now choice (slice_get values.now u) lines.now) }
{
    if !settled.is_choice_shown(c, values) {
        return Ok(None);
    }
    let given = given_by(alloc, lines)?;
    let kept = last_lines(alloc, &given)?;
    let other = settled.selected_by_lines(alloc, c, &kept, values)?;
    if is_selection(values, u, &other) {
        return Ok(None);
    }
    Ok(noticed_line(member_of(values, u), other, lines))
}

/// The line with the notice on a unit, if the tree has it and it is a choice with a notice, from the lines of the choice.
fn line_of_group(
    alloc: Global,
    settled: &Settled,
    values: &[UnitValue],
    u: u32,
    lines: &[(usize, ChoiceLine)],
) -> Result<Option<(usize, ChoiceLine)>, AllocError>
    ensures value { let tree = tree_of_settled settled.now in IfOk result (λ line. line ≡ line_from tree values.now u (slice_get tree.units u) lines.now) }
{
    if u >= settled.tree().len() {
        return Ok(None);
    }
    match settled.tree().unit(u) {
        Unit::Symbol(_) => Ok(None),
        Unit::Choice(c) => other_line(alloc, settled, values, c, u, lines),
    }
}

/// Appends the place of a line, if there is one.
fn push_place(
    found: &mut Vec<(usize, u32)>,
    line: Option<(usize, ChoiceLine)>,
) -> Result<(), AllocError>
    ensures { OnOk result (found.new.items ≡ found.old.items ++ map place_of (option_to_list line)) }
{
    if let Some((file, line)) = line {
        found.push((file, line.line))?;
    }
    Ok(())
}

/// The places of the notices on choices, in order of the choices, from the lines of each choice that has lines.
fn group_places(
    alloc: Global,
    settled: &Settled,
    values: &[UnitValue],
    groups: Vec<(u32, Vec<(usize, ChoiceLine)>)>,
) -> Result<Vec<(usize, u32)>, AllocError>
    ensures { IfOk result (λ found. found.items ≡ map place_of (filter_map (by_group (tree_of_settled settled.now) values.now) groups.items)) }
{
    let mut found = Vec::new(alloc);
    for (u, group) in groups {
        let line = line_of_group(alloc, settled, values, u, &group)?;
        push_place(&mut found, line)?;
    }
    Ok(found)
}

/// The places of the notices on choices of which the lines of members select another member by the rules of Linux from 6.10 on, with
/// these values: the number of a file and of its line, in order of the choices. There are none where the tree has other rules than
/// those before Linux 6.10, or its language says that these are meant. An `Err` means out of memory.
pub fn other_choices(
    alloc: Global,
    settled: &Settled,
    values: &[UnitValue],
    lines: &[(usize, ChoiceLine)],
) -> Result<Vec<(usize, u32)>, AllocError>
    ensures { IfOk result (λ found. found.items ≡ other_choices_of (tree_of_settled settled.now) values.now lines.now) }
{
    if lines.is_empty() {
        return Ok(Vec::new(alloc));
    }
    if !has_no_version(settled.tree().language()) {
        return Ok(Vec::new(alloc));
    }
    let groups = groups_of(alloc, lines)?;
    group_places(alloc, settled, values, groups)
}
