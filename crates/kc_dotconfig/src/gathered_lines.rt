//! What the lines of a configuration file assign to members of choices.
ghost use Rattle.std.specs.Prelude.{◌≡◌, IfOk, OnOk};
ghost use Rattle.kc_dotconfig.specs.checker.GatheredLines.{with_unit, joined};
ghost use Rattle.kc_dotconfig_model.specs.OtherChoices.{kept_last};

use super::assigned_values::AssignedValues;
use super::maps::put;
use kc_rules_model::{MemberLine, MemberLines, UserValue};
use std::alloc::{AllocError, Global};
use std::collections::{BTreeMap, BTreeSet};

/// Each member's last assignment, in order. An `Err` means out of memory.
pub fn last_lines(alloc: Global, lines: &[MemberLine]) -> Result<Vec<MemberLine>, AllocError>
    ensures { IfOk result (λ kept. kept.items ≡ kept_last lines.now) }
{
    let mut seen = BTreeSet::new(alloc);
    let mut kept = Vec::new(alloc);
    for i in (0..lines.len()).rev() {
        let line = lines[i];
        match seen.insert(line.member.number()) {
            Ok(true) => kept.push(line)?,
            Ok(false) => {}
            Err(_) => return Err(AllocError),
        }
    }
    kept.reverse();
    Ok(kept)
}

/// Puts the assignments of members that are gathered for a unit into a map of user values, unless it has one of the unit. An `Err`
/// means out of memory.
fn put_lines(
    alloc: Global,
    map: &mut BTreeMap<u32, UserValue>,
    unit: u32,
    lines: &[MemberLine],
) -> Result<(), AllocError>
    ensures { OnOk result (map.new.entries ≡ with_unit map.old.entries unit lines.now) }
{
    if map.contains_key(&unit) {
        return Ok(());
    }
    let kept = last_lines(alloc, lines)?;
    put(map, unit, UserValue::Lines(MemberLines::from_vec(kept)))
}

/// User values in ascending order of units, with those of gathered assignments of members for the units that have no other. An
/// `Err` means out of memory.
#[tactic(auto, using(crate::proofs::GatheredLines::joined_push))]
pub(crate) fn with_lines(
    alloc: Global,
    assigned: AssignedValues,
    gathered: BTreeMap<u32, Vec<MemberLine>>,
) -> Result<Vec<(u32, UserValue)>, AllocError>
    ensures { IfOk result (λ list. list.items ≡ joined assigned gathered.entries) }
{
    if gathered.is_empty() {
        return assigned.into_list();
    }
    let mut map = assigned.into_map()?;
    let groups: Vec<(u32, Vec<MemberLine>)> = gathered.into_iter().collect(alloc)?;
    for (unit, lines) in groups {
        put_lines(alloc, &mut map, unit, &lines)?;
    }
    map.into_iter().collect(alloc)
}
