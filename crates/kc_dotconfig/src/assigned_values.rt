//! User values in ascending order of their units.
ghost use Rattle.std.specs.Prelude.{◌≡◌, ℕ, List, [], IfOk, OnOk, IsTrue};
ghost use Rattle.std.specs.BTreeMap.{insert_entry};
ghost use Rattle.std.specs.Ordering.{nat_cmp};
ghost use Rattle.kc_dotconfig.specs.checker.UserValueOrder.{IsAscending, AreBelow};

use super::maps::put;
use kc_rules_model::UserValue;
use std::alloc::{AllocError, Global};
use std::collections::BTreeMap;
use std::marker::Model;
use std::mem;

/// User values by unit, in ascending order. Files mostly assign in this order, so the values are a list as long as units ascend;
/// from the first unit out of order on, they are a map.
#[derive(Drop)]
pub(crate) struct AssignedValues {
    alloc: Global,
    listed: Vec<(u32, UserValue)>,
    mapped: BTreeMap<u32, UserValue>,
}

impl Model for AssignedValues {
    ghost use Rattle.std.specs.Prelude.{◌≡◌, ◌⊎◌, ℕ, List, [], ◌++◌};
    ghost use Rattle.kc_rules_model.specs.declared.values.UserValue.{UserValue};
    ghost use Rattle.kc_dotconfig.specs.checker.UserValueOrder.{IsAscending};

    ghost Value = { List (ℕ × UserValue) };

    ghost view = { λ a. a.listed.items ++ a.mapped.entries };

    ghost invariant = { λ a. IsAscending a.listed.items × ((a.listed.items ≡ []) ⊎ (a.mapped.entries ≡ [])) };
}

/// Whether a unit is greater than all units of an ascending list.
fn is_above(unit: u32, listed: &[(u32, UserValue)]) -> bool
    requires rising { IsAscending listed.now }
    ensures below { IsTrue result → AreBelow unit listed.now }
{
    match listed.last() {
        Some((last, _user)) => *last < unit,
        None => true,
    }
}

/// A list of user values with ascending units as a map by unit.
fn map_of(
    alloc: Global,
    listed: Vec<(u32, UserValue)>,
) -> Result<BTreeMap<u32, UserValue>, AllocError>
    requires rising { IsAscending listed.items }
    ensures ok { IfOk result (λ map. map.entries ≡ listed.items) }
{
    let mut map = BTreeMap::new(alloc);
    for (unit, user) in listed {
        put(&mut map, unit, user)?;
    }
    Ok(map)
}

impl AssignedValues {
    /// A list without user values.
    pub(crate) fn new(alloc: Global) -> AssignedValues
        ensures { result ≡ [] }
    {
        AssignedValues {
            alloc,
            listed: Vec::new(alloc),
            mapped: BTreeMap::new(alloc),
        }
    }

    /// Sets the user value of a unit, and replaces an earlier one.
    #[tactic(auto, using(crate::proofs::AscendingUnits::put_mapped))]
    pub(crate) fn insert(&mut self, unit: u32, user: UserValue) -> Result<(), AllocError>
        ensures { OnOk result (self.new ≡ insert_entry nat_cmp self.old unit user) }
    {
        if !self.mapped.is_empty() {
            return put(&mut self.mapped, unit, user);
        }
        if is_above(unit, &self.listed) {
            self.listed.push((unit, user))?;
            return Ok(());
        }
        let listed = mem::replace(&mut self.listed, Vec::new(self.alloc));
        self.mapped = map_of(self.alloc, listed)?;
        put(&mut self.mapped, unit, user)
    }

    /// The user values by unit. An `Err` means out of memory.
    pub(crate) fn into_map(self) -> Result<BTreeMap<u32, UserValue>, AllocError>
        ensures { IfOk result (λ map. map.entries ≡ self) }
    {
        if self.mapped.is_empty() {
            map_of(self.alloc, self.listed)
        } else {
            Ok(self.mapped)
        }
    }

    /// The user values with their units, in ascending order of units. An `Err` means out of memory.
    pub(crate) fn into_list(self) -> Result<Vec<(u32, UserValue)>, AllocError>
        ensures { IfOk result (λ list. list.items ≡ self) }
    {
        if self.mapped.is_empty() {
            return Ok(self.listed);
        }
        self.mapped.into_iter().collect(self.alloc)
    }
}
