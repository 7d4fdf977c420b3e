//! Logs of overwritten values.
ghost use Rattle.std.specs.Prelude.{◌≡◌, ℕ, ◌<◌, List, Some, length, slice_get, slice_set, OnOk};
ghost use Rattle.kc_solver.specs.checker.Logs.{Undoes, LogsOneMore, undone};

use std::alloc::AllocError;

/// Exchanges the value of a unit for another.
fn replace_value<V>(values: &mut [V], u: usize, value: &mut V)
    requires there { u < length values.old }
    ensures written { values.new ≡ slice_set values.old u value.old }
    ensures replaced { slice_get values.old u ≡ Some value.new }
{
    std::mem::swap(&mut values[u], value);
}

/// Writes the value of unit `u`, and adds the old one to the log. If memory runs out, values and log are as before.
pub(crate) fn write_logged<V: Drop>(
    values: &mut [V],
    log: &mut Vec<(u32, V)>,
    u: u32,
    value: V,
) -> Result<(), AllocError>
    requires there { u < length values.old }
    ensures written { OnOk result (values.new ≡ slice_set values.old u value) }
    ensures logged { OnOk result (LogsOneMore log.old.items log.new.items values.old u) }
    ensures undo { (old : List V) → Undoes log.old.items old values.old → Undoes log.new.items old values.new }
{
    log.reserve(1)?;
    let mut value = value;
    replace_value(values, u as usize, &mut value);
    log.push((u, value)).unwrap();
    Ok(())
}

/// Restores the values of a log, the last logged first.
pub(crate) fn restore_logged<V: Drop>(values: &mut [V], log: &mut Vec<(u32, V)>)
    requires units { (k u : ℕ) (a : V) → slice_get log.old.items k ≡ Some (u, a) → u < length values.old }
    ensures restored { values.new ≡ undone log.old.items values.old }
{
    while let Some((u, mut value)) = log.pop() {
        replace_value(values, u as usize, &mut value);
    }
}
