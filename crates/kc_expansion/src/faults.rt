//! Faults of the expansion of a tree.
ghost use Rattle.kc_macros.specs.Runs.{place_of};
ghost use Rattle.kc_macros.specs.between.Stops.{FailsWith};
ghost use Rattle.kc_expansion.specs.checker.ReadingViews.{fault_at};

use kc_macros::{Bytes, MacroFault, MacroKind, Place, Stop};
use std::alloc::Global;

/// The stop of a reading by a fault of this kind at a line, without a text; out of memory where the path of the file can't be
/// copied.
pub(crate) fn fault(alloc: Global, at: Place<'_>, kind: MacroKind) -> Stop
    ensures { FailsWith (fault_at (place_of at.entry) kind) result }
{
    match Bytes::copied(alloc, at.file) {
        Ok(file) => Stop::Fault(MacroFault {
            file,
            line: at.line,
            kind,
            text: Bytes::from_vec(Vec::new(alloc)),
        }),
        Err(_) => Stop::OutOfMemory,
    }
}
