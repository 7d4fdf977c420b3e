//! Updating a file to given bytes, unless it has them already.
ghost use Rattle.std.specs.Prelude.{◌≡◌, ◌≢◌, Some, Ok, Err, OnOk, IfErr};
ghost use Rattle.kmin_disk.specs.Contents.{IsOfKind, file, nothing, special};
ghost use Rattle.kmin_disk.specs.Disks.{content_at};
ghost use Rattle.kmin_disk.specs.Failures.{failures_after_update};
ghost use Rattle.kmin_disk.specs.Replacements.{HasTakenName};
ghost use Rattle.kmin_disk.specs.Updates.{UpdateLeaves, Updates};

use crate::comparison::has_bytes;
use crate::disk::WriteDisk;
use crate::fault::{ReplaceFault, UpdateFault};
use crate::kind::FileKind;
use crate::replacement::replace;
use kc_value::Failed;
use std::alloc::Global;

/// Updates the file at a path to these bytes, whole or not at all. A missing file is made, and one that has the bytes
/// already is left alone.
///
/// A file that has other bytes, or that can't be opened, is replaced as by [`replace`]. A link, a folder, a pipe or a device
/// at the end of the path is refused, and isn't opened.
pub fn update<D: WriteDisk>(
    alloc: Global,
    disk: &mut D,
    path: &str,
    bytes: &[u8],
) -> Result<(), UpdateFault>
    // Nothing changed, since the file may have had the bytes; or the old bytes are at the path up to some moment, and
    // from then on the new ones.
    ensures ok { OnOk result (Updates (D.disk disk.old).state (D.disk disk.new).state path.now bytes.now) }
    ensures err { IfErr result (UpdateLeaves (D.disk disk.old).state (D.disk disk.new).state path.now bytes.now) }

    // A file of equal bytes is left alone, whatever fails.
    ensures equal { content_at (D.disk disk.old).state path.now ≡ Some (file bytes.now) → (D.disk disk.new).state ≡ (D.disk disk.old).state }

    // No read and no call that changes files failed where the result is `Ok`, and a read did at `Unread`; at a fault of
    // replacing the count is that of `replace`.
    ensures failures { (D.disk disk.new).failures ≡ failures_after_update (D.disk disk.old).failures result }

    ensures not_regular { result ≡ Err (UpdateFault.Replace ReplaceFault.NotRegular) → IsOfKind (content_at (D.disk disk.old).state path.now) FileKind.NotRegular }
    ensures refused { content_at (D.disk disk.old).state path.now ≡ Some special → result ≡ Err (UpdateFault.Replace ReplaceFault.NotRegular) }
    ensures missing { content_at (D.disk disk.old).state path.now ≡ Some nothing → result ≢ Err UpdateFault.Unread }
    ensures names_taken { result ≡ Err (UpdateFault.Replace ReplaceFault.NamesTaken) → HasTakenName (D.disk disk.old).state path.now }
{
    match has_bytes(disk, path, bytes) {
        Ok(true) => Ok(()),
        Ok(false) => match replace(alloc, disk, path, bytes) {
            Ok(()) => Ok(()),
            Err(fault) => Err(UpdateFault::Replace(fault)),
        },
        Err(Failed) => Err(UpdateFault::Unread),
    }
}
