//! The records of symbols whose values differ.
ghost use Rattle.std.specs.Prelude.{◌≡◌, IfOk, IsUtf8};
ghost use Rattle.kmin_records.specs.Records.{compare_record};

use crate::members::write_bytes;
use crate::record::{begin_record, end_record};
use std::alloc::{AllocError, Global};

/// The record of a symbol whose values differ, for `compare`: its name and both values, spelled as its plain line has them, with
/// U+FFFD in place of what isn't UTF-8.
///
/// # Errors
///
/// `AllocError` if memory runs out.
pub fn compare_record(
    alloc: Global,
    name: &str,
    left: &[u8],
    right: &[u8],
) -> Result<Vec<u8>, AllocError>
    ensures line { IfOk result (λ line. line.items ≡ compare_record name.now left.now right.now) }
    ensures utf8 { IfOk result (λ line. IsUtf8 line.items) }
{
    let mut writer = begin_record(alloc, "name", name)?;
    write_bytes(alloc, &mut writer, "left", left)?;
    write_bytes(alloc, &mut writer, "right", right)?;
    end_record(writer)
}
