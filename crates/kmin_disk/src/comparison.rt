//! Whether a file has given bytes.
ghost use Rattle.std.specs.Prelude.{◌≡◌, ◌≢◌, ◌<◌, ◌≤◌, Ok, List, ℕ, None, Some, true, false, IfOk, IfSome, length, take};
ghost use Rattle.std.specs.Io.KnownBytes.{Consumes};
ghost use Rattle.kc_value.specs.Streams.{failures_after_read};
ghost use Rattle.kmin_disk.specs.Contents.{file, nothing, special, MayRead};
ghost use Rattle.kmin_disk.specs.Disks.{content_at};

use crate::disk::ReadDisk;
use crate::kind::FileKind;
use kc_value::{Failed, MAX_BLOCK_BYTES, Source};

/// Whether the file at a path is a regular one of exactly these bytes. It is read up to the first block that differs. A
/// file that can't be opened counts as different.
pub(crate) fn has_bytes<D: ReadDisk>(disk: &mut D, path: &str, bytes: &[u8]) -> Result<bool, Failed>
    ensures equal { IfOk result (λ is. is ≡ true → MayRead (content_at (D.disk disk.old).state path.now) bytes.now) }
    ensures different { IfOk result (λ is. is ≡ false → content_at (D.disk disk.old).state path.now ≢ Some (file bytes.now)) }
    ensures missing { content_at (D.disk disk.old).state path.now ≡ Some nothing → result ≡ Ok false }
    ensures not_regular { content_at (D.disk disk.old).state path.now ≡ Some special → result ≡ Ok false }
    ensures same { (D.disk disk.new).state ≡ (D.disk disk.old).state }
    ensures failures { (D.disk disk.new).failures ≡ failures_after_read (D.disk disk.old).failures result }
{
    match disk.kind(path) {
        FileKind::Regular => opens_with_bytes(disk, path, bytes),
        FileKind::Missing | FileKind::NotRegular => Ok(false),
    }
}

/// Whether the file at a path can be opened and has exactly these bytes.
fn opens_with_bytes<D: ReadDisk>(disk: &mut D, path: &str, bytes: &[u8]) -> Result<bool, Failed>
    ensures equal { IfOk result (λ is. is ≡ true → MayRead (content_at (D.disk disk.old).state path.now) bytes.now) }
    ensures different { IfOk result (λ is. is ≡ false → content_at (D.disk disk.old).state path.now ≢ Some (file bytes.now)) }
    ensures missing { content_at (D.disk disk.old).state path.now ≡ Some nothing → result ≡ Ok false }
    ensures same { (D.disk disk.new).state ≡ (D.disk disk.old).state }
    ensures failures { (D.disk disk.new).failures ≡ failures_after_read (D.disk disk.old).failures result }
{
    match disk.open_if_there(path) {
        Some(file) => opened_has_bytes(disk, file, bytes),
        None => Ok(false),
    }
}

/// Whether an open file has exactly these bytes left. The file is closed.
fn opened_has_bytes<D: ReadDisk>(
    disk: &mut D,
    mut file: D::File,
    bytes: &[u8],
) -> Result<bool, Failed>
    requires unread { D.File.Source.failures file ≡ 0 }
    ensures equal { IfOk result (λ is. (left : List ℕ) → D.File.Source.left file ≡ Some left → is ≡ true → left ≡ bytes.now) }
    ensures different { IfOk result (λ is. (left : List ℕ) → D.File.Source.left file ≡ Some left → is ≡ false → left ≢ bytes.now) }
    ensures same { (D.disk disk.new).state ≡ (D.disk disk.old).state }
    ensures failures { (D.disk disk.new).failures ≡ failures_after_read (D.disk disk.old).failures result }
{
    let result = reads_as(&mut file, bytes);
    disk.close(file);
    result
}

/// Whether a reader has exactly these bytes left. Nothing is read after the first block that differs.
fn reads_as<S: Source>(source: &mut S, bytes: &[u8]) -> Result<bool, Failed>
    ensures equal { IfOk result (λ is. (left : List ℕ) → S.left source.old ≡ Some left → is ≡ true → left ≡ bytes.now) }
    ensures different { IfOk result (λ is. (left : List ℕ) → S.left source.old ≡ Some left → is ≡ false → left ≢ bytes.now) }
    ensures failures { S.failures source.new ≡ failures_after_read (S.failures source.old) result }
{
    let mut block = [0; MAX_BLOCK_BYTES];
    let mut agreed = 0;
    while agreed < bytes.len() {
        match read_expected(source, &mut block, &bytes[agreed..])? {
            Some(count) => agreed += count,
            None => return Ok(false),
        }
    }
    let count = source.read_some(&mut block[..1])?;
    Ok(count == 0)
}

/// Reads some bytes into the front of `block`, and returns their count if `expected` begins with them; `None` if it
/// doesn't, or no bytes are left.
fn read_expected<S: Source>(
    source: &mut S,
    block: &mut [u8],
    expected: &[u8],
) -> Result<Option<usize>, Failed>
    requires room { 0 < length block.old }
    requires some { 0 < length expected.now }
    ensures count { IfOk result (λ agreed. IfSome agreed (λ count. (0 < count) × (count ≤ length expected.now))) }
    ensures equal { IfOk result (λ agreed. IfSome agreed (λ count. Consumes (S.left source.old) (S.left source.new) (take count expected.now))) }
    ensures different { IfOk result (λ agreed. (left : List ℕ) → S.left source.old ≡ Some left → agreed ≡ None → left ≢ expected.now) }
    ensures failures { S.failures source.new ≡ failures_after_read (S.failures source.old) result }
{
    let most = expected.len().min(block.len());
    let part = &mut block[..most];
    let count = source.read_some(part)?;
    if count == 0 {
        return Ok(None);
    }
    if part[..count] == expected[..count] {
        Ok(Some(count))
    } else {
        Ok(None)
    }
}
