//! What `replace` and `update` do alike, over a disk in memory: files get other bytes, and each call of the disk fails in turn.
use kmin_disk::{ReplaceFault, UpdateFault, replace, update};
use kmin_fakes::{MemoryDisk, twice};
use std::test::Fail;

pub(super) const OLD: &[u8] = b"CONFIG_A=y\nCONFIG_B=n\n";

pub(super) const NEW: &[u8] = b"CONFIG_A=y\n";

/// As many bytes as are read at once, and one more.
pub(super) const LONG: &[u8] = &[b'#'; 8193];

pub(super) const TEXTS: &[&[u8]] = &[NEW, b"", LONG];

/// A disk with an old file, an empty one, a long one and a link. A write takes at most four bytes.
pub(super) fn disk_with_files(rt: &HostRuntime) -> Result<MemoryDisk<'static>, Fail> {
    let mut disk = MemoryDisk::new(rt.alloc(), TEXTS, 4);
    twice!(disk.add_file("a/config", OLD));
    twice!(disk.add_file("a/empty", b""));
    twice!(disk.add_file("a/long", LONG));
    twice!(disk.add_special("a/link"));
    Ok(disk)
}

/// Replaces a file of a disk in memory. All tests call this, so that `replace` is proved for such a disk once.
pub(super) fn replaced(
    rt: &HostRuntime,
    disk: &mut MemoryDisk<'_>,
    path: &str,
    bytes: &[u8],
) -> Result<(), ReplaceFault> {
    replace(rt.alloc(), disk, path, bytes)
}

/// Gives a file of a disk in memory its bytes. All tests call this, so that `update` is proved for such a disk once.
pub(super) fn updated(
    rt: &HostRuntime,
    disk: &mut MemoryDisk<'_>,
    path: &str,
    bytes: &[u8],
) -> Result<(), UpdateFault> {
    update(rt.alloc(), disk, path, bytes)
}

/// The calls that give a file other bytes.
#[derive(Clone, Copy)]
enum Call {
    Replace,
    Update,
}

/// Gives a file of a disk in memory its bytes by one of the calls.
fn given(
    rt: &HostRuntime,
    call: Call,
    disk: &mut MemoryDisk<'_>,
    path: &str,
    bytes: &[u8],
) -> Result<(), UpdateFault> {
    match call {
        Call::Replace => replaced(rt, disk, path, bytes).map_err(UpdateFault::Replace),
        Call::Update => updated(rt, disk, path, bytes),
    }
}

/// Whether a file of other bytes is replaced, and a missing one made. Each takes two changes of the disk, after four for the
/// files that were added. The first two new texts are the beginning of the old one, and an empty one.
fn is_replaced_or_made(rt: &HostRuntime, call: Call) -> Result<bool, Fail> {
    let mut holds = true;
    for (path, new) in [
        ("a/config", NEW),
        ("a/config", b""),
        ("a/empty", NEW),
        ("a/empty", LONG),
        ("a/long", NEW),
        ("a/none", NEW),
        ("none", NEW),
        ("none", b""),
    ] {
        let mut disk = disk_with_files(rt)?;
        holds &= given(rt, call, &mut disk, path, new).is_ok();
        holds &= disk.bytes_at(path) == Some(new) && disk.changes() == 6 && disk.failures() == 0;
    }
    Ok(holds)
}

#[test]
fn a_file_is_replaced_or_made(rt: HostRuntime) -> Result<(), Fail> {
    holds_over_disk!(rt, is_replaced_or_made, Call::Replace)
}

#[test]
fn a_file_is_updated_or_made(rt: HostRuntime) -> Result<(), Fail> {
    holds_over_disk!(rt, is_replaced_or_made, Call::Update)
}

/// Whether the old file stays where any call fails. The calls are a creation, three writes, a sync and a rename; where the
/// creation fails nothing was made, else it was removed.
fn is_kept_by_each_failure(rt: &HostRuntime, call: Call) -> Result<bool, Fail> {
    let mut holds = true;
    for (calls, changes) in [(0, 4), (1, 6), (2, 6), (3, 6), (4, 6), (5, 6)] {
        let mut disk = disk_with_files(rt)?;
        disk.fail_after(calls, 1);
        let fault = given(rt, call, &mut disk, "a/config", NEW);
        holds &= fault == Err(UpdateFault::Replace(ReplaceFault::Unchanged));
        holds &= disk.bytes_at("a/config") == Some(OLD) && disk.changes() == changes;
        holds &= disk.failures() == 1;
    }
    Ok(holds)
}

#[test]
fn each_call_of_a_replacement_fails_in_turn(rt: HostRuntime) -> Result<(), Fail> {
    holds_over_disk!(rt, is_kept_by_each_failure, Call::Replace)
}

#[test]
fn each_call_of_an_update_fails_in_turn(rt: HostRuntime) -> Result<(), Fail> {
    holds_over_disk!(rt, is_kept_by_each_failure, Call::Update)
}
