//! `update` gives files their bytes, over a disk in memory whose calls and reads fail.
use super::other_bytes::{LONG, NEW, OLD, disk_with_files, updated};
use kmin_disk::{FileKind, ReadDisk, ReplaceFault, UpdateFault};
use kmin_fakes::twice;
use std::test::Fail;

/// Whether files that have the wanted bytes already are left as they are, on a disk where every change would fail.
fn are_unchanged(rt: &HostRuntime) -> Result<bool, Fail> {
    let mut disk = disk_with_files(rt)?;
    disk.fail_after(0, 100);
    let mut holds = true;
    for (path, bytes) in [("a/config", OLD), ("a/empty", b""), ("a/long", LONG)] {
        holds &= updated(rt, &mut disk, path, bytes).is_ok();
    }
    Ok(holds && disk.changes() == 4 && disk.failures() == 0)
}

#[test]
fn files_with_equal_bytes_are_unchanged(rt: HostRuntime) -> Result<(), Fail> {
    let holds = are_unchanged(&rt)?;
    assert!(rt; holds);
    Ok(())
}

#[test]
fn a_link_is_not_written_through(rt: HostRuntime) -> Result<(), Fail> {
    let mut disk = disk_with_files(&rt)?;
    let fault = updated(&rt, &mut disk, "a/link", NEW);
    let holds = fault == Err(UpdateFault::Replace(ReplaceFault::NotRegular));
    assert!(rt; holds && disk.changes() == 4 && disk.kind("a/link") == FileKind::NotRegular);
    Ok(())
}

/// Whether the faults report a new file that can't be removed, and then a folder that isn't synced. In the second run the name
/// of that file is taken, which costs one call more.
fn are_reported(rt: &HostRuntime) -> Result<bool, Fail> {
    let mut disk = disk_with_files(rt)?;
    disk.fail_after(5, 2);
    let mut holds = match updated(rt, &mut disk, "a/none", NEW) {
        Err(UpdateFault::Replace(ReplaceFault::Left(new_path))) => {
            disk.kind(&new_path) == FileKind::Regular
        }
        _ => false,
    };
    holds &= disk.kind("a/none") == FileKind::Missing && disk.failures() == 2;
    disk.fail_after(7, 1);
    let fault = updated(rt, &mut disk, "a/none", NEW);
    holds &= fault == Err(UpdateFault::Replace(ReplaceFault::FolderNotSynced));
    Ok(holds && disk.bytes_at("a/none") == Some(NEW) && disk.failures() == 3)
}

#[test]
fn a_remaining_new_file_and_an_unsynced_folder_are_reported(rt: HostRuntime) -> Result<(), Fail> {
    holds_over_disk!(rt, are_reported)
}

/// Whether a file stays as it is where a read of it fails, even if it has the wanted bytes, and the read is counted. Then, with
/// reads still failing, a long file is replaced whose first read shows a difference, and a missing one is made.
fn are_unread(rt: &HostRuntime) -> Result<bool, Fail> {
    let mut disk = disk_with_files(rt)?;
    let mut holds = true;
    for (reads, path, bytes) in [
        (0, "a/config", NEW),
        (0, "a/empty", b""),
        (1, "a/config", OLD),
        (1, "a/long", LONG),
    ] {
        disk.fail_reads_after(reads);
        holds &= updated(rt, &mut disk, path, bytes) == Err(UpdateFault::Unread);
    }
    holds &= disk.changes() == 4 && disk.failures() == 4;
    holds &= updated(rt, &mut disk, "a/long", NEW).is_ok();
    Ok(holds && updated(rt, &mut disk, "a/none", NEW).is_ok())
}

#[test]
fn a_file_is_unread(rt: HostRuntime) -> Result<(), Fail> {
    holds_over_disk!(rt, are_unread)
}

#[test]
fn faults_are_printed_as_what_is_reported(rt: HostRuntime) -> Result<(), Fail> {
    let alloc = rt.alloc();
    for (fault, printed) in [
        (UpdateFault::Unread, "Write"),
        (UpdateFault::Replace(ReplaceFault::NotRegular), "NotRegular"),
        (UpdateFault::Replace(ReplaceFault::Unchanged), "Write"),
        (
            UpdateFault::Replace(ReplaceFault::Left(String::new(alloc))),
            "Left",
        ),
    ] {
        let text = twice!(format!(in alloc; "{fault}"));
        assert_eq!(rt; text.as_str(), printed);
    }
    Ok(())
}
