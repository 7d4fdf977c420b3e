//! Files that are replaced over a disk in memory whose calls fail, and views that read such a disk.
use super::other_bytes::{NEW, OLD, TEXTS, disk_with_files, replaced};
use kc_value::Source;
use kmin_disk::{FileKind, ReadDisk, ReadOnly, ReplaceFault};
use kmin_fakes::{MemoryDisk, twice};
use std::test::Fail;

/// Whether the new bytes are in place where the folder isn't synced.
fn is_in_place_unsynced(rt: &HostRuntime) -> Result<bool, Fail> {
    let mut disk = disk_with_files(rt)?;
    disk.fail_after(6, 1);
    let fault = replaced(rt, &mut disk, "a/config", NEW);
    let holds = fault == Err(ReplaceFault::FolderNotSynced)
        && disk.bytes_at("a/config") == Some(NEW)
        && disk.failures() == 1;
    disk.fail_after(7, 1);
    Ok(holds && replaced(rt, &mut disk, "a/config", NEW).is_ok())
}

#[test]
fn a_folder_is_not_synced(rt: HostRuntime) -> Result<(), Fail> {
    holds_over_disk!(rt, is_in_place_unsynced)
}

/// The path of the new file that a failed replacement couldn't remove.
fn remaining_path(fault: Result<(), ReplaceFault>) -> Option<String> {
    match fault {
        Err(ReplaceFault::Left(new_path)) => Some(new_path),
        _ => None,
    }
}

/// Whether a new file remains where the call after these fails and its removal too, and the next new file has another name.
fn remains_after(rt: &HostRuntime, calls: u64) -> Result<bool, Fail> {
    let mut disk = disk_with_files(rt)?;
    disk.fail_after(calls, 2);
    let Some(new_path) = remaining_path(replaced(rt, &mut disk, "a/config", NEW)) else {
        return Ok(false);
    };
    let mut holds = new_path.as_str().starts_with("a/.kmin-") && new_path.len() == 24;
    holds &= disk.kind(&new_path) == FileKind::Regular && disk.bytes_at("a/config") == Some(OLD);
    holds &= disk.failures() == 2;
    holds &= replaced(rt, &mut disk, "a/config", NEW).is_ok();
    holds &= disk.bytes_at("a/config") == Some(NEW) && disk.kind(&new_path) == FileKind::Regular;
    Ok(holds)
}

#[test]
fn a_new_file_remains_where_its_removal_fails(rt: HostRuntime) -> Result<(), Fail> {
    for calls in 1..6 {
        let result: Result<(), Fail> = holds_over_disk!(rt, remains_after, calls);
        result?;
    }
    Ok(())
}

/// Whether all is as it was where each of the eight names of a new file is taken, and each taken name is a call too.
fn is_kept_where_names_are_taken(rt: &HostRuntime) -> Result<bool, Fail> {
    let mut disk = disk_with_files(rt)?;
    let mut holds = true;
    for taken in 0..8 {
        disk.fail_after(taken + 1, 2);
        holds &= remaining_path(replaced(rt, &mut disk, "a/config", NEW)).is_some();
    }
    let changes = disk.changes();
    let fault = replaced(rt, &mut disk, "a/config", NEW);
    Ok(holds && fault == Err(ReplaceFault::NamesTaken) && disk.changes() == changes)
}

#[test]
fn all_names_of_new_files_are_taken(rt: HostRuntime) -> Result<(), Fail> {
    holds_over_disk!(rt, is_kept_where_names_are_taken)
}

/// Whether a write that takes nothing is a failure, and a file without bytes needs none.
fn is_unchanged_by_an_empty_write(rt: &HostRuntime) -> Result<bool, Fail> {
    let mut disk = MemoryDisk::new(rt.alloc(), TEXTS, 0);
    twice!(disk.add_file("config", OLD));
    let fault = replaced(rt, &mut disk, "config", NEW);
    let mut holds = fault == Err(ReplaceFault::Unchanged) && disk.bytes_at("config") == Some(OLD);
    holds &= disk.failures() == 1;
    holds &= replaced(rt, &mut disk, "config", b"").is_ok();
    Ok(holds && disk.bytes_at("config") == Some(b""))
}

#[test]
fn a_write_takes_nothing(rt: HostRuntime) -> Result<(), Fail> {
    holds_over_disk!(rt, is_unchanged_by_an_empty_write)
}

#[test]
fn what_is_no_regular_file_is_refused(rt: HostRuntime) -> Result<(), Fail> {
    let mut disk = disk_with_files(&rt)?;
    assert!(rt; replaced(&rt, &mut disk, "a/link", NEW) == Err(ReplaceFault::NotRegular));
    assert_eq!(rt; disk.changes(), 4);
    assert_eq!(rt; disk.failures(), 0);
    Ok(())
}

#[test]
fn a_view_reads(rt: HostRuntime) -> Result<(), Fail> {
    let mut disk = disk_with_files(&rt)?;
    let mut view = ReadOnly::new(&mut disk);
    assert!(rt; view.kind("a/config") == FileKind::Regular);
    assert!(rt; view.kind("a/link") == FileKind::NotRegular);
    assert!(rt; view.kind("a/none") == FileKind::Missing);
    assert!(rt; view.open_if_there("a/none").is_none());
    let mut reader = view.open("a/config").ok_or("it doesn't open")?;
    let mut buf = [0u8; 32];
    let count = reader.read_some(&mut buf).map_err(|_| "it can't be read")?;
    assert!(rt; &buf[..count] == OLD);
    assert_eq!(rt; view.size_of(&reader), 0);
    view.close(reader);
    assert_eq!(rt; disk.failures(), 0);
    Ok(())
}

/// The failures of a disk after one file that isn't there was opened, and another of which each read fails was read twice.
fn failures_of_reading(rt: &HostRuntime) -> Result<u64, Fail> {
    let mut disk = disk_with_files(rt)?;
    disk.fail_reads_after(0);
    let missing = disk.open("a/none").is_none() && disk.open_if_there("a/none").is_none();
    let mut reader = disk.open("a/config").ok_or("it doesn't open")?;
    let mut buf = [0u8; 32];
    let unread = reader.read_some(&mut buf).is_err() && reader.read_some(&mut buf).is_err();
    disk.close(reader);
    if missing && unread {
        return Ok(disk.failures());
    }
    Ok(0)
}

#[test]
fn what_fails_in_reading_is_counted(rt: HostRuntime) -> Result<(), Fail> {
    let failures = failures_of_reading(&rt)?;
    assert_eq!(rt; failures, 3);
    Ok(())
}

#[test]
fn faults_are_printed_as_what_is_reported(rt: HostRuntime) -> Result<(), Fail> {
    let alloc = rt.alloc();
    for (fault, printed) in [
        (ReplaceFault::NotRegular, "NotRegular"),
        (ReplaceFault::Unchanged, "Write"),
        (ReplaceFault::NamesTaken, "Write"),
        (ReplaceFault::FolderNotSynced, "Write"),
        (ReplaceFault::OutOfMemory, "OutOfMemory"),
        (ReplaceFault::Left(String::new(alloc)), "Left"),
    ] {
        let text = twice!(format!(in alloc; "{fault}"));
        assert_eq!(rt; text.as_str(), printed);
    }
    Ok(())
}
