//! The texts of notices and faults.
use kc_dotconfig_model::{LoadFault, LoadKind, NoticeKind};
use kc_rules::SettleFault;
use kmin_fakes::{is_printed, twice};
use std::test::Fail;

#[test]
fn notices_and_faults_are_printed_by_the_names_of_their_kinds(rt: HostRuntime) -> Result<(), Fail> {
    for (kind, name) in [
        (NoticeKind::UnknownSymbol, "UnknownSymbol"),
        (NoticeKind::NotOfType, "NotOfType"),
        (NoticeKind::Escape, "Escape"),
        (NoticeKind::OtherChoice, "OtherChoice"),
    ] {
        assert_eq!(rt; kind.name(), name);
        assert!(rt; twice!(is_printed(rt.alloc(), &kind, kind.name())));
    }
    for (kind, text) in [
        (LoadKind::Malformed, "Malformed at line 3"),
        (LoadKind::NotUtf8, "NotUtf8 at line 3"),
        (LoadKind::LineTooLong, "LineTooLong at line 3"),
        (LoadKind::TooManyLines, "TooManyLines at line 3"),
        (LoadKind::Read, "Read at line 3"),
        (LoadKind::OutOfMemory, "OutOfMemory at line 3"),
        (LoadKind::TooLarge, "TooLarge at line 3"),
    ] {
        assert!(rt; twice!(is_printed(rt.alloc(), &kind, kind.name())));
        let fault = LoadFault { line: 3, kind };
        assert!(rt; twice!(is_printed(rt.alloc(), &fault, text)));
    }
    Ok(())
}

#[test]
fn faults_of_settling_are_printed_by_their_names(rt: HostRuntime) -> Result<(), Fail> {
    let cycle = SettleFault::Cycle(Vec::new(rt.alloc()));
    for (fault, name) in [
        (&cycle, "Cycle"),
        (&SettleFault::OutOfMemory, "OutOfMemory"),
    ] {
        assert!(rt; twice!(is_printed(rt.alloc(), fault, name)));
    }
    Ok(())
}
