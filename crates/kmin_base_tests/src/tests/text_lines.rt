//! The lines in which texts differ, and the paths that lists name.
use kc_value::Seed;
use kmin_fakes::twice;
use kmin_lines::{LineCounts, ListFault, count_lines, listed_paths};
use std::test::Fail;

#[test]
fn lines_are_counted_as_often_as_they_are_there(rt: HostRuntime) -> Result<(), Fail> {
    let alloc = rt.alloc();
    for (old, new, out, in_) in [
        ("", "", 0, 0),
        ("a\nb\na\n", "a\n", 2, 0),
        ("a\n", "a\nb\na\n", 0, 2),
        ("a\nb\n", "b\na\n", 0, 0),
        ("a\r\nb", "b\na\n", 0, 0),
        ("a\n\n# c\n", "a\n", 2, 0),
        ("\n\n", "\n", 1, 0),
        ("a \n", "a\n", 1, 1),
    ] {
        let counts = twice!(count_lines(alloc, Seed::fixed(), old.as_bytes(), new.as_bytes()));
        assert!(rt; counts == LineCounts { out, in_ });
    }
    Ok(())
}

#[test]
fn paths_are_a_line_each(rt: HostRuntime) -> Result<(), Fail> {
    let paths = twice!(listed_paths(rt.alloc(), b"a b\n\nc/d\n\ne", false));
    assert!(rt; paths.as_slice() == ["a b", "c/d", "e"].as_slice());
    Ok(())
}

#[test]
fn paths_are_ended_by_nul(rt: HostRuntime) -> Result<(), Fail> {
    let paths = twice!(listed_paths(rt.alloc(), b"a b\0\0c/d\0", true));
    assert!(rt; paths.as_slice() == ["a b", "c/d"].as_slice());
    Ok(())
}

#[test]
fn lists_are_refused(rt: HostRuntime) -> Result<(), Fail> {
    let alloc = rt.alloc();
    let fault = listed_paths(alloc, b"\xff", false).map(|paths| paths.len());
    assert!(rt; fault == Err(ListFault::NotUtf8));
    let fault = listed_paths(alloc, b"a\nb\0", true).map(|paths| paths.len());
    assert!(rt; fault == Err(ListFault::HasNewline));
    Ok(())
}
