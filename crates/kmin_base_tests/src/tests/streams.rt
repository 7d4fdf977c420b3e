//! The reader and the writer that tests are made with.
use kc_value::{Failed, Sink, Source};
use kmin_fakes::{Bounded, Script, Then, twice};

#[test]
fn a_script_is_followed(rt: HostRuntime) -> Result<(), std::test::Fail> {
    for (then, third, fourth) in [
        (Then::End, Ok(0), Ok(0)),
        (Then::Fail, Err(Failed), Err(Failed)),
        (Then::FailOnce, Err(Failed), Ok(0)),
        (Then::Again, Ok(2), Ok(1)),
    ] {
        let mut script = Script::new(twice!(Vec::from_slice(rt.alloc(), b"abc")), 2, then);
        let mut buf = [0u8; 8];
        for result in [Ok(2), Ok(1), third, fourth] {
            assert_eq!(rt; script.read_some(&mut buf), result);
        }
    }
    Ok(())
}

/// Whether a writer has this result for three bytes each time.
fn has_results(mut writer: Bounded, results: [Result<usize, Failed>; 3]) -> bool {
    let mut are_equal = true;
    for result in results {
        are_equal &= writer.write_some(b"abc") == result;
    }
    are_equal
}

#[test]
fn a_full_writer_is_followed(rt: HostRuntime) -> Result<(), std::test::Fail> {
    let alloc = rt.alloc();
    let writer = twice!(Bounded::new(alloc, 2, false));
    assert!(rt; has_results(writer, [Ok(2), Ok(0), Ok(0)]));
    let writer = twice!(Bounded::new(alloc, 2, true));
    assert!(rt; has_results(writer, [Ok(2), Err(Failed), Err(Failed)]));
    let writer = twice!(Bounded::failing_once(alloc, 2, 5));
    assert!(rt; has_results(writer, [Ok(2), Err(Failed), Ok(3)]));
    Ok(())
}
