//! Files that are minimised from a reader to a writer, which the program doesn't do, and the texts of faults.
use super::test_trees::settled;
use kc_dotconfig::Format;
use kc_dotconfig_model::{LoadFault, LoadKind};
use kc_minimal::{RunFault, WriteFault, minimise};
use kc_rules::{Profile, Settled};
use kc_value::FromRead;
use kmin_fakes::{Bounded, and_drop, is_printed, twice, twice_on};
use std::alloc::{AllocError, Global};
use std::test::Fail;

#[test]
fn faults_are_printed_as_what_failed(rt: HostRuntime) -> Result<(), Fail> {
    let load = LoadFault {
        line: 3,
        kind: LoadKind::Malformed,
    };
    for (fault, text) in [
        (RunFault::Load(load), "Malformed at line 3"),
        (RunFault::Memory, "OutOfMemory"),
        (
            RunFault::Write(WriteFault { written: 4 }),
            "Write after 4 bytes",
        ),
    ] {
        assert!(rt; twice!(is_printed(rt.alloc(), &fault, text)));
    }
    Ok(())
}

/// Whether a file is minimised to these bytes.
fn is_minimised(alloc: Global, file: &str, wanted: &str) -> Result<bool, AllocError> {
    and_drop!(
        tree = settled(alloc, TREE.as_bytes(), Profile::Present)?;
        is_minimised_over(alloc, &tree, file, wanted)
    )
}

/// Whether a file is minimised to these bytes over this tree.
fn is_minimised_over(
    alloc: Global,
    tree: &Settled,
    file: &str,
    wanted: &str,
) -> Result<bool, AllocError> {
    let mut sink = twice!(Bounded::new(alloc, 256, true));
    let is_written = twice_on!(sink.bytes().len(), is_written(alloc, tree, file, &mut sink));
    Ok(is_written && sink.bytes() == wanted.as_bytes())
}

/// Whether a file is minimised without a notice; an `Err` where it isn't accepted too.
fn is_written(
    alloc: Global,
    tree: &Settled,
    file: &str,
    sink: &mut Bounded,
) -> Result<bool, AllocError> {
    let mut source = FromRead::new(file.as_bytes());
    match minimise(alloc, tree, &Format::plain(), &mut source, sink) {
        Ok(notices) => Ok(notices.is_empty()),
        Err(_) => Err(AllocError),
    }
}

const TREE: &str = "config A
    bool \"a\"
    default y
config N
    int \"n\"
    default 10
    range 1 20
config S
    string \"s\"
choice
    prompt \"c\"
config X
    bool \"x\"
config Z
    bool \"z\"
endchoice
";

#[test]
fn files_are_minimised(rt: HostRuntime) -> Result<(), Fail> {
    for (file, wanted) in [
        ("", ""),
        ("CONFIG_A=y\nCONFIG_N=10\nCONFIG_X=y\n", ""),
        ("CONFIG_N=010\n", "CONFIG_N=010\n"),
        ("CONFIG_N=21\n", ""),
        (
            "CONFIG_Z=y\nCONFIG_S=\"a\\\"b\"\n# CONFIG_A is not set\n",
            "# CONFIG_A is not set\nCONFIG_S=\"a\\\"b\"\nCONFIG_Z=y\n",
        ),
    ] {
        assert!(rt; is_minimised(rt.alloc(), file, wanted)?);
    }
    Ok(())
}
