//! Files that are minimised from a reader that gives them in pieces or fails, and to a writer that fails.
ghost use Rattle.std.specs.Prelude.{◌<◌};

use super::test_trees::settled;
use kc_dotconfig::Format;
use kc_dotconfig_model::{LoadFault, LoadKind};
use kc_minimal::{RunFault, WriteFault, minimise};
use kc_rules::{Profile, Settled};
use kmin_fakes::{Bounded, Script, Then, and_drop, twice, twice_on};
use std::alloc::{AllocError, Global};
use std::test::Fail;

/// A file, and what its reader does after it; how many notices it has or why it isn't minimised, and what is written.
#[derive(Clone, Copy)]
struct Case<'a> {
    file: &'a [u8],
    then: Then,
    outcome: Result<usize, RunFault>,
    written: &'static [u8],
}

/// A file that is refused.
fn refused(file: &[u8], then: Then, line: u32, kind: LoadKind) -> Case<'_> {
    Case {
        file,
        then,
        outcome: Err(RunFault::Load(LoadFault { line, kind })),
        written: b"",
    }
}

const BOOL: &[u8] = b"config A\n\tbool \"a\"\n";

const NUMBER: &[u8] = b"config N\n\tint \"n\"\n\trange 10 20\n\tdefault 5\n";

/// Files over the tree `BOOL`, each with its outcome.
fn cases() -> [Case<'static>; 7] {
    [
        Case {
            file: b"#\n# Automatically generated file; DO NOT EDIT.\n#\nCONFIG_A=y  \n",
            then: Then::End,
            outcome: Ok(0),
            written: b"CONFIG_A=y\n",
        },
        Case {
            file: b"CONFIG_GONE=1\nCONFIG_A=m\n",
            then: Then::End,
            outcome: Ok(2),
            written: b"",
        },
        refused(
            b"CONFIG_A=n\n# x\nFOO=y\n",
            Then::End,
            3,
            LoadKind::Malformed,
        ),
        refused(b"CONFIG_A=y\n#\xff\n", Then::End, 2, LoadKind::NotUtf8),
        refused(b"CONFIG_A=y\n", Then::Fail, 2, LoadKind::Read),
        refused(b"FOO=y\n", Then::Fail, 1, LoadKind::Malformed),
        refused(b"CONFIG_A=y\nCONFIG_A", Then::Fail, 2, LoadKind::Read),
    ]
}

/// The outcome of minimising a file that comes in pieces of at most `most` bytes; an `Err` where memory was refused.
fn outcome(
    alloc: Global,
    tree: &Settled,
    case: &Case<'_>,
    most: usize,
    sink: &mut Bounded,
) -> Result<Result<usize, RunFault>, AllocError>
    requires { 0 < most }
{
    let bytes = Vec::from_slice(alloc, case.file)?;
    let mut source = Script::new(bytes, most, case.then);
    match minimise(alloc, tree, &Format::plain(), &mut source, sink) {
        Ok(notices) => Ok(Ok(notices.len())),
        Err(fault) => if is_memory(fault) {
            Err(AllocError)
        } else {
            Ok(Err(fault))
        },
    }
}

/// Whether a fault means that memory ran out; such a fault of a configuration file has the line 0.
fn is_memory(fault: RunFault) -> bool {
    let line_0 = LoadFault {
        line: 0,
        kind: LoadKind::OutOfMemory,
    };
    fault == RunFault::Memory || fault == RunFault::Load(line_0)
}

/// Whether a file in pieces is minimised as it should be, to a writer that takes `room` bytes and then fails.
fn is_minimised(
    alloc: Global,
    tree: &Settled,
    case: &Case<'_>,
    most: usize,
    room: usize,
) -> Result<bool, AllocError>
    requires { 0 < most }
{
    let mut sink = twice!(Bounded::new(alloc, room, true));
    let outcome = twice_on!(
        sink.bytes().len(),
        outcome(alloc, tree, case, most, &mut sink)
    );
    Ok(outcome == case.outcome && sink.bytes() == case.written)
}

/// Whether each file of `cases` is minimised as it should be, in pieces of each size.
fn are_minimised(alloc: Global) -> Result<bool, AllocError> {
    and_drop!(tree = settled(alloc, BOOL, Profile::Present)?; are_minimised_over(alloc, &tree))
}

/// Whether each file of `cases` is minimised as it should be over this tree, in pieces of each size.
fn are_minimised_over(alloc: Global, tree: &Settled) -> Result<bool, AllocError> {
    let mut are_minimised = true;
    for case in &cases() {
        are_minimised &= is_minimised_in_pieces(alloc, tree, case)?;
    }
    Ok(are_minimised)
}

/// Whether a file is minimised as it should be, in pieces of each size.
fn is_minimised_in_pieces(
    alloc: Global,
    tree: &Settled,
    case: &Case<'_>,
) -> Result<bool, AllocError> {
    let mut holds = is_minimised(alloc, tree, case, 1, 64)?;
    holds &= is_minimised(alloc, tree, case, 2, 64)?;
    holds &= is_minimised(alloc, tree, case, 3, 64)?;
    holds &= is_minimised(alloc, tree, case, 7, 64)?;
    holds &= is_minimised(alloc, tree, case, 4_096, 64)?;
    Ok(holds)
}

#[test]
fn files_in_pieces_are_minimised_alike(rt: HostRuntime) -> Result<(), Fail> {
    assert!(rt; are_minimised(rt.alloc())?);
    Ok(())
}

/// A line of 65,536 bytes, which is a comment, with no newline after it. There is room for one byte more.
fn longest_line(alloc: Global) -> Result<Vec<u8>, AllocError> {
    let mut file = Vec::with_capacity(alloc, 65_537)?;
    file.push(b'#')?;
    file.resize(65_536, b'x')?;
    Ok(file)
}

/// Whether the longest line that is read is accepted, and a line of one byte more refused.
fn are_long_lines_minimised(alloc: Global) -> Result<bool, AllocError> {
    and_drop!(
        tree = settled(alloc, BOOL, Profile::Present)?;
        are_long_lines_minimised_over(alloc, &tree)
    )
}

/// Whether the longest line that is read is accepted over this tree, and a line of one byte more refused.
fn are_long_lines_minimised_over(alloc: Global, tree: &Settled) -> Result<bool, AllocError> {
    let mut file = twice!(longest_line(alloc));
    let accepted = Case {
        file: &file,
        then: Then::End,
        outcome: Ok(0),
        written: b"",
    };
    let is_accepted = is_minimised_in_pieces(alloc, tree, &accepted)?;
    twice!(file.push(b'x'));
    let longer = refused(&file, Then::End, 1, LoadKind::LineTooLong);
    let is_refused = is_minimised_in_pieces(alloc, tree, &longer)?;
    Ok(is_accepted && is_refused)
}

#[test]
fn a_line_in_pieces_may_have_65536_bytes(rt: HostRuntime) -> Result<(), Fail> {
    assert!(rt; are_long_lines_minimised(rt.alloc())?);
    Ok(())
}

/// Whether a file over the tree of this text is minimised as it should be, in pieces of up to 4,096 bytes.
fn is_minimised_once(
    alloc: Global,
    tree: &[u8],
    case: &Case<'_>,
    room: usize,
) -> Result<bool, AllocError> {
    and_drop!(
        tree = settled(alloc, tree, Profile::Present)?;
        is_minimised(alloc, &tree, case, 4_096, room)
    )
}

#[test]
fn a_failed_write_is_reported_with_what_was_written(rt: HostRuntime) -> Result<(), Fail> {
    let case = Case {
        file: b"CONFIG_N=20\n",
        then: Then::End,
        outcome: Err(RunFault::Write(WriteFault { written: 5 })),
        written: b"CONFI",
    };
    assert!(rt; is_minimised_once(rt.alloc(), NUMBER, &case, 5)?);
    Ok(())
}

/// 65,535 empty lines, and one that is malformed.
fn long_file(alloc: Global) -> Result<Vec<u8>, AllocError> {
    let mut file = Vec::with_capacity(alloc, 65_536)?;
    file.resize(65_535, b'\n')?;
    file.push(b'x')?;
    Ok(file)
}

/// Whether the last of more lines than 16 bits can count is refused, and not reported as out of memory.
fn is_line_refused(alloc: Global) -> Result<bool, AllocError> {
    let file = twice!(long_file(alloc));
    let case = refused(&file, Then::End, 65_536, LoadKind::Malformed);
    is_minimised_once(alloc, BOOL, &case, 64)
}

#[test]
fn line_65536_is_refused_and_not_out_of_memory(rt: HostRuntime) -> Result<(), Fail> {
    assert!(rt; is_line_refused(rt.alloc())?);
    Ok(())
}
