//! Configuration files that are each replaced by their minimal file, over a disk in memory.
use super::test_trees::settled;
use kc_dotconfig::Format;
use kc_rules::Profile;
use kmin_fakes::{Bounded, MemoryDisk, twice};
use kmin_records::OutputForm;
use kmin_report::PlainMessages;
use kmin_tidy::{Tidier, TidyOptions, tidy_files};
use std::test::Fail;

const TREE: &str = "config A
    bool \"a\"
    default y
config B
    bool \"b\"
config N
    int \"n\"
    default 10
";

const MINIMAL: &[u8] = b"CONFIG_B=y\n";

/// The minimal files that a run may write.
const TEXTS: &[&[u8]] = &[MINIMAL, b""];

const FILES: [(&str, &[u8]); 6] = [
    ("minimal", MINIMAL),
    ("longer", b"CONFIG_A=y\nCONFIG_B=y\n"),
    ("ends", b"CONFIG_B=y\r\n"),
    ("unknown", b"CONFIG_B=y\nCONFIG_C=y\n"),
    ("malformed", b"\nCONFIG_B=y\nB=y\n"),
    ("other", b"# comment\nCONFIG_N=10\n"),
];

const NOTHING: TidyOptions = TidyOptions {
    write: false,
    drop: false,
    strict: false,
    output_form: OutputForm::Plain,
};

const WRITE: TidyOptions = TidyOptions {
    write: true,
    ..NOTHING
};

const DROP: TidyOptions = TidyOptions {
    drop: true,
    ..WRITE
};

const STRICT: TidyOptions = TidyOptions {
    strict: true,
    ..NOTHING
};

/// A disk with seven changes: the files, and a link. A write takes at most four bytes.
fn disk_with_files(rt: &HostRuntime) -> Result<MemoryDisk<'static>, Fail> {
    let mut disk = MemoryDisk::new(rt.alloc(), TEXTS, 4);
    for (path, bytes) in FILES {
        twice!(disk.add_file(path, bytes));
    }
    twice!(disk.add_special("link"));
    Ok(disk)
}

/// What a run ended with: its status, its output and its messages.
#[derive(Drop)]
struct Ended {
    status: u8,
    out: Bounded,
    err: PlainMessages<Bounded>,
}

/// Runs over the files of these paths. The output takes `room` bytes, and the messages 256.
fn tidied(
    rt: &HostRuntime,
    disk: &mut MemoryDisk<'_>,
    options: TidyOptions,
    paths: &[&str],
    room: usize,
) -> Result<Ended, Fail> {
    let tree = twice!(settled(rt.alloc(), TREE.as_bytes(), Profile::Present));
    let mut out = twice!(Bounded::new(rt.alloc(), room, true));
    let mut err = PlainMessages::new(twice!(Bounded::new(rt.alloc(), 256, true)));
    let by = Tidier {
        alloc: rt.alloc(),
        format: &Format::plain(),
        options,
    };
    let status = tidy_files(&by, &tree, paths, disk, &mut out, &mut err);
    drop(tree);
    Ok(Ended { status, out, err })
}

/// Whether a run ends with this status and writes these texts.
fn ends_as(
    rt: &HostRuntime,
    disk: &mut MemoryDisk<'_>,
    options: TidyOptions,
    paths: &[&str],
    wanted: (u8, &str, &str),
) -> Result<bool, Fail> {
    let (status, text, errors) = wanted;
    let ended = tidied(rt, disk, options, paths, 256)?;
    let is_written = ended.out.bytes() == text.as_bytes();
    Ok(ended.status == status && is_written && ended.err.sink().bytes() == errors.as_bytes())
}

/// The result of a test that passes if `check` holds over a disk with the files. Where an allocation is refused a run ends, so each
/// test tries once more, over a new disk.
macro_rules! holds_over_files {
    ($rt:expr, $check:ident $(, $given:expr)?) => {{
        let mut first = disk_with_files(&$rt)?;
        let mut second = disk_with_files(&$rt)?;
        let holds = $check(&$rt, &mut first $(, $given)?)? || $check(&$rt, &mut second $(, $given)?)?;
        assert!($rt; holds);
        Ok(())
    }};
}

/// Whether a run that replaces nothing lists the files that aren't minimal.
fn lists_files(rt: &HostRuntime, disk: &mut MemoryDisk<'_>) -> Result<bool, Fail> {
    let mut holds = ends_as(rt, disk, NOTHING, &["minimal"], (0, "", ""))?;
    let text = "longer: 1 out, 0 in\nends: line ends\n";
    let paths = ["longer", "minimal", "ends"];
    holds &= ends_as(rt, disk, NOTHING, &paths, (1, text, ""))?;
    let text = "unknown: 1 out, 0 in\n";
    let errors = "unknown:2: UnknownSymbol\n";
    holds &= ends_as(rt, disk, NOTHING, &["unknown"], (1, text, errors))?;
    Ok(holds && disk.changes() == 7)
}

#[test]
fn files_that_are_not_minimal_are_listed(rt: HostRuntime) -> Result<(), Fail> {
    holds_over_files!(rt, lists_files)
}

/// Whether files are replaced, and a second run leaves them as they are.
fn replaces_files(rt: &HostRuntime, disk: &mut MemoryDisk<'_>) -> Result<bool, Fail> {
    let paths = ["longer", "other", "minimal", "ends"];
    let text = "longer: 1 out, 0 in\nother: 2 out, 0 in\nends: line ends\n";
    let mut holds = ends_as(rt, disk, WRITE, &paths, (0, text, ""))?;
    holds &= disk.bytes_at("longer") == Some(MINIMAL) && disk.bytes_at("other") == Some(b"");
    holds &= disk.bytes_at("ends") == Some(MINIMAL) && disk.changes() == 13;
    holds &= ends_as(rt, disk, WRITE, &paths, (0, "", ""))?;
    Ok(holds && disk.changes() == 13)
}

#[test]
fn files_are_replaced_once(rt: HostRuntime) -> Result<(), Fail> {
    holds_over_files!(rt, replaces_files)
}

/// Whether a file with a notice is refused where it would be written, and under `strict`.
fn refuses_notices(rt: &HostRuntime, disk: &mut MemoryDisk<'_>) -> Result<bool, Fail> {
    let errors = "unknown:2: UnknownSymbol\n";
    let mut holds = ends_as(rt, disk, WRITE, &["unknown"], (4, "", errors))?;
    holds &= ends_as(rt, disk, STRICT, &["unknown"], (4, "", errors))?;
    holds &= disk.changes() == 7;
    let text = "unknown: 1 out, 0 in\n";
    holds &= ends_as(rt, disk, DROP, &["unknown"], (0, text, errors))?;
    Ok(holds && disk.bytes_at("unknown") == Some(MINIMAL))
}

#[test]
fn lines_with_notices_are_lost_if_asked(rt: HostRuntime) -> Result<(), Fail> {
    holds_over_files!(rt, refuses_notices)
}

/// Whether refused files stay as they are, the run goes on, and the first of them decides the status.
fn passes_refused_files(rt: &HostRuntime, disk: &mut MemoryDisk<'_>) -> Result<bool, Fail> {
    let text = "longer: 1 out, 0 in\n";
    let errors = "malformed:3: Malformed\nnone:0: Read\n";
    let paths = ["malformed", "none", "longer"];
    let mut holds = ends_as(rt, disk, WRITE, &paths, (4, text, errors))?;
    holds &= disk.bytes_at("longer") == Some(MINIMAL) && disk.changes() == 9;
    let errors = "link:0: NotRegular\nmalformed:3: Malformed\n";
    let paths = ["link", "malformed"];
    holds &= ends_as(rt, disk, WRITE, &paths, (5, "", errors))?;
    let errors = "link:0: Read\n";
    let text = "ends: line ends\n";
    holds &= ends_as(rt, disk, NOTHING, &["link", "ends"], (5, text, errors))?;
    Ok(holds && disk.changes() == 9)
}

#[test]
fn the_first_refused_file_decides(rt: HostRuntime) -> Result<(), Fail> {
    holds_over_files!(rt, passes_refused_files)
}

/// Whether a file stays where a call fails and has no line, and the run goes on to the next. The calls are a creation, three
/// writes, a sync and a rename; the folder is synced last, when the new bytes are in place.
fn goes_on_after(rt: &HostRuntime, disk: &mut MemoryDisk<'_>, calls: u64) -> Result<bool, Fail> {
    disk.fail_after(calls, 1);
    let text = if calls < 6 {
        "ends: line ends\n"
    } else {
        "longer: 1 out, 0 in\nends: line ends\n"
    };
    let paths = ["longer", "ends"];
    let mut holds = ends_as(rt, disk, WRITE, &paths, (5, text, "longer: Write\n"))?;
    let kept = disk.bytes_at("longer") == Some(b"CONFIG_A=y\nCONFIG_B=y\n");
    holds &= kept == (calls < 6) && disk.bytes_at("ends") == Some(MINIMAL);
    Ok(holds && disk.failures() == 1)
}

#[test]
fn each_call_of_the_disk_fails_in_turn(rt: HostRuntime) -> Result<(), Fail> {
    for calls in 0..7 {
        let result: Result<(), Fail> = holds_over_files!(rt, goes_on_after, calls);
        result?;
    }
    Ok(())
}

/// Whether a run ends where the new file can't be removed: nothing is listed, and the next file isn't replaced.
fn ends_at_a_remaining_file(rt: &HostRuntime, disk: &mut MemoryDisk<'_>) -> Result<bool, Fail> {
    disk.fail_after(2, 2);
    let ended = tidied(rt, disk, WRITE, &["longer", "ends"], 64)?;
    let errors = ended.err.sink().bytes();
    let mut holds = ended.status == 5 && ended.out.bytes().is_empty() && disk.failures() == 2;
    holds &= errors.starts_with(b".kmin-") && errors.ends_with(b": Left\n");
    Ok(holds && disk.bytes_at("ends") == Some(b"CONFIG_B=y\r\n"))
}

#[test]
fn a_new_file_that_remains_ends_the_run(rt: HostRuntime) -> Result<(), Fail> {
    holds_over_files!(rt, ends_at_a_remaining_file)
}

/// Whether a run whose output can't be written has the status 5, and has replaced its files.
fn ends_at_a_failed_write(rt: &HostRuntime, disk: &mut MemoryDisk<'_>) -> Result<bool, Fail> {
    let ended = tidied(rt, disk, WRITE, &["longer"], 6)?;
    let is_begun = ended.status == 5 && ended.out.bytes() == "longer".as_bytes();
    let holds = is_begun && ended.err.sink().bytes() == "output: Write\n".as_bytes();
    Ok(holds && disk.bytes_at("longer") == Some(MINIMAL))
}

#[test]
fn a_failed_output_decides(rt: HostRuntime) -> Result<(), Fail> {
    holds_over_files!(rt, ends_at_a_failed_write)
}

/// Whether a run over a file that isn't there and one that can't be read reports and counts both, and changes nothing.
fn counts_unread_files(rt: &HostRuntime, disk: &mut MemoryDisk<'_>) -> Result<bool, Fail> {
    disk.fail_reads_after(0);
    let errors = "none:0: Read\nlonger:1: Read\n";
    let holds = ends_as(rt, disk, WRITE, &["none", "longer"], (5, "", errors))?;
    Ok(holds && disk.failures() == 2 && disk.changes() == 7)
}

#[test]
fn unread_files_are_counted(rt: HostRuntime) -> Result<(), Fail> {
    holds_over_files!(rt, counts_unread_files)
}
