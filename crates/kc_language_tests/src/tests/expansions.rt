//! Trees in memory, expanded.
use kc_answers::Answers;
use kc_expansion::{ExpandedTree, ExpansionOutcome, expand, wants};
use kc_files::{FileStop, TreeFiles};
use kc_macros::{MacroFault, MacroKind};
use kc_value::Seed;
use kmin_fakes::{Script, Then, twice};
use std::alloc::{AllocError, Global};

/// What fails in a tree: nothing, the opening or the reading of the file of a path, or the listing of a folder.
#[derive(Clone, Copy)]
enum Failing {
    Nothing,
    Opening(&'static str),
    Reading(&'static str),
    Listing(&'static str),
}

/// A tree in memory: the texts of paths, the names in folders, and what fails. It counts how often a path is tried, also a missing
/// one, and how many calls failed.
#[derive(Drop)]
struct MemoryTree {
    texts: &'static [(&'static str, &'static str)],
    names: &'static [(&'static str, &'static str)],
    failing: Failing,
    opened: usize,
    failed: u64,
}

/// Whether the file of a path can't be opened.
fn fails_to_open(failing: Failing, path: &[u8]) -> bool {
    match failing {
        Failing::Opening(name) => name.as_bytes() == path,
        _ => false,
    }
}

/// Whether a folder can't be listed.
fn fails_to_list(failing: Failing, folder: &[u8]) -> bool {
    match failing {
        Failing::Listing(name) => name.as_bytes() == folder,
        _ => false,
    }
}

/// How the reading of the file of a path ends.
fn end_of(failing: Failing, path: &[u8]) -> Then {
    match failing {
        Failing::Reading(name) if name.as_bytes() == path => Then::Fail,
        _ => Then::End,
    }
}

/// The text of a path, if it has one.
fn bytes_at(
    alloc: Global,
    texts: &[(&str, &str)],
    path: &[u8],
) -> Result<Option<Vec<u8>>, AllocError> {
    for (name, text) in texts {
        if name.as_bytes() == path {
            return Ok(Some(Vec::from_slice(alloc, text.as_bytes())?));
        }
    }
    Ok(None)
}

/// The names in a folder.
fn names_at(
    alloc: Global,
    names: &[(&str, &str)],
    folder: &[u8],
) -> Result<Vec<Vec<u8>>, AllocError> {
    let mut found = Vec::new(alloc);
    for (place, name) in names {
        if place.as_bytes() == folder {
            found.push(Vec::from_slice(alloc, name.as_bytes())?)?;
        }
    }
    Ok(found)
}

impl TreeFiles for MemoryTree {
    ghost use Rattle.std.specs.Prelude.{None};
    ghost use Rattle.kc_value.specs.FileContents.{unknown};

    type File = Script;

    ghost contents = { λ t. record { file = λ _. unknown; folder = λ _. None; beside = λ _. unknown; failures = t.failed; reference = 0 } };

    fn seed(&self) -> Seed {
        Seed::fixed()
    }

    fn open(&mut self, alloc: Global, path: &[u8]) -> Result<Option<Script>, FileStop> {
        self.opened = self.opened.saturating_add(1);
        if fails_to_open(self.failing, path) {
            self.failed = self.failed.saturating_add(1);
            return Err(FileStop::Failed);
        }
        match bytes_at(alloc, self.texts, path)? {
            Some(bytes) => Ok(Some(Script::new(bytes, 100, end_of(self.failing, path)))),
            None => Ok(None),
        }
    }

    fn close(&mut self, file: Script) {
        self.failed = self.failed.saturating_add(file.failed());
    }

    fn names_in(
        &mut self,
        alloc: Global,
        folder: &[u8],
        _most: usize,
    ) -> Result<Option<Vec<Vec<u8>>>, FileStop> {
        if fails_to_list(self.failing, folder) {
            self.failed = self.failed.saturating_add(1);
            return Err(FileStop::Failed);
        }
        Ok(Some(names_at(alloc, self.names, folder)?))
    }
}

/// A tree with an assignment, a help text, a joined line, a file that is read twice, one that is missing, and a pattern.
const TEXTS: &[(&str, &str)] = &[
    (
        "Kconfig",
        "name := A\nconfig $(name)\n\tbool \"hello $(name)\"\n\thelp\n\t  $(c) := $d\n\nconfig B\\\n_$(name)\n\tbool \"b\"\nsource \"a/Kconfig\"\nosource \"none\"\nrsource \"a/Kconfig\"\nsource \"b/K*\"\n",
    ),
    ("a/Kconfig", "config C_$(name)\n\tbool \"c\"\nname := X\n"),
    ("b/K1", "config D\n\tbool \"d\"\nrsource \"other\"\n"),
    ("b/K2", "config E\n\tbool \"$(name)\"\n"),
    ("b/other", "config F\n\tbool \"f\"\n"),
];

/// The names of its folder that the pattern is matched with.
const NAMES: &[(&str, &str)] = &[("b/", "K2"), ("b/", "other"), ("b/", "K1")];

/// The keys of the expanded tree, the paths that were read for them, and the expanded texts.
const EXPANDED: &[(&str, &str, &str)] = &[
    ("a/Kconfig", "a/Kconfig", "config C_A\n\tbool \"c\"\n\n"),
    ("Kconfig:11", "Kconfig:11", ""),
    ("a/Kconfig#2", "a/Kconfig", "config C_X\n\tbool \"c\"\n\n"),
    ("b/other", "b/other", "config F\n\tbool \"f\"\n"),
    (
        "b/K1",
        "b/K1",
        "config D\n\tbool \"d\"\nsource \"b/other\"\n",
    ),
    ("b/K2", "b/K2", "config E\n\tbool \"X\"\n"),
    (
        "Kconfig:13",
        "Kconfig:13",
        "source \"b/K1\"\nsource \"b/K2\"\n",
    ),
    (
        "Kconfig",
        "Kconfig",
        "\nconfig A\n\tbool \"hello A\"\n\thelp\n\t  $(c) := $d\n\nconfig B_A\n\n\tbool \"b\"\nsource \"a/Kconfig\"\nsource \"Kconfig:11\"\nsource \"a/Kconfig#2\"\nsource \"Kconfig:13\"\n",
    ),
];

/// A tree with two questions and a missing file.
const ASKING: &[(&str, &str)] = &[(
    "Kconfig",
    "config A\n\tdefault $(ARCH)\n\tbool \"$(FLAG)\"\n\tdefault $(ARCH)\nsource \"none\"\n",
)];

/// Whether this path was read for a key.
fn has_path(tree: &ExpandedTree, parts: &(&str, &str, &str)) -> bool {
    match tree.path_of(parts.0.as_bytes()) {
        Some(path) => path == parts.1.as_bytes(),
        None => false,
    }
}

/// Whether an expanded file has this key, path and text.
fn is_file(tree: &ExpandedTree, at: usize, parts: &(&str, &str, &str)) -> bool {
    match tree.get(at) {
        Some(file) => {
            file.key == parts.0.as_bytes()
                && file.path == parts.1.as_bytes()
                && file.text.as_slice() == parts.2.as_bytes()
        }
        None => false,
    }
}

/// A tree in memory whose files weren't opened yet.
fn memory_tree(
    texts: &'static [(&'static str, &'static str)],
    names: &'static [(&'static str, &'static str)],
) -> MemoryTree {
    MemoryTree {
        texts,
        names,
        failing: Failing::Nothing,
        opened: 0,
        failed: 0,
    }
}

/// The expansion of the first tree, and how many paths were tried for it.
fn expanded(alloc: Global) -> Result<(ExpansionOutcome, usize), AllocError> {
    let mut files = memory_tree(TEXTS, NAMES);
    let answers = Answers::new(alloc, Seed::fixed());
    let expansion = expand(alloc, &mut files, b"Kconfig", &answers)?;
    Ok((expansion, files.opened))
}

/// The questions of the second tree.
fn asked(alloc: Global, answers: &Answers) -> Result<Result<Vec<Vec<u8>>, MacroFault>, AllocError> {
    let mut files = memory_tree(ASKING, &[]);
    wants(alloc, &mut files, b"Kconfig", answers)
}

#[test]
fn trees_are_expanded(rt: HostRuntime) -> Result<(), std::test::Fail> {
    let (expansion, opened) = twice!(expanded(rt.alloc()));
    assert_eq!(rt; opened, 6);
    assert_eq!(rt; expansion.notices.len(), 0);
    match &expansion.tree {
        Ok(tree) => {
            assert_eq!(rt; tree.len(), EXPANDED.len());
            for (at, parts) in EXPANDED.iter().enumerate() {
                assert!(rt; is_file(tree, at, parts));
                assert!(rt; has_path(tree, parts));
            }
            assert!(rt; tree.path_of(b"none").is_none());
        }
        Err(_) => assert!(rt; false),
    }
    Ok(())
}

#[test]
fn questions_come_before_the_fault(rt: HostRuntime) -> Result<(), std::test::Fail> {
    let mut answers = Answers::new(rt.alloc(), Seed::fixed());
    match twice!(asked(rt.alloc(), &answers)) {
        Ok(questions) => {
            assert_eq!(rt; questions.len(), 2);
            for (question, name) in questions.iter().zip([&b"ARCH"[..], b"FLAG"]) {
                assert_eq!(rt; question.as_slice(), name);
            }
        }
        Err(_) => assert!(rt; false),
    }
    twice!(answers.set(b"ARCH", Some(b"x86")));
    twice!(answers.set(b"FLAG", None));
    match twice!(asked(rt.alloc(), &answers)) {
        Ok(_) => assert!(rt; false),
        Err(fault) => {
            assert_eq!(rt; fault.line, 5);
            assert!(rt; matches!(fault.kind, MacroKind::MissingFile));
        }
    }
    Ok(())
}

/// The line that sources a file of the folder `b`, in each way in which a file may be missing or has to be there.
const SOURCING: &[&[(&str, &str)]] = &[
    &[
        ("Kconfig", "config A\n\tbool\nsource \"b/K1\"\n"),
        ("b/K1", "config B\n"),
    ],
    &[
        ("Kconfig", "config A\n\tbool\nosource \"b/K1\"\n"),
        ("b/K1", "config B\n"),
    ],
    &[
        ("Kconfig", "config A\n\tbool\nsource \"b/K*\"\n"),
        ("b/K1", "config B\n"),
    ],
    &[
        ("Kconfig", "config A\n\tbool\norsource \"b/?1\"\n"),
        ("b/K1", "config B\n"),
    ],
];

/// The fault of a tree in which something fails, if it has one, and how many calls failed.
fn fault_where(
    alloc: Global,
    texts: &'static [(&'static str, &'static str)],
    failing: Failing,
) -> Result<(Option<MacroFault>, u64), AllocError> {
    let mut files = memory_tree(texts, &[("b/", "K1")]);
    files.failing = failing;
    let answers = Answers::new(alloc, Seed::fixed());
    let ExpansionOutcome { tree, .. } = expand(alloc, &mut files, b"Kconfig", &answers)?;
    match tree {
        Ok(_) => Ok((None, files.failed)),
        Err(fault) => Ok((Some(fault), files.failed)),
    }
}

/// Whether a tree in which one call fails, which is counted, is refused with `MissingFile` at this line.
fn misses_a_file(
    alloc: Global,
    texts: &'static [(&'static str, &'static str)],
    failing: Failing,
    line: u32,
) -> Result<bool, AllocError> {
    let (fault, failed) = fault_where(alloc, texts, failing)?;
    match fault {
        Some(fault) => {
            Ok(failed == 1 && fault.line == line && matches!(fault.kind, MacroKind::MissingFile))
        }
        None => Ok(false),
    }
}

#[test]
fn files_that_fail_are_never_passed_over(rt: HostRuntime) -> Result<(), std::test::Fail> {
    for texts in SOURCING {
        let (fault, failed) = twice!(fault_where(rt.alloc(), texts, Failing::Nothing));
        assert!(rt; fault.is_none() && failed == 0);
        assert!(rt; twice!(misses_a_file(rt.alloc(), texts, Failing::Opening("b/K1"), 3)));
        assert!(rt; twice!(misses_a_file(rt.alloc(), texts, Failing::Reading("b/K1"), 3)));
        assert!(rt; twice!(misses_a_file(rt.alloc(), texts, Failing::Opening("Kconfig"), 0)));
    }
    Ok(())
}

#[test]
fn folders_that_fail_are_never_passed_over(rt: HostRuntime) -> Result<(), std::test::Fail> {
    for texts in &SOURCING[2..] {
        assert!(rt; twice!(misses_a_file(rt.alloc(), texts, Failing::Listing("b/"), 3)));
    }
    Ok(())
}
