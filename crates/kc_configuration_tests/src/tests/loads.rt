//! Configurations that are changed by files: what changes, and how many rules are evaluated.
use super::test_trees::{changed_by, fragment_twice, settled};
use kc_config::Config;
use kc_dotconfig::Fragment;
use kc_rules::{Profile, Settled};
use kc_value::{Tri, ValueRef};
use kmin_fakes::{and_drop, twice};
use std::alloc::{AllocError, Global};
use std::test::Fail;

/// Three bools, each below the one before, and a choice whose last member isn't visible.
const TREE: &str =
    "config A\n\tbool \"a\"\nconfig B\n\tbool\n\tdefault A\nconfig C\n\tbool \"c\"\n\tdepends on B\nchoice\n\tprompt \"pick\"\nconfig M\n\tbool \"m\"\nconfig H\n\tbool \"h\"\n\tdepends on X\nendchoice\nconfig X\n\tbool \"x\"\n";

/// The text of the tree, with 1,200 symbols more.
fn text(alloc: Global) -> Result<Vec<u8>, AllocError> {
    let mut text = Vec::from_slice(alloc, TREE.as_bytes())?;
    for number in 0..1_200 {
        text.extend_from_slice(&symbol(number))?;
    }
    Ok(text)
}

/// The lines of the symbol of this number.
fn symbol(number: u32) -> [u8; 19] {
    let mut lines = *b"config S0000\n\tbool\n";
    lines[8] = digit(number / 1_000);
    lines[9] = digit(number / 100);
    lines[10] = digit(number / 10);
    lines[11] = digit(number);
    lines
}

/// The last digit of a number.
fn digit(number: u32) -> u8 {
    b'0' + (number % 10) as u8
}

/// A large tree, settled.
fn large_tree(alloc: Global) -> Result<Settled, AllocError> {
    settled(alloc, &twice!(text(alloc)), Profile::Present)
}

/// A file that is merged into a configuration or replaces its assignment, the units whose values it changes, and how
/// many units are evaluated.
struct Change {
    file: &'static str,
    is_merged: bool,
    changed: &'static [u32],
    evaluated: u64,
}

const FIRST: [Change; 2] = [
    Change {
        file: "CONFIG_A=y\n",
        is_merged: false,
        changed: &[0, 1],
        evaluated: 3,
    },
    Change {
        file: "CONFIG_C=y\n",
        is_merged: true,
        changed: &[2],
        evaluated: 1,
    },
];

const OF_A_COPY: Change = Change {
    file: "CONFIG_A=y\n",
    is_merged: false,
    changed: &[2],
    evaluated: 1,
};

const MISSED: [Change; 1] = [Change {
    file: "CONFIG_H=y\n",
    is_merged: true,
    changed: &[],
    evaluated: 1,
}];

const LAST: [Change; 1] = [Change {
    file: "",
    is_merged: false,
    changed: &[0, 1, 2],
    evaluated: 4,
}];

/// Whether a file changes what it should.
fn is_made(alloc: Global, config: &mut Config<'_>, change: &Change) -> Result<bool, AllocError> {
    let report = changed_by(alloc, config, change.file, change.is_merged)?;
    Ok(report.changed.as_slice() == change.changed && report.evaluated == change.evaluated)
}

/// Whether each of these files changes what it should.
fn are_made(
    alloc: Global,
    config: &mut Config<'_>,
    changes: &[Change],
) -> Result<bool, AllocError> {
    for change in changes {
        if !twice!(is_made(alloc, config, change)) {
            return Ok(false);
        }
    }
    Ok(true)
}

/// Whether a copy is equal to its original: replacing its assignment changes what it should.
fn is_copied(alloc: Global, config: &Config<'_>) -> Result<bool, AllocError> {
    and_drop!(mut copy = config.copy()?; is_made(alloc, &mut copy, &OF_A_COPY))
}

/// Whether the symbol of this number is the only one that is missed.
fn is_missed(config: &Config<'_>, number: u32) -> Result<bool, AllocError> {
    let missed = config.missed()?;
    Ok(missed.len() == 1 && missed[0].number() == number)
}

/// Whether each file changes this configuration of the large tree as it should; also whether a copy of the configuration and the
/// list of its missed symbols are right.
fn is_changed(alloc: Global, config: &mut Config<'_>) -> Result<bool, AllocError> {
    let first = are_made(alloc, config, &FIRST)?;
    let is_copied = twice!(is_copied(alloc, config));
    let third = are_made(alloc, config, &MISSED)?;
    let is_missed = twice!(is_missed(config, 4));
    let last = are_made(alloc, config, &LAST)?;
    Ok(first && is_copied && third && is_missed && last)
}

/// Whether each file changes a new configuration of the large tree as it should.
fn is_large_tree_changed(alloc: Global) -> Result<bool, AllocError> {
    and_drop!(tree = large_tree(alloc)?; is_large_tree_changed_in(alloc, &tree))
}

/// Whether each file changes a new configuration of this tree as it should.
fn is_large_tree_changed_in(alloc: Global, tree: &Settled) -> Result<bool, AllocError> {
    and_drop!(mut config = twice!(Config::new(alloc, tree)); is_changed(alloc, &mut config))
}

/// A bool, two with its value, and one below both.
const DIAMOND: &[u8] =
    b"config A\n\tbool \"a\"\nconfig B\n\tbool\n\tdefault A\nconfig C\n\tbool\n\tdefault A\nconfig D\n\tbool\n\tdefault B && C\n";

const OF_THE_DIAMOND: [Change; 2] = [
    Change {
        file: "CONFIG_A=y\n",
        is_merged: true,
        changed: &[0, 1, 2, 3],
        evaluated: 4,
    },
    Change {
        file: "CONFIG_A=y\n",
        is_merged: true,
        changed: &[],
        evaluated: 0,
    },
];

/// Whether the files change the diamond as they should, and a refused file changes nothing.
fn is_diamond_changed(alloc: Global) -> Result<bool, AllocError> {
    and_drop!(
        tree = settled(alloc, DIAMOND, Profile::Present)?;
        is_diamond_changed_in(alloc, &tree)
    )
}

/// Whether the files change a configuration of this diamond as they should, and a refused file changes nothing.
fn is_diamond_changed_in(alloc: Global, tree: &Settled) -> Result<bool, AllocError> {
    let mut config = twice!(Config::new(alloc, tree));
    let are_made = are_made(alloc, &mut config, &OF_THE_DIAMOND);
    let is_refused = changed_by(alloc, &mut config, "CONFIG_A=n\n# x\nFOO=y\n", true).is_err();
    let is_kept = is_y(&config, "A") && is_y(&config, "D");
    drop(config);
    Ok(are_made? && is_refused && is_kept)
}

/// Whether the value of a name is `y`.
fn is_y(config: &Config<'_>, name: &str) -> bool {
    matches!(config.value(name), Some(ValueRef::Tri(Tri::Y)))
}

#[test]
fn each_unit_of_a_diamond_is_evaluated_once(rt: HostRuntime) -> Result<(), Fail> {
    assert!(rt; is_diamond_changed(rt.alloc())?);
    Ok(())
}

#[test]
fn a_configuration_has_what_files_assign(rt: HostRuntime) -> Result<(), Fail> {
    assert!(rt; is_large_tree_changed(rt.alloc())?);
    Ok(())
}

/// Whether what a file assigns over a tree fits another tree.
fn is_fitting(alloc: Global, file: &str, over: &[u8], other: &[u8]) -> Result<bool, AllocError> {
    let tree = settled(alloc, over, Profile::Present)?;
    let fragment = fragment_twice(alloc, &tree, file);
    drop(tree);
    let fragment = fragment?;
    let other = settled(alloc, other, Profile::Present);
    let is_fitting = fits_tree(&fragment, other);
    drop(fragment);
    is_fitting
}

/// Whether a fragment fits a tree.
fn fits_tree(fragment: &Fragment, tree: Result<Settled, AllocError>) -> Result<bool, AllocError> {
    let tree = tree?;
    let fits = fragment.fits(&tree);
    drop(tree);
    Ok(fits)
}

#[test]
fn a_fragment_fits_trees_whose_units_have_its_shapes(rt: HostRuntime) -> Result<(), Fail> {
    let tree = b"config A\n\tbool \"a\"\nconfig N\n\tint \"n\"\n".as_slice();
    for (other, wanted) in [
        (tree, true),
        (b"config A\n\tbool\nconfig N\n\thex\n".as_slice(), true),
        (b"config A\n\tbool\nconfig N\n\tbool\n".as_slice(), false),
        (b"config A\n\tbool\n".as_slice(), false),
    ] {
        let fits = is_fitting(rt.alloc(), "CONFIG_A=y\nCONFIG_N=10\n", tree, other)?;
        assert_eq!(rt; fits, wanted);
    }
    Ok(())
}
