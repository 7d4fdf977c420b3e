//! Sessions of a tree, and what lists of changes report.
ghost use Rattle.std.specs.Prelude.{◌<◌, IfSome, IsTrue, length};
ghost use Rattle.kc_rules.specs.between.SettledViews.{tree_of_settled};
ghost use Rattle.kc_rules_model.specs.Shapes.{user_fits};
ghost use Rattle.kc_solver.specs.Changes.{FitsChanges};

use super::test_trees::settled;
use kc_rules::{Profile, Settled, Steps, UserValue};
use kc_solver::{ChangedUnits, Session};
use kc_value::Tri;
use kmin_fakes::twice;
use std::alloc::{AllocError, Global};
use std::test::Fail;

/// How many steps a new session of a tree takes.
fn steps_of(alloc: Global, tree: &Settled) -> Result<u64, AllocError> {
    let mut steps = Steps::new();
    let session = Session::new(alloc, tree, tree.order(), &mut steps)?;
    drop(session);
    Ok(steps.count())
}

#[test]
fn a_new_session_takes_a_step_for_each_unit(rt: HostRuntime) -> Result<(), Fail> {
    let text = b"config A\n\tbool\nconfig B\n\tbool\nconfig C\n\tbool\n";
    let tree = settled(rt.alloc(), text, Profile::Present)?;
    assert_eq!(rt; twice!(steps_of(rt.alloc(), &tree)), 3);
    Ok(())
}

/// Three bools, each below the one before.
const CHAIN: &[u8] =
    b"config A\n\tbool \"a\"\nconfig B\n\tbool\n\tdefault A\nconfig C\n\tbool \"c\"\n\tdepends on B\n";

/// A bool, two with its value, and one below both.
const DIAMOND: &[u8] =
    b"config A\n\tbool \"a\"\nconfig B\n\tbool\n\tdefault A\nconfig C\n\tbool\n\tdefault A\nconfig D\n\tbool\n\tdefault B && C\n";

/// Whether two changes are of units of a tree, each to a value of its shape or to none.
fn fit_tree(tree: &Settled, changes: &[(u32, Option<UserValue>); 2]) -> bool
    ensures { IsTrue result → FitsChanges (length (tree_of_settled tree.now).units) (λ u x. IsTrue (user_fits (tree_of_settled tree.now) u x)) changes.now }
{
    is_fit(tree, changes[0].0, &changes[0].1) && is_fit(tree, changes[1].0, &changes[1].1)
}

/// Whether a change is of a unit of a tree, to a value of its shape or to none.
fn is_fit(tree: &Settled, unit: u32, user: &Option<UserValue>) -> bool
    ensures unit { IsTrue result → unit < length (tree_of_settled tree.now).units }
    ensures user { IsTrue result → IfSome user.now (λ x. IsTrue (user_fits (tree_of_settled tree.now) unit x)) }
{
    if unit >= tree.tree().len() {
        return false;
    }
    match user {
        Some(user) => tree.user_fits(unit, user),
        None => true,
    }
}

/// The report of two changes of a new session of a tree, unless they don't fit it.
fn report_of(
    alloc: Global,
    tree: &Settled,
    changes: &[(u32, Option<UserValue>); 2],
) -> Result<Option<ChangedUnits>, AllocError> {
    if !fit_tree(tree, changes) {
        return Ok(None);
    }
    let mut session = Session::new(alloc, tree, tree.order(), &mut Steps::new())?;
    let report = session.apply(changes.as_slice(), &mut Steps::new());
    drop(session);
    Ok(Some(report?))
}

/// A change of the first unit to a tristate, or to none.
fn first_is(value: Option<Tri>) -> (u32, Option<UserValue>) {
    match value {
        Some(value) => (0, Some(UserValue::Tri(value))),
        None => (0, None),
    }
}

#[test]
fn the_last_change_of_a_unit_counts(rt: HostRuntime) -> Result<(), Fail> {
    for (text, last, changed, evaluated) in [
        (CHAIN, Some(Tri::Y), [0, 1].as_slice(), 3),
        (CHAIN, Some(Tri::N), [].as_slice(), 1),
        (CHAIN, None, [].as_slice(), 0),
        (DIAMOND, Some(Tri::Y), [0, 1, 2, 3].as_slice(), 4),
        (DIAMOND, Some(Tri::N), [].as_slice(), 1),
        (DIAMOND, None, [].as_slice(), 0),
    ] {
        let tree = settled(rt.alloc(), text, Profile::Present)?;
        let changes = [first_is(Some(Tri::Y)), first_is(last)];
        let report = twice!(report_of(rt.alloc(), &tree, &changes));
        assert!(rt; report.is_some());
        if let Some(report) = report {
            assert_eq!(rt; report.changed.as_slice(), changed);
            assert_eq!(rt; report.evaluated, evaluated);
        }
    }
    Ok(())
}
