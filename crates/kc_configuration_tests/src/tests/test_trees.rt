//! Trees and files that tests are made with.
ghost use Rattle.std.specs.Prelude.{IfOk};
ghost use Rattle.kc_config.specs.ConfigStates.{tree_in};
ghost use Rattle.kc_dotconfig.specs.Fragments.{FitsTree};
ghost use Rattle.kc_rules.specs.between.SettledViews.{tree_of_settled};

use kc_builder::read_tree;
use kc_config::Config;
use kc_dotconfig::{Format, Fragment, read_config};
use kc_rules::{Profile, Settled, UnitValue, UserValue, settle};
use kc_solver::{ChangedUnits, System};
use kc_tree::{Texts, Tree};
use kc_value::FromRead;
use kmin_fakes::{and_drop, twice, twice_on};
use std::alloc::{AllocError, Global};

/// The settled tree of one Kconfig file with this text. An `Err` means out of memory, or that the tree isn't accepted.
pub(crate) fn settled(alloc: Global, text: &[u8], profile: Profile) -> Result<Settled, AllocError> {
    and_drop!(texts = texts_of(alloc, text)?; settled_twice(alloc, &texts, profile))
}

/// The tree of these texts, settled at the second try where the first is refused.
fn settled_twice(alloc: Global, texts: &Texts, profile: Profile) -> Result<Settled, AllocError> {
    Ok(twice!(settled_of(alloc, texts, profile)))
}

fn settled_of(alloc: Global, texts: &Texts, profile: Profile) -> Result<Settled, AllocError> {
    match settle(alloc, tree_of(alloc, texts)?, profile) {
        Ok(settled) => Ok(settled),
        Err(_) => Err(AllocError),
    }
}

/// The tree of these texts. An `Err` means out of memory, or that the tree isn't accepted.
pub(crate) fn tree_of(alloc: Global, texts: &Texts) -> Result<Tree, AllocError> {
    match read_tree(alloc, texts, "Kconfig") {
        Ok(tree) => Ok(tree),
        Err(_) => Err(AllocError),
    }
}

/// One Kconfig file with this text. An `Err` means out of memory.
pub(crate) fn texts_of(alloc: Global, text: &[u8]) -> Result<Texts, AllocError> {
    let mut texts = Texts::new(alloc);
    insert(&mut texts, text)?;
    Ok(texts)
}

fn insert(texts: &mut Texts, text: &[u8]) -> Result<(), AllocError> {
    twice_on!(
        texts.get("Kconfig").is_some(),
        texts.insert("Kconfig", text)
    );
    Ok(())
}

/// Merges a configuration file into a configuration, or else replaces its assignment with it. An `Err` means out of memory, or that
/// the file isn't accepted.
pub(crate) fn changed_by(
    alloc: Global,
    config: &mut Config<'_>,
    file: &str,
    is_merged: bool,
) -> Result<ChangedUnits, AllocError> {
    let fragment = fragment_of(alloc, config.settled(), file)?;
    if is_merged {
        config.merge(&fragment)
    } else {
        config.replace(&fragment)
    }
}

/// Overrides a configuration with a configuration file, at a second try if the first fails, which has to leave the configuration
/// as it was.
pub(crate) fn merged_twice(
    alloc: Global,
    config: &mut Config<'_>,
    file: &str,
) -> Result<ChangedUnits, AllocError> {
    and_drop!(
        fragment = fragment_twice(alloc, config.settled(), file)?;
        merged_or_kept(config, &fragment)
    )
}

/// The assignments and notices of a configuration file, read at a second try if the first fails.
pub(crate) fn fragment_twice(
    alloc: Global,
    settled: &Settled,
    file: &str,
) -> Result<Fragment, AllocError>
    ensures { IfOk result (λ fragment. FitsTree (tree_of_settled settled.now) fragment.assigns.items) }
{
    Ok(twice!(fragment_of(alloc, settled, file)))
}

/// Merges a fragment into a configuration. Where memory runs out at the first try, the configuration has to stay as it was.
fn merged_or_kept(config: &mut Config<'_>, fragment: &Fragment) -> Result<ChangedUnits, AllocError>
    requires { FitsTree (tree_in config.old) fragment.now.assigns.items }
{
    and_drop!(before = twice!(config.copy()); merged_beside(config, &before, fragment))
}

/// Merges a fragment into a configuration that is equal to the copy `before`, with which it is compared after a failed try.
fn merged_beside(
    config: &mut Config<'_>,
    before: &Config<'_>,
    fragment: &Fragment,
) -> Result<ChangedUnits, AllocError>
    requires { FitsTree (tree_in config.old) fragment.now.assigns.items }
{
    Ok(twice_on!(are_equal(config, before), config.merge(fragment)))
}

/// Whether two configurations of a tree have the same user values and the same values.
fn are_equal(config: &Config<'_>, other: &Config<'_>) -> bool {
    let has_same_users = config
        .users()
        .iter()
        .zip(other.users())
        .all(|(user, other)| is_same_user(user, other));
    has_same_users && are_same(config.values(), other.values())
}

/// Whether two units have the same user value, or none.
fn is_same_user(user: &Option<UserValue>, other: &Option<UserValue>) -> bool {
    match (user, other) {
        (Some(user), Some(other)) => Settled::same_user(user, other),
        (None, None) => true,
        _ => false,
    }
}

/// Whether each value of `others` is the one at the same place in `values`.
pub(crate) fn are_same(values: &[UnitValue], others: &[UnitValue]) -> bool {
    values.len() >= others.len()
        && values
            .iter()
            .zip(others)
            .all(|(value, other)| Settled::same(value, other))
}

fn fragment_of(alloc: Global, settled: &Settled, file: &str) -> Result<Fragment, AllocError>
    ensures { IfOk result (λ fragment. FitsTree (tree_of_settled settled.now) fragment.assigns.items) }
{
    let mut source = FromRead::new(file.as_bytes());
    match read_config(alloc, settled, &Format::plain(), &mut source, &mut ()) {
        Ok(fragment) => Ok(fragment),
        Err(_) => Err(AllocError),
    }
}
