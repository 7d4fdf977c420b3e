//! Values of a tree: those of a configuration after many changes, and those that solving anew gives.
use super::test_trees::{are_same, merged_twice, settled};
use kc_config::Config;
use kc_rules::{Profile, Settled, Steps};
use kc_solver::solve;
use kmin_fakes::{and_drop, twice};
use std::alloc::{AllocError, Global};
use std::test::Fail;

const TREE: &[u8] = b"choice
    prompt \"c\" if A
    default F if B
config E
    bool \"e\"
config F
    bool \"f\" if MODULES
endchoice
config N
    int \"n\" if E
    range LOW 9 if B != n
    default 1
config C
    tristate \"c\" if S != \"s\" || N > 5
    depends on B
    default m if F
config B
    tristate \"b\"
    imply C
    select D if A
config D
    tristate \"d\" if A
    depends on A && S = \"s\"
config A
    bool \"a\"
    default y if MODULES
config S
    string \"s\" if A
    default \"s\" if LOW < 3
config LOW
    int \"l\"
    default 4
config MODULES
    bool \"m\"
    default y
";

const LINES: [&str; 16] = [
    "CONFIG_A=y\n",
    "CONFIG_A=n\n",
    "CONFIG_B=y\n",
    "CONFIG_B=m\n",
    "# CONFIG_B is not set\n",
    "CONFIG_C=y\n",
    "CONFIG_C=m\n",
    "CONFIG_D=m\n",
    "CONFIG_E=y\n",
    "CONFIG_F=y\n",
    "CONFIG_N=7\n",
    "CONFIG_N=010\n",
    "CONFIG_S=\"s\"\n",
    "CONFIG_S=\"t\"\n",
    "CONFIG_LOW=2\n",
    "# CONFIG_MODULES is not set\n",
];

/// Whether solving anew with a configuration's user values gives the configuration's values.
fn is_solved(alloc: Global, config: &Config<'_>) -> Result<bool, AllocError> {
    let tree = config.settled();
    let values = solve(alloc, tree, tree.order(), config.users(), &mut Steps::new())?;
    Ok(are_same(&values, config.values()))
}

/// Whether, in this profile, the values of a configuration are those that solving anew gives, after each of many changes.
fn is_kept_solved(alloc: Global, profile: Profile) -> Result<bool, AllocError> {
    let tree = settled(alloc, TREE, profile)?;
    let has_profile = tree.profile() == profile;
    let stays_solved = stays_solved(alloc, &tree);
    drop(tree);
    Ok(has_profile && stays_solved?)
}

/// Whether the values of a configuration of this tree are those that solving anew gives, after each of many changes.
fn stays_solved(alloc: Global, tree: &Settled) -> Result<bool, AllocError> {
    and_drop!(
        mut config = twice!(Config::new(alloc, tree));
        is_solved_throughout(alloc, &mut config)
    )
}

/// Whether a configuration, which has no user value at first, has the values that solving anew gives, after each of 40 changes.
fn is_solved_throughout(alloc: Global, config: &mut Config<'_>) -> Result<bool, AllocError> {
    let mut seed: u32 = 1;
    for _ in 0..40 {
        seed = seed.wrapping_mul(1_664_525).wrapping_add(1_013_904_223);
        merged_twice(alloc, config, LINES[(seed >> 28) as usize % 16])?;
        if !twice!(is_solved(alloc, config)) {
            return Ok(false);
        }
    }
    Ok(true)
}

#[test]
fn changes_give_what_solving_anew_gives(rt: HostRuntime) -> Result<(), Fail> {
    for profile in [Profile::Present, Profile::Classic] {
        assert!(rt; is_kept_solved(rt.alloc(), profile)?);
    }
    Ok(())
}
