//! Copies of values, values up to a limit, and seeds.
use kc_value::{Seed, Text, Tri, Value};
use kmin_fakes::twice;
use std::alloc::{AllocError, Global};
use std::hash::BuildHasher;

/// A copy of a value that is a text.
fn copied(alloc: Global) -> Result<Value, AllocError> {
    Value::Text(Text::copied(alloc, "ab")?).copy(alloc)
}

#[test]
fn copies_values(rt: HostRuntime) -> Result<(), std::test::Fail> {
    match twice!(copied(rt.alloc())) {
        Value::Text(text) => assert_eq!(rt; text.as_str(), "ab"),
        Value::Tri(_) => assert!(rt; false),
    }
    Ok(())
}

#[test]
fn seeds_differ(rt: HostRuntime) {
    let hash = Seed::of(1, 2).hash_one("A");
    assert!(rt; hash != Seed::of(1, 3).hash_one("A"));
    assert!(rt; hash != Seed::of(2, 2).hash_one("A"));
}

#[test]
fn values_are_cut_down_to_a_limit(rt: HostRuntime) {
    for (value, limit, cut) in [
        (Tri::Y, Tri::M, Tri::M),
        (Tri::M, Tri::Y, Tri::M),
        (Tri::Y, Tri::N, Tri::N),
    ] {
        assert_eq!(rt; value.at_most(limit), cut);
    }
}
