//! Trees and files that are empty, and the texts of a tree's faults that no run of the program prints.
use super::test_trees::{texts_of, tree_of};
use kc_tree::Texts;
use kc_tree_model::{TreeFault, TreeKind};
use kmin_fakes::twice;
use std::test::Fail;

#[test]
fn tree_faults_are_printed_by_their_kind(rt: HostRuntime) -> Result<(), Fail> {
    let kind = TreeKind::OutOfMemory;
    let fault = TreeFault {
        file: None,
        line: 0,
        kind,
    };
    let text = twice!(format!(in rt.alloc(); "{kind} {fault}"));
    assert_eq!(rt; text.as_str(), "OutOfMemory OutOfMemory");
    Ok(())
}

#[test]
fn files_and_trees_are_empty_or_not(rt: HostRuntime) -> Result<(), Fail> {
    let alloc = rt.alloc();
    assert!(rt; Texts::new(alloc).is_empty());
    for (text, is_empty) in [
        (&b""[..], true),
        (b"comment \"a\"\n", true),
        (b"config A\n\tbool\n", false),
    ] {
        let texts = texts_of(alloc, text)?;
        assert_eq!(rt; texts.len(), 1);
        assert!(rt; !texts.is_empty());
        let tree = twice!(tree_of(alloc, &texts));
        assert_eq!(rt; tree.is_empty(), is_empty);
    }
    Ok(())
}
