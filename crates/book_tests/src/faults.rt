// Books with two faults: which of them is named.
use crate::shared::*;
use book::{Class, Formula, Node};
use std::test::Fail;

// Its children are 0, which no node may name.
fn bad() -> Node {
    node(NO_SCOPE, Formula::And { left: 0, right: 0 })
}

#[test]
fn the_lowest_bad_node(rt: HostRuntime) -> Result<(), Fail> {
    let fine = plain(NO_SCOPE);
    let first = premise(NO_SCOPE);
    let table = [
        ("none", [first, fine, fine, fine], None),
        ("the second", [first, bad(), fine, fine], Some(2)),
        ("the last", [first, fine, fine, bad()], Some(4)),
        (
            "the second and the third",
            [first, bad(), bad(), fine],
            Some(2),
        ),
        (
            "the third and the last",
            [first, fine, bad(), bad()],
            Some(3),
        ),
        (
            "the first and the last",
            [bad(), fine, first, bad()],
            Some(1),
        ),
    ];
    each_book(&rt, &table)
}

#[test]
fn a_bad_node_and_a_wrong_mark(rt: HostRuntime) -> Result<(), Fail> {
    let fine = plain(NO_SCOPE);
    let first = premise(NO_SCOPE);
    let scoped = premise(ONE);
    let table = [
        (
            "a bad node and no premise",
            [bad(), fine, fine, fine],
            Some(0),
        ),
        (
            "a bad node, then a premise with a scope",
            [bad(), first, scoped, fine],
            Some(0),
        ),
        (
            "a premise with a scope, then a bad node",
            [first, scoped, fine, bad()],
            Some(0),
        ),
        (
            "a bad node and a premise",
            [first, fine, bad(), fine],
            Some(3),
        ),
    ];
    each_book(&rt, &table)
}

#[test]
fn a_bad_node_and_a_wrong_count(rt: HostRuntime) -> Result<(), Fail> {
    let nodes = [premise(NO_SCOPE), bad()];
    let wrong = [Class { attributes: 1 }, Class { attributes: 9 }];
    let many = several(&rt, Class { attributes: 1 }, 33)?;
    let long = several(&rt, premise([3, 0, 0, 0, 0, 0]), 4097)?;
    assert_eq!(rt;
        fault(&rt, &CLASSES, &nodes)?,
        Some(2),
        "counts that are fine"
    );
    assert_eq!(rt; fault(&rt, &[], &nodes)?, Some(0), "no class");
    assert_eq!(rt; fault(&rt, &wrong, &nodes)?, Some(0), "9 attributes");
    assert_eq!(rt; fault(&rt, &many, &nodes)?, Some(0), "33 classes");
    assert_eq!(rt; fault(&rt, &CLASSES, &long)?, Some(0), "4097 nodes");
    Ok(())
}
