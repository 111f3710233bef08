// And, or: two lower nodes of the same scope.
use crate::shared::*;
use book::{Formula, Node};
use std::fmt;
use std::process::Abort;
use std::test::Fail;

// Nodes 2, 3 and 5 have the scope of node 4, which is the one under test.
fn others() -> [Node; 5] {
    [
        premise(NO_SCOPE),
        plain(ONE),
        plain(ONE),
        plain(ONE),
        plain(ONE),
    ]
}

fn each_way(
    rt: &(impl Abort + AllocGlobal),
    name: &impl fmt::Display,
    left: u32,
    right: u32,
    fits: bool,
) -> Result<(), Fail> {
    for formula in [Formula::And { left, right }, Formula::Or { left, right }] {
        placed(rt, name, &others(), 4, node(ONE, formula), fits)?;
    }
    Ok(())
}

#[test]
fn two_children(rt: HostRuntime) -> Result<(), Fail> {
    for (left, right) in [(2, 3), (3, 2), (2, 2), (3, 3)] {
        each_way(
            &rt,
            &format_args!("children {left} and {right}"),
            left,
            right,
            true,
        )?;
    }
    Ok(())
}

// Each as the left child and as the right one, beside a child that is fine.
#[test]
fn one_bad_child(rt: HostRuntime) -> Result<(), Fail> {
    let table = [
        ("no node", 0),
        ("another scope", 1),
        ("the node itself", 4),
        ("a higher node", 5),
        ("past the last node", 6),
        ("the largest number", 4_294_967_295),
    ];
    for (name, child) in table {
        each_way(&rt, &format_args!("{name}, left"), child, 3, false)?;
        each_way(&rt, &format_args!("{name}, right"), 3, child, false)?;
    }
    Ok(())
}
