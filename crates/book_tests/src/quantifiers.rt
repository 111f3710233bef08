// Exists, every: a lower node whose scope adds the class in the first unused slot.
use crate::shared::*;
use book::{Formula, Node};
use std::process::Abort;
use std::test::Fail;

const TWO: [u32; 6] = [2, 0, 0, 0, 0, 0];

const FIVE: [u32; 6] = [1, 2, 1, 2, 1, 0];

// Node 6 is the one under test, and node 7 has the scope of node 2.
fn others() -> [Node; 7] {
    [
        premise(NO_SCOPE),
        plain(ONE),
        plain(TWO),
        plain(ONE_TWO),
        plain(SIX),
        plain(NO_SCOPE),
        plain(ONE),
    ]
}

fn each(
    rt: &(impl Abort + AllocGlobal),
    table: &[(&'static str, [u32; 6], u32, u32, bool)],
) -> Result<(), Fail> {
    let nodes = others();
    for (name, scope, class, body, fits) in table {
        let (class, body) = (*class, *body);
        for formula in [
            Formula::Exists { class, body },
            Formula::Every { class, body },
        ] {
            placed(rt, name, &nodes, 6, node(*scope, formula), *fits)?;
        }
    }
    Ok(())
}

#[test]
fn bodies(rt: HostRuntime) -> Result<(), Fail> {
    let table = [
        ("no node", NO_SCOPE, 1, 0, false),
        ("a lower node", NO_SCOPE, 1, 2, true),
        ("the node itself", NO_SCOPE, 1, 6, false),
        ("a higher node", NO_SCOPE, 1, 7, false),
        ("past the last node", NO_SCOPE, 1, 8, false),
        ("the largest number", NO_SCOPE, 1, 4_294_967_295, false),
    ];
    each(&rt, &table)
}

#[test]
fn classes(rt: HostRuntime) -> Result<(), Fail> {
    let table = [
        ("class 0", NO_SCOPE, 0, 2, false),
        ("class 0, which would add nothing", NO_SCOPE, 0, 1, false),
        ("the first class", NO_SCOPE, 1, 2, true),
        ("the last class", NO_SCOPE, 2, 3, true),
        ("an unknown class", NO_SCOPE, 3, 2, false),
    ];
    each(&rt, &table)
}

#[test]
fn scopes_of_bodies(rt: HostRuntime) -> Result<(), Fail> {
    let table = [
        ("the same scope", NO_SCOPE, 1, 1, false),
        ("another class added", NO_SCOPE, 1, 3, false),
        ("two classes added", NO_SCOPE, 1, 4, false),
        ("the class in the second slot", ONE, 2, 4, true),
        ("the class in the first slot", ONE, 1, 4, false),
        ("the class in place of the other", ONE, 2, 3, false),
        ("the wrong class before it", TWO, 2, 4, false),
    ];
    each(&rt, &table)
}

#[test]
fn depths(rt: HostRuntime) -> Result<(), Fail> {
    let table = [
        ("depth 5", FIVE, 2, 5, true),
        ("depth 5, another class", FIVE, 1, 5, false),
        ("depth 6", SIX, 2, 5, false),
        ("depth 6, another class", SIX, 1, 5, false),
    ];
    each(&rt, &table)
}
