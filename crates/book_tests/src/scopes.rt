// Scopes: used slots first, each with one of the two classes.
use crate::shared::*;
use std::process::Abort;
use std::test::Fail;

fn each(
    rt: &(impl Abort + AllocGlobal),
    table: &[(&'static str, [u32; 6], bool)],
) -> Result<(), Fail> {
    let nodes = [premise(NO_SCOPE), plain(NO_SCOPE)];
    for (name, slots, fits) in table {
        placed(rt, name, &nodes, 2, plain(*slots), *fits)?;
    }
    Ok(())
}

#[test]
fn used_slots_come_first(rt: HostRuntime) -> Result<(), Fail> {
    let table = [
        ("no slot", NO_SCOPE, true),
        ("one slot", [1, 0, 0, 0, 0, 0], true),
        ("five slots", [1, 1, 1, 1, 1, 0], true),
        ("all six slots", [1, 2, 1, 2, 1, 2], true),
        ("the second alone", [0, 1, 0, 0, 0, 0], false),
        ("the first and the third", [1, 0, 1, 0, 0, 0], false),
        ("the last alone", [0, 0, 0, 0, 0, 1], false),
        ("all but the fifth", [1, 1, 1, 1, 0, 1], false),
    ];
    each(&rt, &table)
}

#[test]
fn classes_of_slots(rt: HostRuntime) -> Result<(), Fail> {
    let table = [
        ("the first class", [1, 0, 0, 0, 0, 0], true),
        ("the last class", [2, 0, 0, 0, 0, 0], true),
        ("an unknown class", [3, 0, 0, 0, 0, 0], false),
        (
            "an unknown class in the second slot",
            [1, 3, 0, 0, 0, 0],
            false,
        ),
        ("the last class in the last slot", [1, 1, 1, 1, 1, 2], true),
        (
            "an unknown class in the last slot",
            [1, 1, 1, 1, 1, 3],
            false,
        ),
        ("the largest number", [4_294_967_295, 0, 0, 0, 0, 0], false),
    ];
    each(&rt, &table)
}
