// Counts and premise marks. Where one is wrong, the detail is 0.
use crate::shared::*;
use book::Class;
use std::test::Fail;

#[test]
fn classes(rt: HostRuntime) -> Result<(), Fail> {
    for (count, expected) in [(0, Some(0)), (1, None), (32, None), (33, Some(0))] {
        let classes = several(&rt, Class { attributes: 1 }, count)?;
        let found = fault(&rt, &classes, &[premise(NO_SCOPE)])?;
        assert_eq!(rt; found, expected, "{count} classes");
    }
    Ok(())
}

#[test]
fn attributes(rt: HostRuntime) -> Result<(), Fail> {
    let other = Class { attributes: 2 };
    for (attributes, expected) in [(0, Some(0)), (1, None), (8, None), (9, Some(0))] {
        let class = Class { attributes };
        for classes in [[class, other], [other, class]] {
            let found = fault(&rt, &classes, &[premise(NO_SCOPE)])?;
            assert_eq!(rt; found, expected, "{attributes} attributes");
        }
    }
    Ok(())
}

#[test]
fn nodes(rt: HostRuntime) -> Result<(), Fail> {
    for (count, expected) in [(0, Some(0)), (1, None), (4096, None), (4097, Some(0))] {
        let nodes = several(&rt, premise(NO_SCOPE), count)?;
        let found = fault(&rt, &CLASSES, &nodes)?;
        assert_eq!(rt; found, expected, "{count} nodes");
    }
    Ok(())
}

#[test]
fn premises(rt: HostRuntime) -> Result<(), Fail> {
    let fine = plain(NO_SCOPE);
    let first = premise(NO_SCOPE);
    let inner = plain(ONE);
    let scoped = premise(ONE);
    let full = premise([1, 2, 1, 2, 1, 2]);
    let table = [
        ("none", [fine, fine, fine, fine], Some(0)),
        ("none, and a scope", [fine, inner, fine, fine], Some(0)),
        ("the last node alone", [inner, fine, inner, first], None),
        ("every node", [first, first, first, first], None),
        (
            "the first with a scope",
            [scoped, first, first, first],
            Some(0),
        ),
        (
            "the last with a full scope",
            [first, fine, fine, full],
            Some(0),
        ),
        ("one, with a scope", [fine, scoped, fine, fine], Some(0)),
    ];
    each_book(&rt, &table)
}
