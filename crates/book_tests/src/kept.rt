// What was handed in is handed back as it was.
use crate::shared::*;
use book::{Atom, Book, Formula, Node};
use std::test::Fail;

fn sample_nodes() -> [Node; 3] {
    let atom = Atom::new(&[term(-5, 0, 7)], 9);
    [
        node([2, 0, 0, 0, 0, 0], Formula::Equal(atom)),
        node(NO_SCOPE, Formula::Every { class: 2, body: 1 }),
        premise(NO_SCOPE),
    ]
}

fn sample(rt: &HostRuntime) -> Result<Book, Fail> {
    let classes = Vec::from_slice(rt.alloc(), &CLASSES)?;
    let nodes = Vec::from_slice(rt.alloc(), &sample_nodes())?;
    Ok(Book::new(classes, nodes)?)
}

#[test]
fn attributes(rt: HostRuntime) -> Result<(), Fail> {
    let book = sample(&rt)?;
    for (class, expected) in [
        (0, None),
        (1, Some(3)),
        (2, Some(8)),
        (3, None),
        (4_294_967_295, None),
    ] {
        assert_eq!(rt; book.attributes(class), expected, "class {class}");
    }
    Ok(())
}

#[test]
fn nodes(rt: HostRuntime) -> Result<(), Fail> {
    let book = sample(&rt)?;
    assert_eq!(rt; book.nodes(), sample_nodes().as_slice(), "the nodes");
    Ok(())
}

// Places past the last term hold 0, and terms past the eighth are counted only.
#[test]
fn atoms(rt: HostRuntime) {
    let t = term(-7, 5, 10);
    let none = term(0, 0, 0);
    let three = Atom {
        terms: [t, t, t, none, none, none, none, none],
        count: 3,
        constant: -1,
    };
    let nine = Atom {
        terms: [t; 8],
        count: 9,
        constant: -2_147_483_648,
    };
    assert_eq!(rt; Atom::new(&[t, t, t], -1), three, "three terms");
    assert_eq!(rt; Atom::new(&[t; 9], -2_147_483_648), nine, "nine terms");
}

// The first terms of an atom's places, as many as are counted, and never more than eight.
#[test]
fn counted_terms(rt: HostRuntime) {
    let t = term(-7, 5, 10);
    for (count, expected) in [(0, 0), (1, 1), (7, 7), (8, 8), (9, 8), (usize::MAX, 8)] {
        let atom = Atom {
            terms: [t; 8],
            count,
            constant: 3,
        };
        assert_eq!(rt; atom.terms(), &[t; 8][..expected], "{count} terms");
    }
}

#[test]
fn depths(rt: HostRuntime) {
    assert_eq!(rt; plain(NO_SCOPE).depth(), 0);
    assert_eq!(rt; plain([2, 0, 0, 0, 0, 0]).depth(), 1);
    assert_eq!(rt; plain([1, 2, 1, 2, 1, 0]).depth(), 5);
    assert_eq!(rt; plain([1, 2, 1, 2, 1, 2]).depth(), 6);
    assert_eq!(rt;
        plain([1, 0, 1, 0, 0, 0]).depth(),
        1,
        "used slots come first"
    );
}
