// Quantifiers within quantifiers: inner visits count each time.
use crate::shared::*;
use book::{Atom, Book, Formula};
use std::alloc::Global;
use std::test::Fail;
use world::Element;

const TWICE: [u32; 6] = [1, 1, 0, 0, 0, 0];

const MIXED: [u32; 6] = [1, 2, 0, 0, 0, 0];

const ONE: Element<'static> = Element {
    class: 1,
    values: &[0],
};

// n elements of class 1: n visits, and n more for each.
#[test]
fn every_pair(rt: HostRuntime) -> Result<(), Fail> {
    let nodes = [
        node(TWICE, Formula::AtLeast(Atom::new(&[], 0))),
        node(FIRST, Formula::Every { class: 1, body: 1 }),
        premise(Formula::Every { class: 1, body: 2 }),
    ];
    let book = made(rt.alloc(), &nodes)?;
    exactly(&rt, &"3 elements", &book, &[ONE; 3], yes(12))?;
    exactly(&rt, &"256 elements", &book, &[ONE; 256], yes(65_792))
}

// Six quantifiers, which read the digits of a number in base 2: is there a way to write this number?
fn digits(heap: Global, number: u8) -> Result<Book, Fail> {
    let terms = [
        term(32, 0),
        term(16, 1),
        term(8, 2),
        term(4, 3),
        term(2, 4),
        term(1, 5),
    ];
    let nodes = [
        node(
            [1, 2, 1, 2, 1, 2],
            Formula::Equal(Atom::new(&terms, -i32::from(number))),
        ),
        node([1, 2, 1, 2, 1, 0], Formula::Exists { class: 2, body: 1 }),
        node([1, 2, 1, 2, 0, 0], Formula::Exists { class: 1, body: 2 }),
        node([1, 2, 1, 0, 0, 0], Formula::Exists { class: 2, body: 3 }),
        node(MIXED, Formula::Exists { class: 1, body: 4 }),
        node(FIRST, Formula::Exists { class: 2, body: 5 }),
        premise(Formula::Exists { class: 1, body: 6 }),
    ];
    made(heap, &nodes)
}

// Each class has the digits 0 and 1. The number p is found after p / 32 + 1 visits of the first digit,
// p / 16 + 1 of the second, and so on.
#[test]
fn six_deep(rt: HostRuntime) -> Result<(), Fail> {
    let log = elements(rt.alloc(), &[(2, 0), (1, 0), (1, 1), (2, 1)])?;
    let table = [
        (0, yes(6)),
        (1, yes(7)),
        (32, yes(69)),
        (37, yes(77)),
        (63, yes(126)),
        (64, no(7, 126)),
    ];
    for (number, expected) in table {
        let book = digits(rt.alloc(), number)?;
        exactly(&rt, &format_args!("number {number}"), &book, &log, expected)?;
    }
    Ok(())
}
