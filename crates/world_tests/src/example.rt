// The example book, written down once more: openings are class 1, grants are class 2, and each has its time.
//
// Premise 3: every opening has a grant at its time or before. Premise 6: some opening comes before every grant.
use crate::shared::*;
use book::{Atom, Book, Formula};
use std::alloc::Global;
use std::test::Fail;
use world::Verdict::{No, Yes};

const BOTH: [u32; 6] = [1, 2, 0, 0, 0, 0];

pub fn example(heap: Global) -> Result<Book, Fail> {
    let not_later = Atom::new(&[term(1, 0), term(-1, 1)], 0);
    let later = Atom::new(&[term(-1, 0), term(1, 1)], -1);
    let nodes = [
        node(BOTH, Formula::AtLeast(not_later)),
        node(FIRST, Formula::Exists { class: 2, body: 1 }),
        premise(Formula::Every { class: 1, body: 2 }),
        node(BOTH, Formula::AtLeast(later)),
        node(FIRST, Formula::Every { class: 2, body: 4 }),
        premise(Formula::Exists { class: 1, body: 5 }),
    ];
    made(heap, &nodes)
}

const SMALL_LOGS_ROWS: &[Row] = &[
    ("no element", &[], No { premise: 6 }, 0),
    ("an opening", &[(1, 5)], No { premise: 3 }, 1),
    ("a grant", &[(2, 5)], No { premise: 6 }, 0),
    (
        "three grants",
        &[(2, 5), (2, 6), (2, 5)],
        No { premise: 6 },
        0,
    ),
    ("both at one time", &[(1, 5), (2, 5)], No { premise: 6 }, 4),
    (
        "the grant listed first",
        &[(2, 5), (1, 5)],
        No { premise: 6 },
        4,
    ),
    (
        "the grant a step before",
        &[(1, 5), (2, 4)],
        No { premise: 6 },
        4,
    ),
    (
        "the grant a step after",
        &[(1, 5), (2, 6)],
        No { premise: 3 },
        2,
    ),
];

#[test]
fn small_logs(rt: HostRuntime) -> Result<(), Fail> {
    each_log(&rt, "", &example(rt.alloc())?, SMALL_LOGS_ROWS)
}

const ORDERS_ROWS: &[Row] = &[
    (
        "the early grant first",
        &[(1, 5), (2, 3), (2, 7)],
        No { premise: 6 },
        4,
    ),
    (
        "the late grant first",
        &[(1, 5), (2, 7), (2, 3)],
        No { premise: 6 },
        6,
    ),
    (
        "the early opening first",
        &[(1, 1), (1, 9), (2, 5)],
        No { premise: 3 },
        2,
    ),
    (
        "the late opening first",
        &[(1, 9), (1, 1), (2, 5)],
        No { premise: 3 },
        4,
    ),
    (
        "both openings late",
        &[(1, 9), (1, 8), (2, 5)],
        No { premise: 6 },
        8,
    ),
];

// Two openings, or two grants, in either order: the order of the list decides how many are visited.
#[test]
fn orders(rt: HostRuntime) -> Result<(), Fail> {
    each_log(&rt, "", &example(rt.alloc())?, ORDERS_ROWS)
}

const TWO_OF_EACH_ROWS: &[Row] = &[
    (
        "the early grant first",
        &[(2, 5), (1, 9), (1, 8), (2, 9)],
        No { premise: 6 },
        8,
    ),
    (
        "the late grant first",
        &[(2, 9), (1, 9), (1, 8), (2, 5)],
        No { premise: 6 },
        10,
    ),
    (
        "the grants last",
        &[(1, 9), (1, 8), (2, 9), (2, 5)],
        No { premise: 6 },
        10,
    ),
    (
        "the openings last",
        &[(2, 9), (2, 5), (1, 9), (1, 8)],
        No { premise: 6 },
        10,
    ),
    (
        "the openings exchanged",
        &[(1, 8), (1, 9), (2, 9), (2, 5)],
        No { premise: 6 },
        10,
    ),
];

#[test]
fn two_of_each(rt: HostRuntime) -> Result<(), Fail> {
    each_log(&rt, "", &example(rt.alloc())?, TWO_OF_EACH_ROWS)
}
