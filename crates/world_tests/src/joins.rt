// And, or: the visits show that the right child is read only where the left one does not decide.
use crate::shared::*;
use book::{Atom, Book, Formula};
use std::alloc::Global;
use std::test::Fail;
use world::Verdict::{No, Yes};

// The formula is node 5. Its children can be node 2, of class 1, and node 4, of class 2.
fn joined(heap: Global, formula: Formula) -> Result<Book, Fail> {
    let [a, b, c, d] = claims(false, false);
    made(heap, &[a, b, c, d, premise(formula)])
}

const CONJUNCTIONS_ROWS: &[Row] = &[
    ("both true", &[(1, 1), (2, 1), (2, 1)], Yes, 3),
    (
        "the left one true",
        &[(1, 1), (2, -1), (2, -1)],
        No { premise: 5 },
        2,
    ),
    (
        "the right one true",
        &[(1, -1), (2, 1), (2, 1)],
        No { premise: 5 },
        1,
    ),
    (
        "both false",
        &[(1, -1), (2, -1), (2, -1)],
        No { premise: 5 },
        1,
    ),
    ("no element", &[], Yes, 0),
];

#[test]
fn conjunctions(rt: HostRuntime) -> Result<(), Fail> {
    let book = joined(rt.alloc(), Formula::And { left: 2, right: 4 })?;
    each_log(&rt, "", &book, CONJUNCTIONS_ROWS)
}

const DISJUNCTIONS_ROWS: &[Row] = &[
    ("both true", &[(1, 1), (2, 1), (2, 1)], Yes, 1),
    ("the left one true", &[(1, 1), (2, -1), (2, -1)], Yes, 1),
    ("the right one true", &[(1, -1), (2, 1), (2, 1)], Yes, 3),
    (
        "both false",
        &[(1, -1), (2, -1), (2, -1)],
        No { premise: 5 },
        2,
    ),
    ("no element", &[], Yes, 0),
];

#[test]
fn disjunctions(rt: HostRuntime) -> Result<(), Fail> {
    let book = joined(rt.alloc(), Formula::Or { left: 2, right: 4 })?;
    each_log(&rt, "", &book, DISJUNCTIONS_ROWS)
}

const ONE_CHILD_TWICE_AND_ROWS: &[Row] = &[
    ("true", &[(2, 1), (2, 1)], Yes, 4),
    ("false", &[(2, 1), (2, -1)], No { premise: 5 }, 2),
];

const ONE_CHILD_TWICE_OR_ROWS: &[Row] = &[
    ("true", &[(2, 1), (2, 1)], Yes, 2),
    ("false", &[(2, 1), (2, -1)], No { premise: 5 }, 4),
];

// A child that is named twice is read twice.
#[test]
fn one_child_twice(rt: HostRuntime) -> Result<(), Fail> {
    let conjunction = joined(rt.alloc(), Formula::And { left: 4, right: 4 })?;
    let disjunction = joined(rt.alloc(), Formula::Or { left: 4, right: 4 })?;
    each_log(&rt, "and, ", &conjunction, ONE_CHILD_TWICE_AND_ROWS)?;
    each_log(&rt, "or, ", &disjunction, ONE_CHILD_TWICE_OR_ROWS)
}

// As many nodes as a book can have, each the left child of the next, and none of the right children is read.
#[test]
fn deep_chain(rt: HostRuntime) -> Result<(), Fail> {
    let mut nodes = Vec::new(rt.alloc());
    nodes.push(node(NO_SCOPE, Formula::AtLeast(Atom::new(&[], -1))))?;
    for k in 1..4095 {
        nodes.push(node(NO_SCOPE, Formula::And { left: k, right: 1 }))?;
    }
    nodes.push(premise(Formula::Or {
        left: 4095,
        right: 1,
    }))?;
    let book = made(rt.alloc(), &nodes)?;
    each_log(
        &rt,
        "",
        &book,
        &[("no element", &[], No { premise: 4096 }, 0)],
    )
}
