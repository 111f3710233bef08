// Exists, every: elements of the class in list order, up to the one that decides.
use crate::shared::*;
use book::{Book, Formula};
use std::alloc::Global;
use std::test::Fail;
use world::Verdict::{No, Yes};

// The formula is node 2, and its body, node 1, is true where the element has 0 or more.
fn over(heap: Global, formula: Formula) -> Result<Book, Fail> {
    made(heap, &[node(FIRST, not_negative()), premise(formula)])
}

const EXISTS_ROWS: &[Row] = &[
    ("none", &[], No { premise: 2 }, 0),
    ("one, true", &[(1, 1)], Yes, 1),
    ("one, false", &[(1, -1)], No { premise: 2 }, 1),
    ("the first of two", &[(1, 1), (1, -1)], Yes, 1),
    ("the last of two", &[(1, -1), (1, 1)], Yes, 2),
    ("none of two", &[(1, -1), (1, -1)], No { premise: 2 }, 2),
    ("the first of three", &[(1, 1), (1, -1), (1, 1)], Yes, 1),
    ("the second of three", &[(1, -1), (1, 1), (1, 1)], Yes, 2),
    ("the last of three", &[(1, -1), (1, -1), (1, 0)], Yes, 3),
    (
        "none of three",
        &[(1, -1), (1, -2), (1, -1)],
        No { premise: 2 },
        3,
    ),
];

#[test]
fn exists(rt: HostRuntime) -> Result<(), Fail> {
    let book = over(rt.alloc(), Formula::Exists { class: 1, body: 1 })?;
    each_log(&rt, "", &book, EXISTS_ROWS)
}

const EVERY_ROWS: &[Row] = &[
    ("none", &[], Yes, 0),
    ("one, true", &[(1, 1)], Yes, 1),
    ("one, false", &[(1, -1)], No { premise: 2 }, 1),
    (
        "all but the first of two",
        &[(1, -1), (1, 1)],
        No { premise: 2 },
        1,
    ),
    (
        "all but the last of two",
        &[(1, 1), (1, -1)],
        No { premise: 2 },
        2,
    ),
    ("both", &[(1, 1), (1, 1)], Yes, 2),
    (
        "all but the first of three",
        &[(1, -1), (1, 1), (1, -1)],
        No { premise: 2 },
        1,
    ),
    (
        "all but the second of three",
        &[(1, 1), (1, -1), (1, -1)],
        No { premise: 2 },
        2,
    ),
    (
        "all but the last of three",
        &[(1, 1), (1, 0), (1, -1)],
        No { premise: 2 },
        3,
    ),
    ("all of three", &[(1, 1), (1, 0), (1, 2)], Yes, 3),
];

#[test]
fn every(rt: HostRuntime) -> Result<(), Fail> {
    let book = over(rt.alloc(), Formula::Every { class: 1, body: 1 })?;
    each_log(&rt, "", &book, EVERY_ROWS)
}

const OTHER_CLASSES_SOME_ROWS: &[Row] = &[
    ("others only", &[(2, 1), (2, 1)], No { premise: 2 }, 0),
    ("others before", &[(2, 1), (2, 1), (1, 1)], Yes, 1),
    ("others between", &[(1, -1), (2, 1), (1, 1)], Yes, 2),
    ("others after", &[(1, -1), (2, 1)], No { premise: 2 }, 1),
];

const OTHER_CLASSES_ALL_ROWS: &[Row] = &[
    ("others only", &[(2, -1), (2, -1)], Yes, 0),
    (
        "others before",
        &[(2, -1), (2, -1), (1, -1)],
        No { premise: 2 },
        1,
    ),
    (
        "others between",
        &[(1, 1), (2, -1), (1, -1)],
        No { premise: 2 },
        2,
    ),
    ("others after", &[(1, 1), (2, -1)], Yes, 1),
];

// Elements of another class are no visits, wherever they stand, and decide nothing.
#[test]
fn other_classes(rt: HostRuntime) -> Result<(), Fail> {
    let exists = over(rt.alloc(), Formula::Exists { class: 1, body: 1 })?;
    let every = over(rt.alloc(), Formula::Every { class: 1, body: 1 })?;
    each_log(&rt, "exists, ", &exists, OTHER_CLASSES_SOME_ROWS)?;
    each_log(&rt, "every, ", &every, OTHER_CLASSES_ALL_ROWS)
}
