// Premises: by rising number, up to the first false one, and no other nodes.
use crate::shared::*;
use book::Formula;
use std::test::Fail;
use world::Verdict::{No, Yes};

const BOTH_ROWS: &[Row] = &[
    ("both true", &[(1, 1), (2, 1), (2, 1)], Yes, 3),
    (
        "the last one false",
        &[(1, 1), (2, 1), (2, -1)],
        No { premise: 4 },
        3,
    ),
    (
        "the last one false at once",
        &[(1, 1), (2, -1), (2, 1)],
        No { premise: 4 },
        2,
    ),
    (
        "the first one false",
        &[(1, -1), (2, 1), (2, 1)],
        No { premise: 2 },
        1,
    ),
    (
        "both false",
        &[(1, -1), (2, -1), (2, 1)],
        No { premise: 2 },
        1,
    ),
];

#[test]
fn both(rt: HostRuntime) -> Result<(), Fail> {
    each_log(&rt, "", &made(rt.alloc(), &claims(true, true))?, BOTH_ROWS)
}

const ONE_OF_TWO_FIRST_ROWS: &[Row] = &[
    ("both true", &[(1, 1), (2, 1), (2, 1)], Yes, 1),
    ("the other false", &[(1, 1), (2, -1), (2, 1)], Yes, 1),
    (
        "the premise false",
        &[(1, -1), (2, 1), (2, 1)],
        No { premise: 2 },
        1,
    ),
];

const ONE_OF_TWO_SECOND_ROWS: &[Row] = &[
    ("both true", &[(1, 1), (2, 1), (2, 1)], Yes, 2),
    ("the other false", &[(1, -1), (2, 1), (2, 1)], Yes, 2),
    (
        "the premise false",
        &[(1, 1), (2, -1), (2, 1)],
        No { premise: 4 },
        1,
    ),
];

#[test]
fn one_of_two(rt: HostRuntime) -> Result<(), Fail> {
    each_log(
        &rt,
        "node 2, ",
        &made(rt.alloc(), &claims(true, false))?,
        ONE_OF_TWO_FIRST_ROWS,
    )?;
    each_log(
        &rt,
        "node 4, ",
        &made(rt.alloc(), &claims(false, true))?,
        ONE_OF_TWO_SECOND_ROWS,
    )
}
