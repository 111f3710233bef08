// The judge Sum.
use crate::shared::*;
use judges::Sum;
use rows::JudgeCause::{BadVoucher, NoConflict, TooManyRows, UnknownsLeft};
use rows::{Relation, Row};
use std::test::Fail;

#[test]
fn vouchers(rt: HostRuntime) -> Result<(), Fail> {
    let table: [(&'static [i32], Answer); 13] = [
        (&[1, 1], Ok(())),
        (&[7, 7], Ok(())),
        (&[1_048_576, 1_048_576], Ok(())),
        (&[1_048_577, 1], Err(BadVoucher)),
        (&[1, 1_048_577], Err(BadVoucher)),
        (&[1, -1], Err(BadVoucher)),
        (&[], Err(BadVoucher)),
        (&[1], Err(BadVoucher)),
        (&[1, 1, 1], Err(BadVoucher)),
        (&[1, 0], Err(UnknownsLeft)),
        (&[2, 1], Err(UnknownsLeft)),
        (&[0, 1], Err(UnknownsLeft)),
        (&[0, 0], Err(NoConflict)),
    ];
    each_voucher(&rt, &Sum, &[link(U, W, 0), link(W, U, -1)], &table)
}

#[test]
fn limits(rt: HostRuntime) -> Result<(), Fail> {
    let low = [bare(-1); 33];
    let left = [link(U, W, 0); 33];
    let ones = [1; 33];
    each(
        &rt,
        &Sum,
        &[
            ("no rows", &[], &[], Err(NoConflict)),
            ("32 rows", &low[0..32], &ones[0..32], Ok(())),
            ("33 rows", &low, &ones, Err(TooManyRows)),
            ("33 rows, unknowns left", &left, &ones, Err(TooManyRows)),
            ("33 rows, no voucher", &low, &[], Err(TooManyRows)),
            ("constant -1", &[bare(-1)], &[1], Ok(())),
            ("constant 0", &[bare(0)], &[1], Err(NoConflict)),
            ("constants -2 and 1", &[bare(-2), bare(1)], &[1, 1], Ok(())),
            (
                "constants -1 and 1",
                &[bare(-1), bare(1)],
                &[1, 1],
                Err(NoConflict),
            ),
            (
                "unknowns left, constant 0",
                &left[0..1],
                &[1],
                Err(UnknownsLeft),
            ),
            (
                "negative number, unknowns left",
                &left[0..1],
                &[-1],
                Err(BadVoucher),
            ),
        ],
    )
}

#[test]
fn several_terms(rt: HostRuntime) -> Result<(), Fail> {
    let least = Relation::AtLeast;
    let thrice = row(least, [term(1, U), term(1, U), term(-2, U)], 3, -1);
    let attributes = row(least, [term(1, U), term(-1, V), term(0, W)], 2, -1);
    let nothing = row(least, [term(0, U); 3], 3, -1);
    let five = one(1, U, -5);
    let four = row(least, [term(-1, U); 3], 1, 4);
    each(
        &rt,
        &Sum,
        &[
            ("one unknown three times", &[thrice], &[1], Ok(())),
            (
                "two attributes of one line",
                &[attributes],
                &[1],
                Err(UnknownsLeft),
            ),
            ("terms of 0", &[nothing], &[1], Ok(())),
            ("an equation", &[five, four], &[1, 1], Ok(())),
            (
                "no term in the first row",
                &[bare(-1), four],
                &[0, 1],
                Err(UnknownsLeft),
            ),
        ],
    )
}

// The least coefficient in all eight places, in as many rows as there can be.
#[test]
fn extremes(rt: HostRuntime) -> Result<(), Fail> {
    let eight = Row {
        relation: Relation::Equal,
        terms: [term(i32::MIN, U); 8],
        count: 9,
        constant: i64::MIN,
    };
    let up = term(i32::MAX, U);
    let down = term(-i32::MAX, U);
    let even = Row {
        relation: Relation::AtLeast,
        terms: [up, down, up, down, up, down, up, down],
        count: usize::MAX,
        constant: i64::MIN,
    };
    let most = [1_048_576; 32];
    each(
        &rt,
        &Sum,
        &[
            (
                "coefficients add up",
                &[eight; 32],
                &most,
                Err(UnknownsLeft),
            ),
            ("coefficients cancel", &[even; 32], &most, Ok(())),
            (
                "the largest constants",
                &[bare(i64::MAX); 32],
                &most,
                Err(NoConflict),
            ),
        ],
    )
}

// 256 unknowns, no two the same.
#[test]
fn as_many_unknowns_as_there_can_be(rt: HostRuntime) -> Result<(), Fail> {
    let mut rows = [bare(-1); 32];
    for (i, r) in rows.iter_mut().enumerate() {
        for (k, t) in r.terms.iter_mut().enumerate() {
            t.unknown.object = i as u32;
            t.unknown.attribute = k as u32;
        }
        r.count = 8;
    }
    answers(
        &rt,
        &"each taken once",
        &Sum,
        &rows,
        &[1; 32],
        Err(UnknownsLeft),
    )?;
    answers(&rt, &"none taken", &Sum, &rows, &[0; 32], Err(NoConflict))
}
