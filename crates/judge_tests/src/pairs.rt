// Pairs of judges, nested ones too, and judges from outside in them.
use crate::outside::*;
use crate::shared::*;
use judges::{Chain, Pair, Residue, Sum};
use rows::JudgeCause::{BadShape, BadVoucher, NoConflict, TooManyRows, UnknownsLeft};
use std::test::Fail;

type Nested = Pair<Sum, Pair<Chain, Residue>>;

fn example() -> Nested {
    Pair {
        first: Sum,
        second: Pair {
            first: Chain,
            second: Residue,
        },
    }
}

#[test]
fn picks(rt: HostRuntime) -> Result<(), Fail> {
    let table: [(&'static [i32], Answer); 16] = [
        (&[0, 1, 1], Ok(())),
        (&[0, 1, 0], Err(UnknownsLeft)),
        (&[0, 0, 0], Err(NoConflict)),
        (&[0, 1], Err(BadVoucher)),
        (&[0], Err(BadVoucher)),
        (&[], Err(BadVoucher)),
        (&[2, 1, 1], Err(BadVoucher)),
        (&[-1, 1, 1], Err(BadVoucher)),
        (&[1_048_576], Err(BadVoucher)),
        (&[1, 0], Ok(())),
        (&[1, 0, 0], Err(BadVoucher)),
        (&[1], Err(BadVoucher)),
        (&[1, 2], Err(BadVoucher)),
        (&[1, 1, 2, 1, 1], Err(BadShape)),
        (&[1, 1, 1, 1, 1], Err(BadVoucher)),
        (&[1, 1], Err(BadVoucher)),
    ];
    each_voucher(&rt, &example(), &[link(U, W, 0), link(W, U, -1)], &table)
}

#[test]
fn limits(rt: HostRuntime) -> Result<(), Fail> {
    let rows = [link(U, U, -1); 65];
    each(
        &rt,
        &example(),
        &[
            ("64 rows by the chain", &rows[0..64], &[1, 0], Ok(())),
            ("65 rows", &rows, &[1, 0], Err(TooManyRows)),
            ("65 rows, no voucher", &rows, &[], Err(TooManyRows)),
            ("65 rows, no such judge", &rows, &[7], Err(TooManyRows)),
            ("33 rows by the sum", &rows[0..33], &[0], Err(TooManyRows)),
            (
                "33 rows, no such judge",
                &rows[0..33],
                &[2],
                Err(BadVoucher),
            ),
            (
                "17 rows by the residue",
                &rows[0..17],
                &[1, 1],
                Err(TooManyRows),
            ),
            ("a remainder", &[equation(2, 0, -1)], &[1, 1, 2, 1], Ok(())),
        ],
    )
}

#[test]
fn outside_judges(rt: HostRuntime) -> Result<(), Fail> {
    let judge = Pair {
        first: Never,
        second: Pair {
            first: Clash,
            second: Sum,
        },
    };
    let five = one(1, U, -5);
    let six = one(1, U, -6);
    each(
        &rt,
        &judge,
        &[
            ("never", &[five, six], &[0], Err(NoConflict)),
            ("they clash", &[five, six], &[1, 0], Ok(())),
            ("they do not", &[five, five], &[1, 0], Err(NoConflict)),
            ("the sum", &[five, six], &[1, 1, 1, 1], Err(UnknownsLeft)),
        ],
    )
}
