// The judge Residue.
use crate::shared::*;
use judges::Residue;
use rows::JudgeCause::{BadShape, BadVoucher, NoConflict, TooManyRows, UnknownsLeft};
use std::test::Fail;

#[test]
fn vouchers(rt: HostRuntime) -> Result<(), Fail> {
    let table: [(&'static [i32], Answer); 19] = [
        (&[2, 1], Ok(())),
        (&[2, -1], Ok(())),
        (&[2, 3], Ok(())),
        (&[2, 2], Err(NoConflict)),
        (&[2, 1_048_575], Ok(())),
        (&[2, -1_048_575], Ok(())),
        (&[2, 1_048_576], Err(NoConflict)),
        (&[2, -1_048_576], Err(NoConflict)),
        (&[2, 1_048_577], Err(BadVoucher)),
        (&[2, -1_048_577], Err(BadVoucher)),
        (&[3, 1], Err(UnknownsLeft)),
        (&[3, 3], Err(NoConflict)),
        (&[1, 1], Err(BadVoucher)),
        (&[0, 1], Err(BadVoucher)),
        (&[-2, 1], Err(BadVoucher)),
        (&[], Err(BadVoucher)),
        (&[2], Err(BadVoucher)),
        (&[2, 1, 1], Err(BadVoucher)),
        (&[1_048_577, 1], Err(BadVoucher)),
    ];
    each_voucher(&rt, &Residue, &[equation(2, 0, -1)], &table)
}

#[test]
fn remainders(rt: HostRuntime) -> Result<(), Fail> {
    let sum = [equation(1, 1, -1), equation(1, -1, 0)];
    each(
        &rt,
        &Residue,
        &[
            ("no rows", &[], &[2], Err(NoConflict)),
            ("2u - 2", &[equation(2, 0, -2)], &[2, 1], Err(NoConflict)),
            (
                "the largest modulus",
                &[equation(1_048_576, 0, -1)],
                &[1_048_576, 1],
                Ok(()),
            ),
            (
                "u left, constant 1",
                &[equation(3, 0, 1)],
                &[2, 1],
                Err(UnknownsLeft),
            ),
            (
                "u left, constant 2",
                &[equation(3, 0, 2)],
                &[2, 1],
                Err(UnknownsLeft),
            ),
            ("a sum", &sum, &[2, 1, 1], Ok(())),
            ("a difference", &sum, &[2, 1, -1], Ok(())),
            ("one row of two", &sum, &[2, 1, 0], Err(UnknownsLeft)),
            ("a remainder", &[equation(-6, 9, -4)], &[3, 1], Ok(())),
            (
                "multiples alone",
                &[equation(-6, 9, -12)],
                &[3, 1],
                Err(NoConflict),
            ),
        ],
    )
}

#[test]
fn limits(rt: HostRuntime) -> Result<(), Fail> {
    let odd = equation(2, 0, 1);
    let mut rows = [odd; 17];
    rows[0] = equation(2, 0, 2);
    let mut ones = [1; 18];
    ones[0] = 2;
    let least = [equation(i32::MIN, i32::MIN, i64::MIN); 16];
    let most = [1_048_576; 17];
    let mut other = most;
    other[0] = 1_048_575;
    let bad = link(U, U, -1);
    each(
        &rt,
        &Residue,
        &[
            ("16 rows", &rows[0..16], &ones[0..17], Ok(())),
            ("17 rows", &rows, &ones, Err(TooManyRows)),
            ("17 rows, no voucher", &rows, &[], Err(TooManyRows)),
            ("15 rows, even", &rows[0..15], &ones[0..16], Err(NoConflict)),
            ("at least", &[bad], &[2, 1], Err(BadShape)),
            ("at least, second", &[odd, bad], &[2, 1, 1], Err(BadShape)),
            ("at least, modulus 1", &[bad], &[1, 1], Err(BadVoucher)),
            (
                "at least, u left",
                &[link(U, W, -1)],
                &[2, 1],
                Err(BadShape),
            ),
            ("the least numbers", &least, &most, Err(NoConflict)),
            (
                "the least numbers, odd modulus",
                &least,
                &other,
                Err(UnknownsLeft),
            ),
        ],
    )
}
