// Judges from outside by the call that serves every judge, and the limits that judges state.
use crate::outside::*;
use crate::shared::*;
use judges::{Chain, Judge, Pair, Residue, Sum, referee};
use rows::JudgeCause::{NoConflict, TooManyRows};
use std::process::Abort;
use std::test::Fail;

#[test]
fn clashes(rt: HostRuntime) -> Result<(), Fail> {
    let five = one(1, U, -5);
    each(
        &rt,
        &Clash,
        &[
            ("they clash", &[five, one(1, U, -6)], &[], Ok(())),
            ("the same row", &[five, five], &[], Err(NoConflict)),
            ("another line", &[five, one(1, W, -6)], &[], Err(NoConflict)),
            (
                "another attribute",
                &[five, one(1, V, -6)],
                &[],
                Err(NoConflict),
            ),
            (
                "another coefficient",
                &[five, one(2, U, -6)],
                &[],
                Err(NoConflict),
            ),
            ("a voucher", &[five, one(1, U, -6)], &[0], Err(NoConflict)),
            ("one row", &[five], &[], Err(NoConflict)),
        ],
    )
}

#[test]
fn the_limit_comes_first(rt: HostRuntime) {
    let rows = [one(1, U, -5), one(1, U, -6), one(1, U, -7)];
    assert_eq!(rt; Clash.judge(&rows, &[]), Err(NoConflict));
    assert_eq!(rt; referee(&Clash, &rows, &[]), Err(TooManyRows));
    assert_eq!(rt; referee(&Never, &[bare(-1); 64], &[]), Err(NoConflict));
    assert_eq!(rt; referee(&Never, &[bare(-1); 65], &[]), Err(TooManyRows));
}

fn stated<J: Judge>(rt: &impl Abort, expected: usize) {
    assert_eq!(rt; J::ROWS, expected);
}

#[test]
fn limits_are_stated(rt: HostRuntime) {
    stated::<Sum>(&rt, 32);
    stated::<Chain>(&rt, 64);
    stated::<Residue>(&rt, 16);
    stated::<Never>(&rt, 64);
    stated::<Clash>(&rt, 2);
    stated::<Pair<Sum, Clash>>(&rt, 64);
}
