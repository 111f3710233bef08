// The judge Chain.
use crate::shared::*;
use judges::Chain;
use rows::JudgeCause::{BadShape, BadVoucher, NoConflict, TooManyRows, UnknownsLeft};
use rows::Relation::{AtLeast, Equal};
use std::process::Abort;
use std::test::Fail;

fn rings_of_one_or_two(rt: &impl Abort) -> Result<(), Fail> {
    each(
        rt,
        &Chain,
        &[
            ("no rows", &[], &[], Err(NoConflict)),
            ("an unknown to itself", &[link(U, U, -1)], &[], Ok(())),
            ("without conflict", &[link(U, U, 0)], &[], Err(NoConflict)),
            (
                "there and back",
                &[link(U, W, 0), link(W, U, -1)],
                &[],
                Ok(()),
            ),
            ("turned", &[turned(U, W, -1), turned(W, U, 0)], &[], Ok(())),
            ("mixed", &[link(U, W, -3), turned(W, U, 2)], &[], Ok(())),
            (
                "1 and -1",
                &[link(U, W, 1), link(W, U, -1)],
                &[],
                Err(NoConflict),
            ),
        ],
    )
}

fn rings_of_three(rt: &impl Abort) -> Result<(), Fail> {
    let whole = [link(U, W, 5), turned(W, V, -9), link(V, U, 3)];
    let no_end = [link(U, W, 0), link(W, V, 0), link(V, W, -1)];
    let no_middle = [link(U, W, 0), link(V, W, 0), link(W, U, -1)];
    each(
        rt,
        &Chain,
        &[
            ("three rows", &whole, &[], Ok(())),
            ("broken at the last link", &no_end, &[], Err(UnknownsLeft)),
            ("broken in the middle", &no_middle, &[], Err(UnknownsLeft)),
        ],
    )
}

fn broken_rings(rt: &impl Abort) -> Result<(), Fail> {
    let wrong_way = [link(U, W, 0), link(U, W, -1)];
    each(
        rt,
        &Chain,
        &[
            ("one row", &[link(U, W, -1)], &[], Err(UnknownsLeft)),
            (
                "another attribute",
                &[link(U, V, -1)],
                &[],
                Err(UnknownsLeft),
            ),
            ("the wrong way", &wrong_way, &[], Err(UnknownsLeft)),
            (
                "broken, without conflict",
                &[link(U, W, 0)],
                &[],
                Err(UnknownsLeft),
            ),
        ],
    )
}

#[test]
fn rings(rt: HostRuntime) -> Result<(), Fail> {
    rings_of_one_or_two(&rt)?;
    rings_of_three(&rt)?;
    broken_rings(&rt)
}

// A row of wrong shape: alone, after a good row, and with a voucher. It has three terms in u, the first ones count.
#[test]
fn shapes(rt: HostRuntime) -> Result<(), Fail> {
    let table = [
        ("an equation", Equal, [1, -1, 1], 2),
        ("no terms", AtLeast, [1, -1, 1], 0),
        ("one term", AtLeast, [1, -1, 1], 1),
        ("three terms", AtLeast, [1, -1, 1], 3),
        ("1 and 1", AtLeast, [1, 1, -1], 2),
        ("-1 and -1", AtLeast, [-1, -1, 1], 2),
        ("2 and -2", AtLeast, [2, -2, 1], 2),
        ("1 and 0", AtLeast, [1, 0, -1], 2),
        ("0 and -1", AtLeast, [0, -1, 1], 2),
    ];
    for (name, relation, coefficients, count) in table {
        let terms = coefficients.map(|c| term(c, U));
        let rows = [link(U, U, -1), row(relation, terms, count, -1)];
        answers(&rt, &name, &Chain, &rows[1..2], &[], Err(BadShape))?;
        answers(&rt, &name, &Chain, &rows, &[], Err(BadShape))?;
        answers(&rt, &name, &Chain, &rows[1..2], &[0], Err(BadVoucher))?;
    }
    Ok(())
}

#[test]
fn limits(rt: HostRuntime) -> Result<(), Fail> {
    let rows = [link(U, U, -1); 65];
    each(
        &rt,
        &Chain,
        &[
            ("64 rows", &rows[0..64], &[], Ok(())),
            ("65 rows", &rows, &[], Err(TooManyRows)),
            (
                "65 rows of wrong shape",
                &[bare(-1); 65],
                &[],
                Err(TooManyRows),
            ),
            ("65 rows and a voucher", &rows, &[0], Err(TooManyRows)),
            (
                "the least constants",
                &[link(U, U, i64::MIN); 64],
                &[],
                Ok(()),
            ),
            (
                "the largest constants",
                &[link(U, U, i64::MAX); 64],
                &[],
                Err(NoConflict),
            ),
            ("a voucher", &rows[0..1], &[0], Err(BadVoucher)),
            (
                "a voucher, and broken",
                &[link(U, W, -1)],
                &[0],
                Err(BadVoucher),
            ),
        ],
    )
}
