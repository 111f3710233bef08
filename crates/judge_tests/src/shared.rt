// What the tests share: unknowns, rows in short, and tables of vouchers with their answers.
use judges::{Judge, referee};
use rows::{JudgeCause, Relation, Row, Term, Unknown};
use std::fmt;
use std::process::Abort;
use std::test::Fail;

pub const U: Unknown = Unknown {
    object: 3,
    attribute: 0,
};

pub const W: Unknown = Unknown {
    object: 11,
    attribute: 0,
};

// The same line as U, and another attribute.
pub const V: Unknown = Unknown {
    object: 3,
    attribute: 1,
};

pub fn term(coefficient: i32, unknown: Unknown) -> Term {
    Term {
        coefficient,
        unknown,
    }
}

// The terms that count come first; what stands in the other places plays no part.
pub fn row(relation: Relation, terms: [Term; 3], count: usize, constant: i64) -> Row {
    let [a, b, c] = terms;
    let other = term(7, V);
    Row {
        relation,
        terms: [a, b, c, other, other, other, other, other],
        count,
        constant,
    }
}

// c is at least 0.
pub fn bare(constant: i64) -> Row {
    row(Relation::AtLeast, [term(7, V); 3], 0, constant)
}

// x - y + c is at least 0.
pub fn link(x: Unknown, y: Unknown, constant: i64) -> Row {
    row(
        Relation::AtLeast,
        [term(1, x), term(-1, y), term(7, V)],
        2,
        constant,
    )
}

// The same with its terms in the other order.
pub fn turned(x: Unknown, y: Unknown, constant: i64) -> Row {
    row(
        Relation::AtLeast,
        [term(-1, y), term(1, x), term(7, V)],
        2,
        constant,
    )
}

// a x + c equals 0.
pub fn one(coefficient: i32, unknown: Unknown, constant: i64) -> Row {
    row(
        Relation::Equal,
        [term(coefficient, unknown); 3],
        1,
        constant,
    )
}

// a u + b w + c equals 0.
pub fn equation(a: i32, b: i32, constant: i64) -> Row {
    row(
        Relation::Equal,
        [term(a, U), term(b, W), term(7, V)],
        2,
        constant,
    )
}

pub type Answer = Result<(), JudgeCause>;

// The judge itself and the call that stands before every judge answer alike.
pub fn answers<J: Judge>(
    rt: &impl Abort,
    name: &impl fmt::Display,
    judge: &J,
    rows: &[Row],
    voucher: &[i32],
    expected: Answer,
) -> Result<(), Fail> {
    assert_eq!(rt; judge.judge(rows, voucher), expected, "{name}");
    assert_eq!(rt;
        referee(judge, rows, voucher),
        expected,
        "{name}, by the referee"
    );
    Ok(())
}

// What is asked, by name: rows, a voucher, and what is answered.
pub type Case<'a> = (&'static str, &'a [Row], &'a [i32], Answer);

pub fn each<J: Judge>(rt: &impl Abort, judge: &J, table: &[Case]) -> Result<(), Fail> {
    for (name, rows, voucher, expected) in table {
        answers(rt, name, judge, rows, voucher, *expected)?;
    }
    Ok(())
}

// Vouchers for the same rows, each with what is answered.
pub fn each_voucher<J: Judge>(
    rt: &impl Abort,
    judge: &J,
    rows: &[Row],
    table: &[(&'static [i32], Answer)],
) -> Result<(), Fail> {
    for (voucher, expected) in table {
        answers(
            rt,
            &format_args!("voucher {voucher:?}"),
            judge,
            rows,
            voucher,
            *expected,
        )?;
    }
    Ok(())
}
