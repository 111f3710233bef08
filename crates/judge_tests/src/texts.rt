// Rows in ordinary notation, causes as text, and rows of eight and nine terms.
use crate::shared::*;
use rows::{JudgeCause, Relation, Row};
use std::test::Fail;

#[test]
fn rows_as_text(rt: HostRuntime) -> Result<(), Fail> {
    let three = [term(3, U), term(0, V), term(-2, W)];
    let least = [term(i32::MIN, U), term(i32::MAX, W), term(1, V)];
    let table = [
        (link(U, W, 0), "u3.0 - u11.0 >= 0"),
        (turned(U, W, -1), "-u11.0 + u3.0 - 1 >= 0"),
        (link(U, V, 12), "u3.0 - u3.1 + 12 >= 0"),
        (row(Relation::Equal, three, 1, -1), "3 u3.0 - 1 = 0"),
        (
            row(Relation::Equal, three, 3, 0),
            "3 u3.0 + 0 u3.1 - 2 u11.0 = 0",
        ),
        (bare(0), "0 >= 0"),
        (bare(-7), "-7 >= 0"),
        (
            row(Relation::AtLeast, least, 2, i64::MIN),
            "-2147483648 u3.0 + 2147483647 u11.0 - 9223372036854775808 >= 0",
        ),
    ];
    for (row, text) in table {
        assert_eq!(rt; row.to_string(rt.alloc())?.as_str(), text);
    }
    Ok(())
}

#[test]
fn causes(rt: HostRuntime) -> Result<(), Fail> {
    let table = [
        (JudgeCause::TooManyRows, 1, "cause 1: too many rows"),
        (
            JudgeCause::BadVoucher,
            2,
            "cause 2: voucher of wrong length or range",
        ),
        (JudgeCause::BadShape, 3, "cause 3: a row of wrong shape"),
        (JudgeCause::UnknownsLeft, 4, "cause 4: unknowns left over"),
        (
            JudgeCause::NoConflict,
            5,
            "cause 5: constant without conflict",
        ),
    ];
    for (cause, number, text) in table {
        assert_eq!(rt; cause.number(), number);
        assert_eq!(rt; cause.to_string(rt.alloc())?.as_str(), text);
    }
    Ok(())
}

#[test]
fn terms(rt: HostRuntime) -> Result<(), Fail> {
    let nine = [term(1, U); 9];
    assert!(rt; Row::new(Relation::AtLeast, &nine, 0).is_none());
    for count in 0..9 {
        let made = Row::new(Relation::Equal, &nine[0..count], 5).ok_or("too many")?;
        assert_eq!(rt; made.terms().len(), count);
        assert_eq!(rt; made.constant, 5);
    }
    let mut more = bare(0);
    more.count = 9;
    assert_eq!(rt; more.terms().len(), 8);
    Ok(())
}
