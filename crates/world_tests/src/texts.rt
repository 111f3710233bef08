// Answers and refusals, by number and as text.
use crate::shared::*;
use causes::Cause;
use std::test::Fail;

#[test]
fn answers(rt: HostRuntime) -> Result<(), Fail> {
    let table = [
        (yes(3), 0, "yes, visits 3"),
        (yes(4_294_967_295), 0, "yes, visits 4294967295"),
        (no(6, 4), 6, "no, premise 6 is false, visits 4"),
        (no(4096, 10), 4096, "no, premise 4096 is false, visits 10"),
    ];
    for (answer, number, text) in table {
        assert_eq!(rt; answer.verdict.number(), number, "{}", text);
        assert_eq!(rt; answer.to_string(rt.alloc())?.as_str(), text);
    }
    Ok(())
}

#[test]
fn refusals(rt: HostRuntime) -> Result<(), Fail> {
    let table = [
        (
            Cause::BadBook { node: 3 },
            "refused by 14, detail 3: the book breaks a rule",
        ),
        (
            Cause::BadBook { node: 0 },
            "refused by 14, detail 0: the book breaks a rule",
        ),
        (
            Cause::BadWorld { element: 2 },
            "refused by 15, detail 2: no world for this book",
        ),
        (
            Cause::OverBudget,
            "refused by 16, detail 0: more visits than the budget",
        ),
    ];
    for (cause, text) in table {
        assert_eq!(rt; cause.to_string(rt.alloc())?.as_str(), text);
    }
    Ok(())
}
