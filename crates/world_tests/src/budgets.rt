// Budgets: the tables try each log with just enough visits, and with one less. This is what comes before them.
use crate::example::example;
use crate::shared::*;
use causes::Cause;
use std::test::Fail;
use world::{Element, world_test};

const OPENING: Element<'static> = Element {
    class: 1,
    values: &[5],
};

const GRANT: Element<'static> = Element {
    class: 2,
    values: &[5],
};

// A bad element is found before any visit.
#[test]
fn bad_elements_come_first(rt: HostRuntime) -> Result<(), Fail> {
    let book = example(rt.alloc())?;
    let bad = Element {
        class: 3,
        values: &[5],
    };
    for budget in [0, 3, 4, 4_294_967_295] {
        let found = world_test(&book, &[OPENING, GRANT, bad], budget);
        assert_eq!(rt;
            found,
            Err(Cause::BadWorld { element: 3 }),
            "budget {budget}"
        );
    }
    Ok(())
}
