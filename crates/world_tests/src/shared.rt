// What the tests share: books of two classes, logs in short, and tables of logs with their answers.
use book::{Atom, Book, Class, Formula, Node, Term};
use causes::Cause;
use std::alloc::{AllocError, Global};
use std::fmt;
use std::process::Abort;
use std::slice::from_ref;
use std::test::Fail;
use world::{Answer, Element, Verdict, world_test};

// Two classes of one attribute each.
pub const CLASSES: [Class; 2] = [Class { attributes: 1 }, Class { attributes: 1 }];

pub const NO_SCOPE: [u32; 6] = [0, 0, 0, 0, 0, 0];

pub const FIRST: [u32; 6] = [1, 0, 0, 0, 0, 0];

pub const SECOND: [u32; 6] = [2, 0, 0, 0, 0, 0];

pub fn term(coefficient: i32, slot: u32) -> Term {
    Term {
        coefficient,
        slot,
        attribute: 0,
    }
}

pub fn node(scope: [u32; 6], formula: Formula) -> Node {
    Node {
        scope,
        premise: false,
        formula,
    }
}

pub fn premise(formula: Formula) -> Node {
    Node {
        scope: NO_SCOPE,
        premise: true,
        formula,
    }
}

// True where the element in the first slot has 0 or more.
pub fn not_negative() -> Formula {
    Formula::AtLeast(Atom::new(&[term(1, 0)], 0))
}

pub fn made(heap: Global, nodes: &[Node]) -> Result<Book, Fail> {
    let classes = Vec::from_slice(heap, &CLASSES)?;
    let nodes = Vec::from_slice(heap, nodes)?;
    Ok(Book::new(classes, nodes)?)
}

// Node 2: every element of class 1 has 0 or more. Node 4: the same of class 2.
pub fn claims(first: bool, second: bool) -> [Node; 4] {
    [
        node(FIRST, not_negative()),
        Node {
            premise: first,
            ..premise(Formula::Every { class: 1, body: 1 })
        },
        node(SECOND, not_negative()),
        Node {
            premise: second,
            ..premise(Formula::Every { class: 2, body: 3 })
        },
    ]
}

// A log in short: the class and the value of each element.
pub fn elements<'a>(heap: Global, log: &'a [(u32, i64)]) -> Result<Vec<Element<'a>>, AllocError> {
    let mut all = Vec::new(heap);
    for (class, value) in log {
        all.push(Element {
            class: *class,
            values: from_ref(value),
        })?;
    }
    Ok(all)
}

pub fn yes(visits: u32) -> Answer {
    Answer {
        verdict: Verdict::Yes,
        visits,
    }
}

pub fn no(premise: u32, visits: u32) -> Answer {
    Answer {
        verdict: Verdict::No { premise },
        visits,
    }
}

// A name, a log in short, and what the test answers: its verdict and the visits.
pub type Row = (&'static str, &'static [(u32, i64)], Verdict, u32);

// Answered with as many visits as it takes and with the largest budget, and refused with one visit less.
pub fn exactly(
    rt: &impl Abort,
    name: &impl fmt::Display,
    book: &Book,
    log: &[Element],
    expected: Answer,
) -> Result<(), Fail> {
    let visits = expected.visits;
    assert_eq!(rt;
        world_test(book, log, visits),
        Ok(expected),
        "{name}, just enough"
    );
    assert_eq!(rt;
        world_test(book, log, u32::MAX),
        Ok(expected),
        "{name}, the largest budget"
    );
    if visits == 0 {
        return Ok(());
    }
    assert_eq!(rt;
        world_test(book, log, visits - 1),
        Err(Cause::OverBudget),
        "{name}, one less"
    );
    Ok(())
}

pub fn each_log(
    rt: &(impl Abort + AllocGlobal),
    of: &str,
    book: &Book,
    table: &[Row],
) -> Result<(), Fail> {
    for (name, short, verdict, visits) in table {
        let log = elements(rt.alloc(), short)?;
        let expected = Answer {
            verdict: *verdict,
            visits: *visits,
        };
        exactly(rt, &format_args!("{of}{name}"), book, &log, expected)?;
    }
    Ok(())
}
