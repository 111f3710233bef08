// Makes rule books, tests event logs against them, and prints a line for each.
#![tactic(auto)]

use book::Book;
use cases::{GRANT, OPENING, example_book, nested_book, rule_book};
use causes::Cause;
use world::{Element, world_test};

const PLENTY: u32 = 1000;

// An event of a class, with its times.
fn event(class: u32, times: &[i64]) -> Element {
    Element {
        class,
        values: times,
    }
}

// What was tested, and what the world test says of it.
fn show(
    rt: &impl Print,
    book: &Book,
    what: &str,
    log: &[Element],
    budget: u32,
) -> anyhow::Result<()> {
    match world_test(book, log, budget) {
        Ok(answer) => println!(rt; "{what}: {answer}")?,
        Err(cause) => println!(rt; "{what}: {cause}")?,
    }
    Ok(())
}

fn show_logs(rt: &impl Print, book: &Book) -> anyhow::Result<()> {
    let pair = [event(OPENING, &[5]), event(GRANT, &[5])];
    show(rt, book, "empty log", &[], PLENTY)?;
    show(rt, book, "opening at 5, grant at 5", &pair, PLENTY)?;
    show(rt, book, "the same, within 4 visits", &pair, 4)?;
    show(rt, book, "the same, within 3 visits", &pair, 3)?;
    show(
        rt,
        book,
        "opening at 5, grant at 6",
        &[event(OPENING, &[5]), event(GRANT, &[6])],
        PLENTY,
    )?;
    show(
        rt,
        book,
        "opening at 5, an event of class 3",
        &[event(OPENING, &[5]), event(3, &[6])],
        PLENTY,
    )?;
    show(
        rt,
        book,
        "grant with two times",
        &[event(GRANT, &[5, 6])],
        PLENTY,
    )?;
    show(
        rt,
        book,
        "grant at 2147483648",
        &[
            event(OPENING, &[5]),
            event(OPENING, &[3]),
            event(GRANT, &[2_147_483_648]),
        ],
        PLENTY,
    )
}

fn show_book(rt: &impl Print, what: &str, made: Result<Book, Cause>) -> anyhow::Result<()> {
    match made {
        Ok(book) => println!(rt; "{what}: made, {} nodes", book.nodes().len())?,
        Err(cause) => println!(rt; "{what}: {cause}")?,
    }
    Ok(())
}

fn run(rt: &HostRuntime) -> anyhow::Result<()> {
    let heap = rt.alloc();
    println!(rt;
        "The rule and the forbidden event: an opening wants a grant no later, yet some opening has none."
    )?;
    let book = example_book(heap)?;
    show_logs(rt, &book)?;
    println!(rt; "The rule alone.")?;
    let rule = rule_book(heap)?;
    show(
        rt,
        &rule,
        "grant at 4, opening at 5",
        &[event(GRANT, &[4]), event(OPENING, &[5])],
        PLENTY,
    )?;
    show(
        rt,
        &rule,
        "opening at 3, grant at 4",
        &[event(OPENING, &[3]), event(GRANT, &[4])],
        PLENTY,
    )?;
    println!(rt; "Books at a limit.")?;
    show_book(
        rt,
        "exists at depth 5",
        nested_book(heap, [1, 1, 1, 1, 1, 0])?,
    )?;
    show_book(
        rt,
        "exists at depth 6",
        nested_book(heap, [1, 1, 1, 1, 1, 1])?,
    )
}

fn main(rt: HostRuntime) -> anyhow::Result<()> {
    run(&rt)
}
