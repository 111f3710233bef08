// Which elements are taken, and which refusal names which element.
use crate::shared::*;
use book::{Atom, Book, Class, Formula};
use causes::Cause;
use std::alloc::Global;
use std::fmt;
use std::process::Abort;
use std::test::Fail;
use world::{Element, LARGEST_VALUE, world_test};

// One that the book takes.
const FINE: Element<'static> = Element {
    class: 2,
    values: &[1, 2, 3],
};

// Its class is unknown.
const BAD: Element<'static> = Element {
    class: 0,
    values: &[5],
};

// Class 1 has one attribute, class 2 has three, and the one premise is true in every world.
fn lenient(heap: Global) -> Result<Book, Fail> {
    let classes = Vec::from_slice(heap, &[Class { attributes: 1 }, Class { attributes: 3 }])?;
    let nodes = Vec::from_slice(heap, &[premise(Formula::AtLeast(Atom::new(&[], 0)))])?;
    Ok(Book::new(classes, nodes)?)
}

// Refused as this element, or taken where there is none.
fn refused(
    rt: &impl Abort,
    name: &impl fmt::Display,
    book: &Book,
    log: &[Element],
    bad: Option<u32>,
) -> Result<(), Fail> {
    let expected = match bad {
        Some(element) => Err(Cause::BadWorld { element }),
        None => Ok(yes(0)),
    };
    assert_eq!(rt; world_test(book, log, 0), expected, "{name}");
    Ok(())
}

fn placed(
    rt: &impl Abort,
    name: &impl fmt::Display,
    book: &Book,
    log: &[Element],
    place: u32,
    fits: bool,
) -> Result<(), Fail> {
    let bad = (!fits).then_some(place);
    refused(rt, &format_args!("{name}, place {place}"), book, log, bad)
}

// The element first, last and between others.
fn each_place(
    rt: &impl Abort,
    name: &impl fmt::Display,
    book: &Book,
    class: u32,
    values: &[i64],
    fits: bool,
) -> Result<(), Fail> {
    let e = Element { class, values };
    placed(rt, name, book, &[e, FINE, FINE], 1, fits)?;
    placed(rt, name, book, &[FINE, e, FINE], 2, fits)?;
    placed(rt, name, book, &[FINE, FINE, e], 3, fits)
}

#[test]
fn classes(rt: HostRuntime) -> Result<(), Fail> {
    let book = lenient(rt.alloc())?;
    for (class, fits) in [
        (0, false),
        (1, true),
        (2, false),
        (3, false),
        (4_294_967_295, false),
    ] {
        each_place(
            &rt,
            &format_args!("class {class}"),
            &book,
            class,
            &[5],
            fits,
        )?;
    }
    Ok(())
}

#[test]
fn counts_of_values(rt: HostRuntime) -> Result<(), Fail> {
    let book = lenient(rt.alloc())?;
    let values = [1, 2, 3, 4];
    for (count, one, three) in [
        (0, false, false),
        (1, true, false),
        (2, false, false),
        (3, false, true),
        (4, false, false),
    ] {
        let some = values.get(0..count).unwrap_or(&[]);
        each_place(
            &rt,
            &format_args!("class 1, {count} values"),
            &book,
            1,
            some,
            one,
        )?;
        each_place(
            &rt,
            &format_args!("class 2, {count} values"),
            &book,
            2,
            some,
            three,
        )?;
    }
    Ok(())
}

#[test]
fn sizes_of_values(rt: HostRuntime) -> Result<(), Fail> {
    let book = lenient(rt.alloc())?;
    let table = [
        (LARGEST_VALUE, true),
        (2_147_483_647, true),
        (-2_147_483_647, true),
        (2_147_483_648, false),
        (-2_147_483_648, false),
        (i64::MAX, false),
        (i64::MIN, false),
    ];
    for (v, fits) in table {
        each_place(
            &rt,
            &format_args!("first value {v}"),
            &book,
            2,
            &[v, 0, 0],
            fits,
        )?;
        each_place(
            &rt,
            &format_args!("last value {v}"),
            &book,
            2,
            &[0, 0, v],
            fits,
        )?;
    }
    Ok(())
}

#[test]
fn the_first_bad_element(rt: HostRuntime) -> Result<(), Fail> {
    let book = lenient(rt.alloc())?;
    let fine = (1, 5);
    let unknown = (3, 5);
    let short = (2, 5);
    let large = (1, 2_147_483_648);
    let table = [
        ([fine, fine, fine, fine], None),
        ([unknown, fine, unknown, fine], Some(1)),
        ([fine, unknown, unknown, fine], Some(2)),
        ([fine, large, fine, unknown], Some(2)),
        ([fine, fine, short, large], Some(3)),
        ([fine, fine, large, short], Some(3)),
        ([fine, fine, fine, unknown], Some(4)),
        ([large, short, unknown, fine], Some(1)),
    ];
    for (pairs, bad) in table {
        let log = elements(rt.alloc(), &pairs)?;
        refused(&rt, &format_args!("bad: {bad:?}"), &book, &log, bad)?;
    }
    Ok(())
}

#[test]
fn counts_of_elements(rt: HostRuntime) -> Result<(), Fail> {
    let book = lenient(rt.alloc())?;
    let mut most = [FINE; 256];
    let mut more = [FINE; 257];
    refused(&rt, &"256", &book, &most, None)?;
    refused(&rt, &"257", &book, &more, Some(0))?;
    most[255] = BAD;
    more[256] = BAD;
    refused(&rt, &"256, the last one bad", &book, &most, Some(256))?;
    refused(&rt, &"257, the last one bad", &book, &more, Some(0))?;
    most[0] = BAD;
    more[0] = BAD;
    refused(&rt, &"256, the first one bad", &book, &most, Some(1))?;
    refused(&rt, &"257, the first one bad", &book, &more, Some(0))
}
