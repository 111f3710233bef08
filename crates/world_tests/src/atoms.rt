// Atoms: "0 or more" and "exactly 0", near 0 and at the largest sums.
use crate::shared::*;
use book::{Atom, Formula};
use std::fmt;
use std::process::Abort;
use std::test::Fail;
use world::{Answer, Element};

const LARGEST: i32 = 2_147_483_647;

fn told(truth: bool, visits: u32) -> Answer {
    if truth { yes(visits) } else { no(2, visits) }
}

// The sum of the terms for an element of class 1 with this value, under "0 or more" and under "exactly 0".
fn each_way(
    rt: &(impl Abort + AllocGlobal),
    name: &impl fmt::Display,
    atom: Atom,
    value: i64,
    at_least: bool,
    equal: bool,
) -> Result<(), Fail> {
    let log = [Element {
        class: 1,
        values: &[value],
    }];
    for (formula, truth) in [
        (Formula::AtLeast(atom), at_least),
        (Formula::Equal(atom), equal),
    ] {
        let every = premise(Formula::Every { class: 1, body: 1 });
        let book = made(rt.alloc(), &[node(FIRST, formula), every])?;
        exactly(rt, name, &book, &log, told(truth, 1))?;
    }
    Ok(())
}

#[test]
fn constants(rt: HostRuntime) -> Result<(), Fail> {
    let table = [
        (-LARGEST, false, false),
        (-1, false, false),
        (0, true, true),
        (1, true, false),
        (LARGEST, true, false),
    ];
    for (constant, at_least, equal) in table {
        let atom = Atom::new(&[], constant);
        each_way(
            &rt,
            &format_args!("constant {constant}"),
            atom,
            7,
            at_least,
            equal,
        )?;
    }
    Ok(())
}

// A coefficient, a constant and a value whose sum is -1, 0 or 1.
#[test]
fn values(rt: HostRuntime) -> Result<(), Fail> {
    let table = [
        (1, 0, -1, false, false),
        (1, 0, 0, true, true),
        (1, 0, 1, true, false),
        (-1, 0, 1, false, false),
        (-1, 0, 0, true, true),
        (-1, 0, -1, true, false),
        (3, 5, -2, false, false),
        (3, 6, -2, true, true),
        (3, 7, -2, true, false),
    ];
    for (coefficient, constant, value, at_least, equal) in table {
        let atom = Atom::new(&[term(coefficient, 0)], constant);
        each_way(
            &rt,
            &format_args!("{coefficient} times {value} plus {constant}"),
            atom,
            value,
            at_least,
            equal,
        )?;
    }
    Ok(())
}

// As many terms as an atom can have: four of one coefficient, three of another, and the last one.
fn eight(four: i32, three: i32, last: i32, constant: i32) -> Atom {
    let a = term(four, 0);
    let b = term(three, 0);
    Atom::new(&[a, a, a, a, b, b, b, term(last, 0)], constant)
}

// Sums, each for an element of this value, under "0 or more" and under "exactly 0".
fn each_sum(
    rt: &(impl Abort + AllocGlobal),
    table: &[(Atom, i64, bool, bool)],
) -> Result<(), Fail> {
    for (atom, value, at_least, equal) in table {
        each_way(
            rt,
            &format_args!("value {value}, constant {}", atom.constant),
            *atom,
            *value,
            *at_least,
            *equal,
        )?;
    }
    Ok(())
}

#[test]
fn the_largest_sums(rt: HostRuntime) -> Result<(), Fail> {
    let most = 2_147_483_647;
    let table = [
        (eight(32_767, 32_767, 32_767, LARGEST), most, true, false),
        (eight(32_767, 32_767, 32_767, -LARGEST), -most, false, false),
        (
            eight(-32_767, -32_767, -32_767, -LARGEST),
            most,
            false,
            false,
        ),
        (
            eight(-32_767, -32_767, -32_767, LARGEST),
            -most,
            true,
            false,
        ),
    ];
    each_sum(&rt, &table)
}

// The terms add up to 0, or to the value itself.
#[test]
fn sums_that_cancel(rt: HostRuntime) -> Result<(), Fail> {
    let most = 2_147_483_647;
    let table = [
        (eight(32_767, -32_767, -32_767, 0), most, true, true),
        (eight(32_767, -32_767, -32_767, 1), -most, true, false),
        (eight(32_767, -32_767, -32_767, -1), most, false, false),
        (eight(32_767, -32_767, -32_766, -LARGEST), most, true, true),
        (eight(32_767, -32_767, -32_766, LARGEST), -most, true, true),
        (
            eight(32_767, -32_767, -32_766, 1 - LARGEST),
            most,
            true,
            false,
        ),
        (
            eight(32_767, -32_767, -32_766, -LARGEST),
            most - 1,
            false,
            false,
        ),
    ];
    each_sum(&rt, &table)
}
