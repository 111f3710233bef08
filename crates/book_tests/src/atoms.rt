// Atoms: coefficients, constants, counts of terms, slots and attributes.
use crate::shared::*;
use book::{Atom, Formula};
use std::fmt;
use std::process::Abort;
use std::test::Fail;

// The atom under "0 or more" and under "exactly 0".
fn each_way(
    rt: &(impl Abort + AllocGlobal),
    name: &impl fmt::Display,
    scope: [u32; 6],
    atom: Atom,
    fits: bool,
) -> Result<(), Fail> {
    let nodes = [premise(NO_SCOPE), plain(NO_SCOPE)];
    for formula in [Formula::AtLeast(atom), Formula::Equal(atom)] {
        placed(rt, name, &nodes, 2, node(scope, formula), fits)?;
    }
    Ok(())
}

#[test]
fn coefficients(rt: HostRuntime) -> Result<(), Fail> {
    let table = [
        (0, true),
        (32_767, true),
        (-32_767, true),
        (32_768, false),
        (-32_768, false),
        (2_147_483_647, false),
        (-2_147_483_648, false),
    ];
    for (coefficient, fits) in table {
        let atom = Atom::new(&[term(coefficient, 0, 0)], 0);
        each_way(
            &rt,
            &format_args!("coefficient {coefficient}"),
            ONE,
            atom,
            fits,
        )?;
    }
    Ok(())
}

#[test]
fn constants(rt: HostRuntime) -> Result<(), Fail> {
    let table = [
        (0, true),
        (2_147_483_647, true),
        (-2_147_483_647, true),
        (-2_147_483_648, false),
    ];
    for (constant, fits) in table {
        let atom = Atom::new(&[], constant);
        each_way(
            &rt,
            &format_args!("constant {constant}"),
            NO_SCOPE,
            atom,
            fits,
        )?;
    }
    Ok(())
}

#[test]
fn counts_of_terms(rt: HostRuntime) -> Result<(), Fail> {
    for (count, fits) in [(0, true), (1, true), (8, true), (9, false)] {
        let terms = several(&rt, term(1, 0, 0), count)?;
        let atom = Atom::new(&terms, 0);
        each_way(&rt, &format_args!("{count} terms"), ONE, atom, fits)?;
    }
    Ok(())
}

// Every counted term is looked at, and no other.
#[test]
fn places_of_terms(rt: HostRuntime) -> Result<(), Fail> {
    let fine = term(1, 0, 0);
    let bad = term(1, 0, 3);
    let table = [
        ([bad, fine, fine, fine, fine, fine, fine, fine], 0, true),
        ([bad, fine, fine, fine, fine, fine, fine, fine], 1, false),
        ([fine, fine, fine, fine, fine, fine, fine, bad], 7, true),
        ([fine, fine, fine, fine, fine, fine, fine, bad], 8, false),
        ([fine; 8], 8, true),
        ([fine; 8], 9, false),
    ];
    for (terms, count, fits) in table {
        let atom = Atom {
            terms,
            count,
            constant: 0,
        };
        each_way(&rt, &format_args!("{count} counted terms"), ONE, atom, fits)?;
    }
    Ok(())
}

#[test]
fn slots(rt: HostRuntime) -> Result<(), Fail> {
    let table = [
        (NO_SCOPE, 0, false),
        (ONE, 0, true),
        (ONE, 1, false),
        (ONE_TWO, 1, true),
        (ONE_TWO, 2, false),
        (ONE_TWO, 6, false),
        (SIX, 5, true),
        (SIX, 6, false),
        (SIX, 4_294_967_295, false),
    ];
    for (scope, slot, fits) in table {
        let atom = Atom::new(&[term(1, slot, 0)], 0);
        each_way(
            &rt,
            &format_args!("slot {slot} of {scope:?}"),
            scope,
            atom,
            fits,
        )?;
    }
    Ok(())
}

// Class 1 has three attributes, class 2 has eight.
#[test]
fn attributes(rt: HostRuntime) -> Result<(), Fail> {
    let table = [
        (0, 0, true),
        (0, 2, true),
        (0, 3, false),
        (1, 3, true),
        (1, 7, true),
        (1, 8, false),
        (1, 4_294_967_295, false),
    ];
    for (slot, attribute, fits) in table {
        let atom = Atom::new(&[term(1, slot, attribute)], 0);
        each_way(
            &rt,
            &format_args!("attribute {attribute} of slot {slot}"),
            ONE_TWO,
            atom,
            fits,
        )?;
    }
    Ok(())
}
