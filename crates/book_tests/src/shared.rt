// What the tests share: two classes, nodes of one line, and the answer to a book.
ghost use Rattle.std.specs.Prelude.{◌≤◌, length};

use book::{Atom, Book, Class, Formula, Node, Term};
use std::alloc::AllocError;
use std::fmt;
use std::process::Abort;
use std::test::Fail;

pub const CLASSES: [Class; 2] = [Class { attributes: 3 }, Class { attributes: 8 }];

pub const NO_SCOPE: [u32; 6] = [0, 0, 0, 0, 0, 0];

pub const ONE: [u32; 6] = [1, 0, 0, 0, 0, 0];

pub const ONE_TWO: [u32; 6] = [1, 2, 0, 0, 0, 0];

pub const SIX: [u32; 6] = [1, 2, 1, 2, 1, 2];

pub fn term(coefficient: i32, slot: u32, attribute: u32) -> Term {
    Term {
        coefficient,
        slot,
        attribute,
    }
}

pub fn node(scope: [u32; 6], formula: Formula) -> Node {
    Node {
        scope,
        premise: false,
        formula,
    }
}

// A node that keeps the rules wherever its scope does.
pub fn plain(scope: [u32; 6]) -> Node {
    node(scope, Formula::AtLeast(Atom::new(&[], 0)))
}

// The same as a premise.
pub fn premise(scope: [u32; 6]) -> Node {
    Node {
        premise: true,
        ..plain(scope)
    }
}

pub fn several<T: Copy + Drop>(
    rt: &impl AllocGlobal,
    x: T,
    count: usize,
) -> Result<Vec<T>, AllocError> {
    Ok(vec![in rt.alloc(); x; count]?)
}

// The detail of the refusal, or None where the book is made.
pub fn fault(
    rt: &(impl Abort + AllocGlobal),
    classes: &[Class],
    nodes: &[Node],
) -> Result<Option<u32>, Fail> {
    let own_classes = Vec::from_slice(rt.alloc(), classes)?;
    let own_nodes = Vec::from_slice(rt.alloc(), nodes)?;
    match Book::new(own_classes, own_nodes) {
        Ok(_) => Ok(None),
        Err(cause) => {
            assert_eq!(rt; cause.number(), 14);
            Ok(Some(cause.detail()))
        }
    }
}

// The other nodes keep every rule, and this one stands in place of node n.
pub fn placed(
    rt: &(impl Abort + AllocGlobal),
    name: &impl fmt::Display,
    nodes: &[Node],
    n: u32,
    node: Node,
    fits: bool,
) -> Result<(), Fail>
    requires low { 1 ≤ n }
    requires high { n ≤ length nodes.now }
{
    let mut all = Vec::from_slice(rt.alloc(), nodes)?;
    all[n as usize - 1] = node;
    let expected = (!fits).then_some(n);
    assert_eq!(rt; fault(rt, &CLASSES, &all)?, expected, "{name}");
    Ok(())
}

// Books of four nodes, and the details of their refusals.
pub fn each_book(
    rt: &(impl Abort + AllocGlobal),
    table: &[(&'static str, [Node; 4], Option<u32>)],
) -> Result<(), Fail> {
    for (name, nodes, expected) in table {
        assert_eq!(rt; fault(rt, &CLASSES, nodes)?, *expected, "{name}");
    }
    Ok(())
}
