// A made book: one that keeps every rule, and stays so.
ghost use Rattle.book.specs.Rules.{WellFormed};

mod making;

use crate::parts::{Class, Node};

#[derive(Drop)]
pub struct Book {
    classes: Vec<Class>,
    nodes: Vec<Node>,
    ghost rules: { WellFormed classes.items nodes.items },
}
