// Making a book, and reading it.
ghost use Rattle.std.specs.Prelude.{◌≡◌, true, false, MatchOption};
ghost use Rattle.book.specs.Rules.{is_class, attributes_of};
ghost use Rattle.book.specs.Whole.{classes_of, nodes_of, Making};

use crate::made::Book;
use crate::parts::{Class, Node};
use crate::rules::{attributes, inspect};
use causes::Cause;

impl Book {
    // A book of just these classes and nodes, where they keep every rule.
    pub fn new(classes: Vec<Class>, nodes: Vec<Node>) -> Result<Book, Cause>
        ensures { Making classes.items nodes.items result }
    {
        inspect(&classes, &nodes)?;
        Ok(Book { classes, nodes })
    }

    pub fn classes(&self) -> &[Class]
        ensures { result.now ≡ classes_of self.now }
    {
        &self.classes
    }

    // How many attributes a class of the book has.
    pub fn attributes(&self, class: u32) -> Option<u32>
        ensures { MatchOption result (is_class (classes_of self.now) class ≡ false) (λ k. (is_class (classes_of self.now) class ≡ true) × (k ≡ attributes_of (classes_of self.now) class)) }
    {
        attributes(&self.classes, class)
    }

    pub fn nodes(&self) -> &[Node]
        ensures { result.now ≡ nodes_of self.now }
    {
        &self.nodes
    }
}
