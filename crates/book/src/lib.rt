// Rule books: classes of elements and a table of formula nodes, some of them premises.
#![tactic(auto)]

mod atoms;
mod made;
mod parts;
mod rules;

pub use made::Book;
pub use parts::{Atom, Class, Formula, Node, Term};
