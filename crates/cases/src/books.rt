// The example book: an opening of a door wants a grant at its time or before, and yet some opening has none.
ghost use Rattle.std.specs.Prelude.{◌≡◌, ℕ, List, [], ◌∷◌, IfOk};
ghost use Rattle.book.specs.Rules.{WellFormed};
ghost use Rattle.book.specs.Whole.{classes_of, nodes_of, Making};
ghost use Rattle.book.specs.declared.parts.Formula.TheVariants.{AtLeast};
ghost use Rattle.cases.specs.Book.{example_classes_lem, example_nodes_lem, rule_nodes, one_class, nested_nodes_lem, always, times, in_slots_lem};

use book::{Atom, Book, Class, Formula, Node, Term};
use causes::Cause;
use std::alloc::{AllocError, Global};

// An event of a door, with its time as attribute 0.
pub const OPENING: u32 = 1;

pub const GRANT: u32 = 2;

// The rule is said by this many of the example's nodes.
const RULE: usize = 3;

fn at_least(first: i32, second: i32, constant: i32) -> Formula
    ensures { result ≡ AtLeast (times first second constant) }
{
    let terms = [
        Term {
            coefficient: first,
            slot: 0,
            attribute: 0,
        },
        Term {
            coefficient: second,
            slot: 1,
            attribute: 0,
        },
    ];
    Formula::AtLeast(Atom::new(&terms, constant))
}

fn always_true() -> Formula
    ensures { result ≡ always }
{
    Formula::AtLeast(Atom::new(&[], 0))
}

fn in_slots(a: u32, b: u32) -> [u32; 6]
    ensures { result ≡ in_slots_lem a b }
{
    [a, b, 0, 0, 0, 0]
}

fn example_classes() -> [Class; 2]
    ensures { result ≡ example_classes_lem }
{
    [Class { attributes: 1 }; 2]
}

fn node(scope: [u32; 6], premise: bool, formula: Formula) -> Node
    ensures { result ≡ record { scope = scope; premise = premise; formula = formula } }
{
    Node {
        scope,
        premise,
        formula,
    }
}

fn example_nodes() -> [Node; 6]
    ensures { result ≡ example_nodes_lem }
{
    let both = in_slots(OPENING, GRANT);
    let one = in_slots(OPENING, 0);
    let none = in_slots(0, 0);
    [
        node(both, false, at_least(1, -1, 0)),
        node(
            one,
            false,
            Formula::Exists {
                class: GRANT,
                body: 1,
            },
        ),
        node(
            none,
            true,
            Formula::Every {
                class: OPENING,
                body: 2,
            },
        ),
        node(both, false, at_least(-1, 1, -1)),
        node(
            one,
            false,
            Formula::Every {
                class: GRANT,
                body: 4,
            },
        ),
        node(
            none,
            true,
            Formula::Exists {
                class: OPENING,
                body: 5,
            },
        ),
    ]
}

// A book that keeps every rule, so that only want of memory refuses it.
fn lawful_book(heap: Global, classes: &[Class], nodes: &[Node]) -> Result<Book, AllocError>
    requires { WellFormed classes.now nodes.now }
    ensures { IfOk result (λ b. (classes_of b ≡ classes.now) × (nodes_of b ≡ nodes.now)) }
{
    let own_classes = Vec::from_slice(heap, classes)?;
    let own_nodes = Vec::from_slice(heap, nodes)?;
    Ok(Book::new(own_classes, own_nodes).unwrap())
}

// The rule and the forbidden event.
pub fn example_book(heap: Global) -> Result<Book, AllocError>
    ensures { IfOk result (λ b. (classes_of b ≡ example_classes_lem) × (nodes_of b ≡ example_nodes_lem)) }
{
    let nodes = example_nodes();
    lawful_book(heap, &example_classes(), &nodes)
}

// The rule alone, without the forbidden event.
pub fn rule_book(heap: Global) -> Result<Book, AllocError>
    ensures { IfOk result (λ b. (classes_of b ≡ example_classes_lem) × (nodes_of b ≡ rule_nodes)) }
{
    let nodes = example_nodes();
    lawful_book(heap, &example_classes(), &nodes[0..RULE])
}

fn nested_nodes(scope: [u32; 6]) -> [Node; 3]
    ensures { result ≡ nested_nodes_lem scope }
{
    let always = always_true();
    [
        node([1, 1, 1, 1, 1, 1], false, always),
        node(scope, false, Formula::Exists { class: 1, body: 1 }),
        node(in_slots(0, 0), true, always),
    ]
}

// A book with an "exists" of this scope, over a body that uses all six slots.
pub fn nested_book(heap: Global, scope: [u32; 6]) -> Result<Result<Book, Cause>, AllocError>
    ensures { IfOk result (λ m. Making one_class (nested_nodes_lem scope) m) }
{
    let classes = Vec::from_slice(heap, &[Class { attributes: 1 }])?;
    let nodes = Vec::from_slice(heap, &nested_nodes(scope))?;
    Ok(Book::new(classes, nodes))
}
