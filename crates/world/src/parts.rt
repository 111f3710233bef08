// Elements as they are handed in, and what is said of them.
ghost use Rattle.std.specs.Prelude.{◌≡◌};
ghost use Rattle.book.specs.Rules.{depth_of};

use book::Node;

// An element of a world: its class, and one number for each attribute of that class.
#[derive(Clone, Copy)]
pub struct Element<'a> {
    pub class: u32,
    pub values: &'a [i64],
}

// Whether a node is true, and how many elements were visited to tell.
#[derive(Clone, Copy)]
pub(crate) struct Evaluation {
    pub truth: bool,
    pub visits: u32,
}

impl Evaluation {
    // Told with no visit.
    pub(crate) fn at_once(truth: bool) -> Evaluation
        ensures { result ≡ record { truth = truth; visits = 0 } }
    {
        Evaluation { truth, visits: 0 }
    }
}

// A quantifier over a class, whose elements go into a slot until the body's truth is `want`.
#[derive(Clone, Copy)]
pub(crate) struct Quantifier {
    pub class: u32,
    pub body: u32,
    pub slot: usize,
    pub want: bool,
}

impl Quantifier {
    // The one that the node says: its elements go into the node's first unused slot.
    pub(crate) fn new(node: &Node, class: u32, body: u32, want: bool) -> Quantifier
        ensures { result ≡ record { class = class; body = body; slot = depth_of node.now.scope; want = want } }
    {
        Quantifier {
            class,
            body,
            slot: node.depth(),
            want,
        }
    }
}

// Whether every premise is true; else the lowest one that is false. A no names a premise, and it is no refusal.
#[derive(Clone, Copy, PartialEq, Eq, Debug)]
pub enum Verdict {
    Yes,
    No { premise: u32 },
}

// What the world test answers.
#[derive(Clone, Copy, PartialEq, Eq, Debug)]
pub struct Answer {
    pub verdict: Verdict,
    pub visits: u32,
}
