// The parts of a book, as they are handed in: nothing is claimed of them until a book is made.

// A class of elements, by its count of attributes. Classes are numbered from 1, attributes from 0.
#[derive(Clone, Copy, PartialEq, Eq, Debug)]
pub struct Class {
    pub attributes: u32,
}

// A coefficient times an attribute of the element in a slot.
#[derive(Clone, Copy, PartialEq, Eq, Default, Debug)]
pub struct Term {
    pub coefficient: i32,
    pub slot: u32,
    pub attribute: u32,
}

// The sum of the first `count` terms, plus the constant. A node is a plain value without a heap, so an atom has places.
#[derive(Clone, Copy, PartialEq, Eq, Debug)]
pub struct Atom {
    pub terms: [Term; 8],
    pub count: usize,
    pub constant: i32,
}

// Children and bodies are node numbers.
#[derive(Clone, Copy, PartialEq, Eq, Debug)]
pub enum Formula {
    // 0 or more.
    AtLeast(Atom),
    // Exactly 0.
    Equal(Atom),
    And { left: u32, right: u32 },
    Or { left: u32, right: u32 },
    Exists { class: u32, body: u32 },
    Every { class: u32, body: u32 },
}

// The scope has a class number in each used slot, which come first, and 0 in the others, as books are written.
#[derive(Clone, Copy, PartialEq, Eq, Debug)]
pub struct Node {
    pub scope: [u32; 6],
    pub premise: bool,
    pub formula: Formula,
}
