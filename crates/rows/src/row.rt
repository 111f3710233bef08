// Rows: what a conflict hands to a judge.

// An attribute of one object line, by the line's number and the attribute's.
#[derive(Clone, Copy, PartialEq, Eq, Default, Debug)]
pub struct Unknown {
    pub object: u32,
    pub attribute: u32,
}

// One unknown may stand in several terms of a row.
#[derive(Clone, Copy, PartialEq, Eq, Default, Debug)]
pub struct Term {
    pub coefficient: i32,
    pub unknown: Unknown,
}

#[derive(Clone, Copy, PartialEq, Eq, Debug)]
pub enum Relation {
    // 0 or more.
    AtLeast,
    // Exactly 0.
    Equal,
}

// The sum of the first `count` terms, plus the constant, is "at least" or "equal" to 0.
// There are eight places for terms, so a count beyond eight counts them all. A row is a plain value without a heap.
#[derive(Clone, Copy)]
pub struct Row {
    pub relation: Relation,
    pub terms: [Term; 8],
    pub count: usize,
    pub constant: i64,
}
