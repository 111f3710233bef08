// The causes of refusal. Each has its number, and a detail that says where the fault lies. Details are the numbers
// that are published, 0 among them.

#[derive(Clone, Copy, PartialEq, Eq, Debug)]
pub enum Cause {
    // The book breaks a rule: its lowest bad node, or 0 where a count or a premise mark is wrong.
    BadBook { node: u32 },
    // The world test cannot take the elements: the first bad one, counted from 1, or 0 for too many.
    BadWorld { element: u32 },
    // The visits exceed the budget.
    OverBudget,
}
