// The example book, and the worked cases that are proved of it.
#![tactic(auto)]

mod books;
mod judging;
mod worked;

pub use books::{GRANT, OPENING, example_book, nested_book, rule_book};
pub use judging::{doubled, example_referee, in_a_ring, opposed, worked_judge_cases};
pub use worked::worked_cases;
