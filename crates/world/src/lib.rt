// Worlds, and what the premises of a book say in them.
#![tactic(auto)]

mod atoms;
mod elements;
mod evaluate;
mod parts;
mod premises;
mod testing;
mod text;

pub use elements::LARGEST_VALUE;
pub use parts::{Answer, Element, Verdict};
pub use testing::world_test;
