// Linear rows over whole numbers, and why a judge of them says no.
#![tactic(auto)]

mod cause;
mod making;
mod row;
mod text;

pub use cause::JudgeCause;
pub use row::{Relation, Row, Term, Unknown};
