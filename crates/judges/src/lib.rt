// Judges: what shows that no whole numbers satisfy a list of rows. Each named judge has an impl of its own, since its
// clauses name its own rule.
#![tactic(auto)]

mod asking;
mod chains;
mod combine;
mod meaning;
mod pairs;
mod residues;
mod shared;
mod sums;

pub use asking::referee;
pub use chains::Chain;
pub use meaning::Judge;
pub use pairs::Pair;
pub use residues::Residue;
pub use sums::Sum;
