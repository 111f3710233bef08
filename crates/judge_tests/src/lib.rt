// Judges from outside the library, and tests of all judges: each limit on both sides, and each cause.
#![tactic(auto)]

#[cfg(test)]
mod chains;
#[cfg(test)]
mod others;
mod outside;
#[cfg(test)]
mod pairs;
#[cfg(test)]
mod residues;
#[cfg(test)]
mod shared;
#[cfg(test)]
mod sums;
#[cfg(test)]
mod texts;

pub use outside::{Clash, Never};
