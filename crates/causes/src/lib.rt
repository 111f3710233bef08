// Why a call refused: one enum for every refusal, with fixed numbers.
#![tactic(auto)]

mod cause;
mod text;

pub use cause::Cause;
