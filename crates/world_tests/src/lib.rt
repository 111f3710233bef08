// Tests of the world test: verdicts and visits worked out by hand, and each refusal on both sides of its limit.
#![tactic(auto)]

#[cfg(test)]
mod atoms;
#[cfg(test)]
mod budgets;
#[cfg(test)]
mod elements;
#[cfg(test)]
mod example;
#[cfg(test)]
mod joins;
#[cfg(test)]
mod nested;
#[cfg(test)]
mod premises;
#[cfg(test)]
mod quantifiers;
#[cfg(test)]
mod shared;
#[cfg(test)]
mod texts;
