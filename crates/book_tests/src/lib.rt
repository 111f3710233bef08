// Tests of rule books: each rule on both sides of its limit.
#![tactic(auto)]

#[cfg(test)]
mod atoms;
#[cfg(test)]
mod counts;
#[cfg(test)]
mod faults;
#[cfg(test)]
mod joins;
#[cfg(test)]
mod kept;
#[cfg(test)]
mod quantifiers;
#[cfg(test)]
mod scopes;
#[cfg(test)]
mod shared;
