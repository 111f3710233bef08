// An atom from a list of terms, and its terms again.
ghost use Rattle.std.specs.Prelude.{◌≡◌, ◌≤◌, length};
ghost use Rattle.book.specs.Limits.{most_terms};
ghost use Rattle.book.specs.Rules.{places_of, terms_of};

use crate::parts::{Atom, Term};
use crate::rules::MOST_TERMS;
use std::array;

impl Atom {
    // An atom has places for eight terms. One that is made of more keeps their count, so that its node is bad.
    pub fn new(terms: &[Term], constant: i32) -> Atom
        ensures count { result.count ≡ length terms.now }
        ensures places { result.terms ≡ places_of terms.now }
        ensures constant { result.constant ≡ constant }
    {
        Atom {
            terms: array::from_fn(|i| terms.get(i).copied().unwrap_or_default()),
            count: terms.len(),
            constant,
        }
    }

    // The terms that count: all eight where the count is larger.
    pub fn terms(&self) -> &[Term]
        ensures value { result.now ≡ terms_of self.now }
        ensures few { length result.now ≤ most_terms }
    {
        &self.terms[..self.count.min(MOST_TERMS)]
    }
}
