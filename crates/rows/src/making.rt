// A row from a list of terms, and its terms again.
ghost use Rattle.std.specs.Prelude.{◌≡◌, ◌<◌, ◌≤◌, length, MatchOption};
ghost use Rattle.rows.specs.Meaning.{terms_of, most_terms};
ghost use Rattle.rows.specs.Making.{made_row};

use crate::row::{Relation, Row, Term};
use std::array;

const MOST_TERMS: usize = 8;

impl Row {
    // None where there are more than eight terms.
    pub fn new(relation: Relation, terms: &[Term], constant: i64) -> Option<Row>
        ensures row { result ≡ made_row relation terms.now constant }
        ensures kept { MatchOption result (most_terms < length terms.now) (λ row. terms_of row ≡ terms.now) }
    {
        if terms.len() > MOST_TERMS {
            return None;
        }
        Some(Row {
            relation,
            terms: array::from_fn(|i| terms.get(i).copied().unwrap_or_default()),
            count: terms.len(),
            constant,
        })
    }

    // The terms that count.
    pub fn terms(&self) -> &[Term]
        ensures value { result.now ≡ terms_of self.now }
        ensures few { length result.now ≤ most_terms }
    {
        &self.terms[..self.count.min(MOST_TERMS)]
    }
}
