// Differences in a ring: the constants of a way that ends where it began.
ghost use Rattle.std.specs.Prelude.{◌≡◌, ◌≤◌, length, is_ok, Err};
ghost use Rattle.std.specs.List.{list_all, zip};
ghost use Rattle.rows.specs.Meaning.{terms_of};
ghost use Rattle.judges.specs.Judging.{Caused, Judged};
ghost use Rattle.judges.specs.Chain.{chain_rows, unknown_with_lem, linked, is_difference, all_differences, home_of, leads, constants_of, chain_asks, chain_answer};
ghost use Rattle.judges.specs.ChainLaw.{chain_sound, chain_bounded};

use crate::meaning::Judge;
use crate::shared::{LARGEST_CONFLICT, last_cause};
use rows::{JudgeCause, Relation, Row, Unknown};

// The voucher is empty.
#[derive(Clone, Copy)]
pub struct Chain;

impl Judge for Chain {
    const ROWS: usize = 64;

    ghost ROWS = { chain_rows };

    ghost admits = { λ _ rows voucher. is_ok (chain_answer rows voucher) };

    ghost gives = { λ _ rows voucher e. chain_answer rows voucher ≡ Err e };

    ghost sound = { λ s. chain_sound };

    ghost bounded = { λ s. chain_bounded };

    fn judge(&self, rows: &[Row], voucher: &[i32]) -> Result<(), JudgeCause>
        ensures yes { is_ok result ≡ is_ok (chain_answer rows.now voucher.now) }
        ensures cause { Caused (λ e. chain_answer rows.now voucher.now ≡ Err e) result }
        ensures answer { result ≡ chain_answer rows.now voucher.now }
        ensures rule { Judged (chain_asks rows.now voucher.now) result }
    {
        go_round(rows, voucher)
    }
}

// The judge's answer.
fn go_round(rows: &[Row], voucher: &[i32]) -> Result<(), JudgeCause>
    ensures { result ≡ chain_answer rows.now voucher.now }
{
    if rows.len() > Chain::ROWS {
        return Err(JudgeCause::TooManyRows);
    }
    if !voucher.is_empty() {
        return Err(JudgeCause::BadVoucher);
    }
    if !are_links(rows) {
        return Err(JudgeCause::BadShape);
    }
    last_cause(is_ring(rows), sum_constants(rows) <= LARGEST_CONFLICT)
}

// The unknown of the first term with this coefficient; the default where there is none.
fn unknown_with(row: &Row, coefficient: i32) -> Unknown
    ensures { result ≡ unknown_with_lem coefficient (terms_of row.now) }
{
    row.terms()
        .iter()
        .find(|term| term.coefficient == coefficient)
        .map(|term| term.unknown)
        .unwrap_or_default()
}

fn is_link(row: &Row) -> bool
    ensures { result ≡ is_difference row.now }
{
    match row.terms() {
        [a, b] => {
            row.relation == Relation::AtLeast
                && matches!((a.coefficient, b.coefficient), (1, -1) | (-1, 1))
        }
        _ => false,
    }
}

fn are_links(rows: &[Row]) -> bool
    ensures { result ≡ all_differences rows.now }
{
    rows.iter().all(is_link)
}

// Whether the unknown with -1 of a row is the next one's with 1.
fn leads_to(row: &Row, next: &Row) -> bool
    ensures { result ≡ linked (row.now, next.now) }
{
    unknown_with(row, -1) == unknown_with(next, 1)
}

// Whether each row leads to the one beside it, as far as both lists go.
fn are_linked(rows: &[Row], next: &[Row]) -> bool
    ensures { result ≡ list_all linked (zip rows.now next.now) }
{
    rows.iter().zip(next).all(|(row, next)| leads_to(row, next))
}

// Each row leads to the next one, and the last one to the first.
fn is_ring(rows: &[Row]) -> bool
    ensures { result ≡ leads (home_of rows.now) rows.now }
{
    let ([first, more @ ..], [.., last]) = (rows, rows) else {
        return true;
    };
    are_linked(rows, more) && leads_to(last, first)
}

fn sum_constants(rows: &[Row]) -> i128
    requires { length rows.now ≤ chain_rows }
    ensures { result ≡ constants_of rows.now }
{
    let mut sum = 0i128;
    for row in rows {
        sum += i128::from(row.constant);
    }
    sum
}
