// The example judge, and rows for it and for the others.
ghost use Rattle.std.specs.Prelude.{◌≡◌, ◌≤◌, length};
ghost use Rattle.rows.specs.Making.{row_of};
ghost use Rattle.rows.specs.Meaning.{most_terms};
ghost use Rattle.cases.specs.Judges.{example_answer, opposed_rows, doubled as doubled_rows, own_ring, difference as difference_of, time_of, scaled as scaled_term};
ghost use Rattle.cases.specs.WorkedJudges.{WorkedJudgeCases};

use judges::{Chain, Pair, Residue, Sum, referee};
use rows::{JudgeCause, Relation, Row, Term, Unknown};

// The pair of the sum and the pair of the chain and the residue, asked as any judge is.
pub fn example_referee(rows: &[Row], voucher: &[i32]) -> Result<(), JudgeCause>
    ensures { result ≡ example_answer rows.now voucher.now }
{
    let judge = Pair {
        first: Sum,
        second: Pair {
            first: Chain,
            second: Residue,
        },
    };
    referee(&judge, rows, voucher)
}

// The times of an opening and of a grant, as attributes of their object lines.
const OPENED: u32 = 3;

const GRANTED: u32 = 11;

fn scaled(coefficient: i32, line: u32) -> Term
    ensures { result ≡ scaled_term coefficient (time_of line) }
{
    Term {
        coefficient,
        unknown: Unknown {
            object: line,
            attribute: 0,
        },
    }
}

fn made(relation: Relation, terms: &[Term], constant: i64) -> Row
    requires { length terms.now ≤ most_terms }
    ensures { result ≡ row_of relation terms.now constant }
{
    Row::new(relation, terms, constant).unwrap()
}

fn difference(plus: u32, minus: u32, constant: i64) -> Row
    ensures { result ≡ difference_of (time_of plus) (time_of minus) constant }
{
    made(
        Relation::AtLeast,
        &[scaled(1, plus), scaled(-1, minus)],
        constant,
    )
}

// An opening comes no earlier than its grant, and yet before it.
pub fn opposed() -> [Row; 2]
    ensures { result ≡ opposed_rows }
{
    let before = [scaled(-1, OPENED), scaled(1, GRANTED)];
    [
        difference(OPENED, GRANTED, 0),
        made(Relation::AtLeast, &before, -1),
    ]
}

// Twice a time, plus the constant, is 0.
pub fn doubled(constant: i64) -> [Row; 1]
    ensures { result ≡ doubled_rows constant }
{
    [made(Relation::Equal, &[scaled(2, OPENED)], constant)]
}

// A time, less itself, plus the constant, is at least 0.
pub fn in_a_ring(constant: i64) -> [Row; 1]
    ensures { result ≡ own_ring constant }
{
    [difference(OPENED, OPENED, constant)]
}

// How many cases of judges there are; that they hold is the promise.
pub fn worked_judge_cases() -> u32
    ensures count { result ≡ 8 }
    ensures hold { WorkedJudgeCases }
{
    8
}
