// The sum of rows, each times its number: a total for each unknown, and a constant.
ghost use Rattle.std.specs.Prelude.{◌≡◌, ◌+◌, ◌*◌, ◌^◌, ◌<◌, ◌≤◌, [], length, ◌*ℤ◌, position, unsigned_abs};
ghost use Rattle.arrayvec.specs.ArrayVec.{array_vec_len};
ghost use Rattle.rows.specs.Meaning.{terms_of};
ghost use Rattle.judges.specs.Combination.{largest_number, constant_of};
ghost use Rattle.judges.specs.Residue.{divides as divides_test};
ghost use Rattle.judges.specs.Unknowns.{same_unknown};
ghost use Rattle.judges.specs.Gather.{most_combined, peak, Small, put, put_terms, gathered, each_total};

use crate::shared::divides;
use arrayvec::ArrayVec;
use rows::{Row, Unknown};

// What an unknown comes to so far.
#[derive(Clone, Copy, Default)]
pub(crate) struct Total {
    unknown: Unknown,
    total: i64,
}

// A total for each unknown so far. There is room for all terms of 32 rows.
type Totals = ArrayVec<Total, 256>;

fn weigh(number: i32, value: i64) -> i128
    requires { unsigned_abs number ≤ largest_number }
    ensures value { result ≡ number *ℤ value }
    ensures size { unsigned_abs result ≤ largest_number * unsigned_abs value }
{
    i128::from(number) * i128::from(value)
}

fn place(totals: &[Total], unknown: Unknown) -> Option<usize>
    ensures { result ≡ position (λ e. same_unknown e.unknown unknown) totals.now }
{
    totals.iter().position(|entry| entry.unknown == unknown)
}

fn add(totals: &mut Totals, unknown: Unknown, by: i64)
    requires room { array_vec_len totals.old < 256 }
    requires sizes { peak totals.old.items ≤ 2 ^ 62 }
    requires size { unsigned_abs by ≤ 2 ^ 51 }
    ensures table { totals.new.items ≡ put totals.old.items unknown by }
    ensures count { array_vec_len totals.new ≤ array_vec_len totals.old + 1 }
    ensures sizes { peak totals.new.items ≤ peak totals.old.items + 2 ^ 51 }
{
    match place(totals, unknown) {
        Some(i) => totals[i].total += by,
        None => totals.push(Total { unknown, total: by }),
    }
}

fn add_terms(totals: &mut Totals, row: &Row, number: i32)
    requires room { array_vec_len totals.old ≤ 248 }
    requires sizes { peak totals.old.items ≤ 2 ^ 61 }
    requires number { unsigned_abs number ≤ largest_number }
    ensures table { totals.new.items ≡ put_terms totals.old.items number (terms_of row.now) }
    ensures count { array_vec_len totals.new ≤ array_vec_len totals.old + 8 }
    ensures sizes { peak totals.new.items ≤ peak totals.old.items + 2 ^ 54 }
{
    for term in row.terms() {
        // 20 bits times 31, so 64 are enough.
        let by = weigh(number, i64::from(term.coefficient));
        add(totals, term.unknown, by as i64);
    }
}

// The sum of rows, each times its number.
#[derive(Drop)]
pub(crate) struct Combination {
    totals: Totals,
    pub(crate) constant: i128,
}

impl Combination {
    // Each term costs a look at the unknowns so far.
    pub(crate) fn of(rows: &[Row], numbers: &[i32]) -> Combination
        requires few { length rows.now ≤ most_combined }
        requires each { length numbers.now ≡ length rows.now }
        requires small { Small numbers.now }
        ensures totals { result.totals.items ≡ gathered [] rows.now numbers.now }
        ensures constant { result.constant ≡ constant_of rows.now numbers.now }
        ensures sizes { peak result.totals.items ≤ 2 ^ 59 }
    {
        let mut sum = Combination {
            totals: ArrayVec::new(),
            constant: 0,
        };
        for (row, number) in rows.iter().zip(numbers) {
            add_terms(&mut sum.totals, row, *number);
            sum.constant += weigh(*number, row.constant);
        }
        sum
    }

    // Whether the modulus divides each coefficient of the sum; 0 divides 0 alone.
    pub(crate) fn is_divided(&self, modulus: i32) -> bool
        ensures { result ≡ each_total (divides_test modulus) self.now.totals.items }
    {
        self.totals
            .iter()
            .all(|entry| divides(modulus, i128::from(entry.total)))
    }
}
