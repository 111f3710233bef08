// Rows that, times their numbers, add up to a negative constant alone.
ghost use Rattle.std.specs.Prelude.{◌≡◌, is_ok, Err};
ghost use Rattle.judges.specs.Judging.{Caused, Judged};
ghost use Rattle.judges.specs.Sum.{sum_rows, sum_asks, sum_answer};
ghost use Rattle.judges.specs.SumLaw.{sum_sound, sum_bounded};

use crate::combine::Combination;
use crate::meaning::Judge;
use crate::shared::{LARGEST_CONFLICT, last_cause, numbers_fit};
use rows::{JudgeCause, Row};

// The voucher has one number a row, from 0 to 1,048,576.
#[derive(Clone, Copy)]
pub struct Sum;

impl Judge for Sum {
    const ROWS: usize = 32;

    ghost ROWS = { sum_rows };

    ghost admits = { λ _ rows voucher. is_ok (sum_answer rows voucher) };

    ghost gives = { λ _ rows voucher e. sum_answer rows voucher ≡ Err e };

    ghost sound = { λ s. sum_sound };

    ghost bounded = { λ s. sum_bounded };

    fn judge(&self, rows: &[Row], voucher: &[i32]) -> Result<(), JudgeCause>
        ensures yes { is_ok result ≡ is_ok (sum_answer rows.now voucher.now) }
        ensures cause { Caused (λ e. sum_answer rows.now voucher.now ≡ Err e) result }
        ensures answer { result ≡ sum_answer rows.now voucher.now }
        ensures rule { Judged (sum_asks rows.now voucher.now) result }
    {
        add_up(rows, voucher)
    }
}

// The judge's answer.
fn add_up(rows: &[Row], voucher: &[i32]) -> Result<(), JudgeCause>
    ensures { result ≡ sum_answer rows.now voucher.now }
{
    if rows.len() > Sum::ROWS {
        return Err(JudgeCause::TooManyRows);
    }
    if !numbers_fit(0, rows.len(), voucher) {
        return Err(JudgeCause::BadVoucher);
    }
    let sum = Combination::of(rows, voucher);
    last_cause(sum.is_divided(0), sum.constant <= LARGEST_CONFLICT)
}
