// Equations whose sum leaves a remainder.
ghost use Rattle.std.specs.Prelude.{◌≡◌, ◌≤◌, ◌∷◌, length, is_ok, Err};
ghost use Rattle.judges.specs.Judging.{Caused, Judged};
ghost use Rattle.judges.specs.Residue.{residue_rows, all_equal, residue_asks, residue_passes, residue_answer};
ghost use Rattle.rows.specs.declared.cause.JudgeCause.TheVariants.{BadVoucher};
ghost use Rattle.judges.specs.ResidueLaw.{residue_sound, residue_bounded};

use crate::combine::Combination;
use crate::meaning::Judge;
use crate::shared::{LARGEST_NUMBER, divides, last_cause, numbers_fit};
use rows::{JudgeCause, Relation, Row};

// The voucher has a modulus, from 2 to 1,048,576, and then one number a row, within ±1,048,576.
#[derive(Clone, Copy)]
pub struct Residue;

impl Judge for Residue {
    const ROWS: usize = 16;

    ghost ROWS = { residue_rows };

    ghost admits = { λ _ rows voucher. is_ok (residue_answer rows voucher) };

    ghost gives = { λ _ rows voucher e. residue_answer rows voucher ≡ Err e };

    ghost sound = { λ s. residue_sound };

    ghost bounded = { λ s. residue_bounded };

    fn judge(&self, rows: &[Row], voucher: &[i32]) -> Result<(), JudgeCause>
        ensures yes { is_ok result ≡ is_ok (residue_answer rows.now voucher.now) }
        ensures cause { Caused (λ e. residue_answer rows.now voucher.now ≡ Err e) result }
        ensures answer { result ≡ residue_answer rows.now voucher.now }
        ensures rule { Judged (residue_asks rows.now voucher.now) result }
    {
        leave_remainder(rows, voucher)
    }
}

fn are_equations(rows: &[Row]) -> bool
    ensures { result ≡ all_equal rows.now }
{
    rows.iter().all(|row| row.relation == Relation::Equal)
}

// The judge's answer.
fn leave_remainder(rows: &[Row], voucher: &[i32]) -> Result<(), JudgeCause>
    ensures { result ≡ residue_answer rows.now voucher.now }
{
    if rows.len() > Residue::ROWS {
        return Err(JudgeCause::TooManyRows);
    }
    match voucher {
        [modulus, numbers @ ..] => leave_by(rows, *modulus, numbers),
        [] => Err(JudgeCause::BadVoucher),
    }
}

// Whether modulus and numbers are in range, with a number for each row.
fn fits(rows: &[Row], modulus: i32, numbers: &[i32]) -> bool
    ensures { result ≡ residue_passes rows.now (modulus ∷ numbers.now) BadVoucher }
{
    (2..=LARGEST_NUMBER).contains(&modulus) && numbers_fit(-LARGEST_NUMBER, rows.len(), numbers)
}

// The answer for a voucher of this modulus and these numbers.
fn leave_by(rows: &[Row], modulus: i32, numbers: &[i32]) -> Result<(), JudgeCause>
    requires { length rows.now ≤ residue_rows }
    ensures { result ≡ residue_answer rows.now (modulus ∷ numbers.now) }
{
    if !fits(rows, modulus, numbers) {
        return Err(JudgeCause::BadVoucher);
    }
    if !are_equations(rows) {
        return Err(JudgeCause::BadShape);
    }
    let sum = Combination::of(rows, numbers);
    last_cause(sum.is_divided(modulus), !divides(modulus, sum.constant))
}
