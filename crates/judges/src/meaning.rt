// What a judge is, whoever brings it.
ghost use Rattle.std.specs.Prelude.{◌≡◌, ℕ, ◌≤◌, Bool, T, List, length, ℤ, is_ok};
ghost use Rattle.rows.specs.Meaning.{Impossible};
ghost use Rattle.rows.specs.declared.cause.JudgeCause.{JudgeCause as Reason};
ghost use Rattle.rows.specs.declared.row.Row.{Row as LinearRow};
ghost use Rattle.judges.specs.Judging.{Caused};

use rows::{JudgeCause, Row};

pub trait Judge {
    // The row limit.
    const ROWS: usize;

    ghost ROWS: { ℕ };

    // The meaning: the rows that are admitted, each list with its vouchers.
    ghost admits: { Self → List LinearRow → List ℤ → Bool };

    // The causes that a no may have. Where nothing is said, it is any of the five.
    ghost gives: { Self → List LinearRow → List ℤ → Reason → Type 0 } = { λ _ _ _ _. Unit {0} };

    fn judge(&self, rows: &[Row], voucher: &[i32]) -> Result<(), JudgeCause>
        ensures yes { is_ok result ≡ admits self.now rows.now voucher.now }
        ensures cause { Caused (gives self.now rows.now voucher.now) result };

    // No whole numbers satisfy rows that are admitted.
    ghost sound: { (s : Self) (rows : List LinearRow) (voucher : List ℤ) → T (admits s rows voucher) → Impossible rows };

    ghost bounded: { (s : Self) (rows : List LinearRow) (voucher : List ℤ) → T (admits s rows voucher) → length rows ≤ ROWS };
}
