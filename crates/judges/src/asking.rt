// Any judge, asked within its limit.
ghost use Rattle.std.specs.Prelude.{◌≡◌, true, length, is_ok};
ghost use Rattle.rows.specs.Meaning.{Impossible};
ghost use Rattle.judges.specs.Judging.{Caused, Limited, Lawful};

use crate::meaning::Judge;
use rows::{JudgeCause, Row};

// Whether the judge admits the rows with this voucher: then no whole numbers satisfy them.
pub fn referee<J: Judge>(judge: &J, rows: &[Row], voucher: &[i32]) -> Result<(), JudgeCause>
    ensures yes { is_ok result ≡ J.admits judge.now rows.now voucher.now }
    ensures cause { Caused (Limited J.ROWS (length rows.now) (J.gives judge.now rows.now voucher.now)) result }
    ensures conflict { is_ok result ≡ true → Impossible rows.now }
    ensures lawful { Lawful J.ROWS (J.admits judge.now) }
{
    if rows.len() > J::ROWS {
        return Err(JudgeCause::TooManyRows);
    }
    judge.judge(rows, voucher)
}
