// Two judges as one: the voucher's first number picks one of them, which gets the rest.
ghost use Rattle.std.specs.Prelude.{◌≡◌, is_ok};
ghost use Rattle.judges.specs.Judging.{Caused};
ghost use Rattle.judges.specs.Nested.{NestedFixed};
ghost use Rattle.judges.specs.Pair.{pair_rows, pair_admits, pair_gives};
ghost use Rattle.judges.specs.Picks.{pair_sound};
ghost use Rattle.std.proofs.Common.{rules};

use crate::meaning::Judge;
use rows::{JudgeCause, Row};

#[derive(Clone, Copy)]
pub struct Pair<F, S> {
    pub first: F,
    pub second: S,
}

impl<F: Judge, S: Judge> Judge for Pair<F, S> {
    const ROWS: usize = 64;

    ghost ROWS = { pair_rows };

    ghost admits = { λ p rows voucher. pair_admits (F.Judge.admits p.first) (S.Judge.admits p.second) rows voucher };

    ghost gives = { λ p rows voucher. pair_gives (F.Judge.gives p.first) (S.Judge.gives p.second) rows voucher };

    ghost sound = { λ s. pair_sound (F.Judge.admits s.first) (S.Judge.admits s.second) (F.Judge.sound s.first) (S.Judge.sound s.second) };

    ghost bounded = { Prim.search rules };

    #[tactic(auto, using(crate::proofs::Nesting::nested_fixed))]
    fn judge(&self, rows: &[Row], voucher: &[i32]) -> Result<(), JudgeCause>
        ensures yes { is_ok result ≡ pair_admits (F.Judge.admits self.now.first) (S.Judge.admits self.now.second) rows.now voucher.now }
        ensures cause { Caused (pair_gives (F.Judge.gives self.now.first) (S.Judge.gives self.now.second) rows.now voucher.now) result }
        ensures nested { NestedFixed }
    {
        if rows.len() > Self::ROWS {
            return Err(JudgeCause::TooManyRows);
        }
        let [pick, rest @ ..] = voucher else {
            return Err(JudgeCause::BadVoucher);
        };
        match *pick {
            0 => self.first.judge(rows, rest),
            1 => self.second.judge(rows, rest),
            _ => Err(JudgeCause::BadVoucher),
        }
    }
}
