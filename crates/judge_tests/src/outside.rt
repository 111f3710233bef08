// Two judges that the library has never met. What they give for a no is left open.
ghost use Rattle.std.specs.Prelude.{◌≡◌, true, false};
ghost use Rattle.judge_tests.specs.Clash.{opposed, clash_admits};
ghost use Rattle.std.proofs.Common.{rules};
ghost use Rattle.judge_tests.specs.ClashLaw.{clash_sound};

use judges::Judge;
use rows::{JudgeCause, Relation, Row};

// It admits nothing, which is lawful.
#[derive(Clone, Copy)]
pub struct Never;

impl Judge for Never {
    const ROWS: usize = 64;

    ghost ROWS = { 64 };

    ghost admits = { λ _ _ _. false };

    ghost sound = { Prim.search rules };

    ghost bounded = { Prim.search rules };

    fn judge(&self, _rows: &[Row], _voucher: &[i32]) -> Result<(), JudgeCause> {
        Err(JudgeCause::NoConflict)
    }
}

// Two equations of one and the same term with different constants, and no voucher.
#[derive(Clone, Copy)]
pub struct Clash;

fn are_opposed(a: &Row, b: &Row) -> bool
    ensures { result ≡ opposed a.now b.now }
{
    match (a.relation, b.relation, a.terms(), b.terms()) {
        (Relation::Equal, Relation::Equal, [s], [t]) => s == t && a.constant != b.constant,
        _ => false,
    }
}

impl Judge for Clash {
    const ROWS: usize = 2;

    ghost ROWS = { 2 };

    ghost admits = { λ _ rows voucher. clash_admits rows voucher };

    ghost sound = { λ s. clash_sound };

    ghost bounded = { Prim.search rules };

    fn judge(&self, rows: &[Row], voucher: &[i32]) -> Result<(), JudgeCause> {
        match (rows, voucher) {
            ([a, b], []) if are_opposed(a, b) => Ok(()),
            _ => Err(JudgeCause::NoConflict),
        }
    }
}
