// What the judges share: numbers of a voucher, division, and the order of the last two causes.
ghost use Rattle.std.specs.Prelude.{◌≡◌, Ok};
ghost use Rattle.rows.specs.declared.cause.JudgeCause.TheVariants.{UnknownsLeft, NoConflict};
ghost use Rattle.judges.specs.Judging.{tried};
ghost use Rattle.judges.specs.Combination.{between, numbers_fit};
ghost use Rattle.judges.specs.Residue.{divides as divides_test};

use rows::JudgeCause;

// Numbers of a voucher are at most this, up or down.
pub(crate) const LARGEST_NUMBER: i32 = 1_048_576;

// The largest constant that is a conflict where no unknown is left.
pub(crate) const LARGEST_CONFLICT: i128 = -1;

// Whether m divides z; 0 divides 0 alone.
pub(crate) fn divides(m: i32, z: i128) -> bool
    ensures { result ≡ divides_test m z }
{
    z.unsigned_abs()
        .is_multiple_of(u128::from(m.unsigned_abs()))
}

fn is_between(low: i32, high: i32, n: i32) -> bool
    ensures { result ≡ between low high n }
{
    (low..=high).contains(&n)
}

// This many numbers of a voucher, each from `low` to the largest.
pub(crate) fn numbers_fit(low: i32, count: usize, numbers: &[i32]) -> bool
    ensures { result ≡ numbers_fit low count numbers.now }
{
    numbers.len() == count && numbers.iter().all(|n| is_between(low, LARGEST_NUMBER, *n))
}

// Unknowns that are left over come before a constant without conflict.
pub(crate) fn last_cause(unknowns_gone: bool, conflict: bool) -> Result<(), JudgeCause>
    ensures { result ≡ tried unknowns_gone UnknownsLeft (tried conflict NoConflict (Ok tt)) }
{
    if !unknowns_gone {
        return Err(JudgeCause::UnknownsLeft);
    }
    if !conflict {
        return Err(JudgeCause::NoConflict);
    }
    Ok(())
}
