// The worked cases, gathered in one theorem.
ghost use Rattle.std.specs.Prelude.{◌≡◌};
ghost use Rattle.cases.specs.Worked.{WorkedCases};

// How many cases there are; that they hold is the promise.
pub fn worked_cases() -> u32
    ensures count { result ≡ 8 }
    ensures hold { WorkedCases }
{
    8
}
