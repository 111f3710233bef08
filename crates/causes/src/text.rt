// A refusal by its number, its detail and its text. Cases with a detail have no number to cast to.
ghost use Rattle.std.specs.Prelude.{◌≡◌, Some};
ghost use Rattle.causes.specs.Numbers.{cause_number, cause_detail};
ghost use Rattle.causes.specs.Texts.{cause_meaning, cause_text};

use crate::cause::Cause;
use std::fmt;

impl Cause {
    pub fn number(&self) -> u32
        ensures { result ≡ cause_number self.now }
    {
        match *self {
            Cause::BadBook { .. } => 14,
            Cause::BadWorld { .. } => 15,
            Cause::OverBudget => 16,
        }
    }

    // 0 where there is no detail to give.
    pub fn detail(&self) -> u32
        ensures { result ≡ cause_detail self.now }
    {
        match *self {
            Cause::BadBook { node } => node,
            Cause::BadWorld { element } => element,
            Cause::OverBudget => 0,
        }
    }

    // What the number stands for, in words.
    pub fn meaning(&self) -> &'static str
        ensures { result.now ≡ cause_meaning self.now }
    {
        match *self {
            Cause::BadBook { .. } => "the book breaks a rule",
            Cause::BadWorld { .. } => "no world for this book",
            Cause::OverBudget => "more visits than the budget",
        }
    }
}

impl fmt::Display for Cause {
    ghost output = { λ c. Some (cause_text c) };

    fn fmt<W: fmt::Write>(&self, f: &mut fmt::Formatter<W>) -> fmt::Result {
        write!(
            f,
            "refused by {}, detail {}: {}",
            self.number(),
            self.detail(),
            self.meaning()
        )
    }
}
