// The answers of the world test by number and as text.
ghost use Rattle.std.specs.Prelude.{◌≡◌, Some};
ghost use Rattle.world.specs.Texts.{verdict_number, answer_text};

use crate::parts::{Answer, Verdict};
use std::fmt;

impl Verdict {
    // The premise that a no names; 0 for a yes.
    pub fn number(&self) -> u32
        ensures { result ≡ verdict_number self.now }
    {
        match *self {
            Verdict::Yes => 0,
            Verdict::No { premise } => premise,
        }
    }
}

impl fmt::Display for Answer {
    ghost output = { λ a. Some (answer_text a) };

    fn fmt<W: fmt::Write>(&self, f: &mut fmt::Formatter<W>) -> fmt::Result {
        let visits = self.visits;
        match self.verdict {
            Verdict::Yes => write!(f, "yes, visits {visits}"),
            Verdict::No { premise } => write!(f, "no, premise {premise} is false, visits {visits}"),
        }
    }
}
