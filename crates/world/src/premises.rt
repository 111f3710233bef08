// The premises of a book in a world.
ghost use Rattle.world.specs.Inner.{GivenWithin};
ghost use Rattle.world.specs.Trials.{tested_in};

use crate::elements::Trial;
use crate::parts::{Answer, Verdict};
use causes::Cause;

impl Trial<'_> {
    // By rising number, up to the first false one.
    pub(crate) fn try_premises(&self, budget: u32) -> Result<Answer, Cause>
        ensures { GivenWithin budget (tested_in self.now) result }
    {
        let mut visits: u32 = 0;
        for (i, node) in self.book.nodes().iter().enumerate() {
            if node.premise {
                let n = i as u32 + 1;
                let seen = self.evaluate(n, [0; 6], budget - visits)?;
                visits += seen.visits;
                if !seen.truth {
                    return Ok(Answer {
                        verdict: Verdict::No { premise: n },
                        visits,
                    });
                }
            }
        }
        Ok(Answer {
            verdict: Verdict::Yes,
            visits,
        })
    }
}
