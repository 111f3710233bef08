// What a node says, within a budget of visits.
ghost use Rattle.std.specs.Prelude.{◌<◌};
ghost use Rattle.book.specs.Limits.{slot_count};
ghost use Rattle.world.specs.Truth.{chained};
ghost use Rattle.world.specs.Inner.{Told};
ghost use Rattle.world.specs.Trials.{Known, evaluated_in, tried_in};

use crate::elements::Trial;
use crate::parts::{Evaluation, Quantifier};
use book::Formula;
use causes::Cause;

impl Trial<'_> {
    // Node n, with an element's number in each used slot and 0 in the others, as in a scope.
    #[cycle(both_evaluate_walk)]
    pub(crate) fn evaluate(&self, n: u32, slots: [u32; 6], budget: u32) -> Result<Evaluation, Cause>
        requires { Known self.now n }
        ensures { Told budget (evaluated_in self.now n slots) result }
    {
        let node = &self.book.nodes()[n as usize - 1];
        match &node.formula {
            Formula::AtLeast(a) => Ok(Evaluation::at_once(self.worth(a, &slots) >= 0)),
            Formula::Equal(a) => Ok(Evaluation::at_once(self.worth(a, &slots) == 0)),
            Formula::And { left, right } => self.both(*left, *right, true, slots, budget),
            Formula::Or { left, right } => self.both(*left, *right, false, slots, budget),
            Formula::Exists { class, body } => {
                self.walk(Quantifier::new(node, *class, *body, true), slots, budget)
            }
            Formula::Every { class, body } => {
                self.walk(Quantifier::new(node, *class, *body, false), slots, budget)
            }
        }
    }

    // The left node, and the right one only where the left one's truth is `go_on`.
    #[cycle(both_evaluate_walk)]
    fn both(
        &self,
        left: u32,
        right: u32,
        go_on: bool,
        slots: [u32; 6],
        budget: u32,
    ) -> Result<Evaluation, Cause>
        requires left { Known self.now left }
        requires right { Known self.now right }
        ensures { Told budget (chained go_on (evaluated_in self.now left slots) (evaluated_in self.now right slots)) result }
    {
        let l = self.evaluate(left, slots, budget)?;
        if l.truth != go_on {
            return Ok(l);
        }
        let r = self.evaluate(right, slots, budget - l.visits)?;
        Ok(Evaluation {
            truth: r.truth,
            visits: l.visits + r.visits,
        })
    }

    // The elements of the class in turn, until the body's truth is what the quantifier wants.
    #[cycle(both_evaluate_walk)]
    fn walk(&self, q: Quantifier, slots: [u32; 6], budget: u32) -> Result<Evaluation, Cause>
        requires body { Known self.now q.body }
        requires slot { q.slot < slot_count }
        ensures { Told budget (tried_in self.now q slots) result }
    {
        let mut visits: u32 = 0;
        for (i, e) in self.log.iter().enumerate() {
            if e.class == q.class {
                if visits == budget {
                    return Err(Cause::OverBudget);
                }
                visits += 1;
                let mut inner = slots;
                inner[q.slot] = i as u32 + 1;
                let b = self.evaluate(q.body, inner, budget - visits)?;
                visits += b.visits;
                if b.truth == q.want {
                    return Ok(Evaluation {
                        truth: q.want,
                        visits,
                    });
                }
            }
        }
        Ok(Evaluation {
            truth: !q.want,
            visits,
        })
    }
}
