// What an atom is worth: an exact sum.
ghost use Rattle.std.specs.Prelude.{◌≡◌, ◌*◌, ◌≤◌, slice_get, unsigned_abs};
ghost use Rattle.book.specs.Limits.{largest_coefficient};
ghost use Rattle.world.specs.Worlds.{world_of, largest_value};
ghost use Rattle.world.specs.Truth.{product, worth as meaning};
ghost use Rattle.world.specs.Inner.{values_at, BoundedTerm, Bounded};
ghost use Rattle.world.specs.Trials.{env_in};

use crate::elements::Trial;
use book::{Atom, Term};

impl Trial<'_> {
    // An attribute of the element with this number, where there is one.
    fn value(&self, number: u32, attribute: u32) -> Option<i64>
        ensures { result ≡ slice_get (values_at (world_of self.now.log.now) number) attribute }
    {
        let e = self.log.get((number as usize).checked_sub(1)?)?;
        e.values.get(attribute as usize).copied()
    }

    fn part(&self, t: &Term, slots: &[u32; 6]) -> i64
        requires { BoundedTerm t.now }
        ensures value { result ≡ product (env_in self.now slots.now) t.now }
        ensures size { unsigned_abs result ≤ largest_coefficient * largest_value }
    {
        let number = slots[t.slot as usize];
        let x = self.value(number, t.attribute).unwrap_or(0);
        i64::from(t.coefficient) * x
    }

    pub(crate) fn worth(&self, a: &Atom, slots: &[u32; 6]) -> i64
        requires { Bounded a.now }
        ensures { result ≡ meaning (env_in self.now slots.now) a.now }
    {
        let mut sum = i64::from(a.constant);
        for t in a.terms() {
            sum += self.part(t, slots);
        }
        sum
    }
}
