// Which elements the world test can take.
ghost use Rattle.std.specs.Prelude.{◌≡◌, MatchResult};
ghost use Rattle.book.specs.Whole.{classes_of};
ghost use Rattle.world.specs.Worlds.{element_of, world_of, values_ok, element_ok};
ghost use Rattle.world.specs.Test.{Testable};
ghost use Rattle.world.specs.Inner.{UnfitBy};

use crate::parts::Element;
use book::Book;
use causes::Cause;

const MOST_ELEMENTS: usize = 256;

// A book, and elements that its world test can take.
#[derive(Clone, Copy)]
pub(crate) struct Trial<'a> {
    pub(crate) book: &'a Book,
    pub(crate) log: &'a [Element<'a>],
    ghost testable: { Testable (classes_of book.now) (world_of log.now) },
}

// Values lie between minus this number and this number.
pub const LARGEST_VALUE: i64 = 2_147_483_647;

fn values_fit(values: &[i64]) -> bool
    ensures { result ≡ values_ok values.now }
{
    values
        .iter()
        .all(|v| (-LARGEST_VALUE..=LARGEST_VALUE).contains(v))
}

#[tactic(auto, unfolding(crate::specs::Worlds::element_ok))]
fn element_fits(book: &Book, e: &Element) -> bool
    ensures { result ≡ element_ok (classes_of book.now) (element_of e.now) }
{
    book.attributes(e.class).is_some_and(|count| {
        e.values.len() == count as usize && values_fit(e.values)
    })
}

impl<'a> Trial<'a> {
    // Refused by the first fault of the elements.
    pub(crate) fn new(book: &'a Book, log: &'a [Element<'a>]) -> Result<Trial<'a>, Cause>
        ensures { MatchResult result (λ t. (t.book.now ≡ book.now) × (t.log.now ≡ log.now)) (λ e. UnfitBy (classes_of book.now) (world_of log.now) e) }
    {
        if log.len() > MOST_ELEMENTS {
            return Err(Cause::BadWorld { element: 0 });
        }
        for (i, e) in log.iter().enumerate() {
            if !element_fits(book, e) {
                return Err(Cause::BadWorld {
                    element: i as u32 + 1,
                });
            }
        }
        Ok(Trial { book, log })
    }
}
