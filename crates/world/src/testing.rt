// The world test.
ghost use Rattle.std.specs.Prelude.{◌≡◌};
ghost use Rattle.book.specs.Whole.{classes_of, nodes_of};
ghost use Rattle.world.specs.Worlds.{world_of};
ghost use Rattle.world.specs.Test.{Answered};
ghost use Rattle.world.specs.Laws.{TruthLaws, TestLaws};

use crate::elements::Trial;
use crate::parts::{Answer, Element};
use book::Book;
use causes::Cause;

// Whether every premise of the book is true of these elements, and after how many visits.
pub fn world_test(book: &Book, log: &[Element], budget: u32) -> Result<Answer, Cause>
    ensures answer { Answered (classes_of book.now) (nodes_of book.now) (world_of log.now) budget result }
    ensures truth { TruthLaws (nodes_of book.now) }
    ensures verdict { TestLaws (classes_of book.now) (nodes_of book.now) }
{
    Trial::new(book, log)?.try_premises(budget)
}
