// Layers over layers: each is a book like any other, so they pile in any order.
ghost use Rattle.std.specs.Prelude.{◌≡◌};
ghost use Rattle.books.specs.Asked.{asked};
ghost use Rattle.book_layers.specs.Piles.{pile_means, PileOrderFree};

use crate::bar::BarLayer;
use crate::bar::calls::*;
use crate::surcharge::SurchargeLayer;
use crate::surcharge::calls::*;
use books::book::CostBook;
use books::fault::BookFault;

// What two pieces cost in a pile of three layers over any book: bars, over a surcharge, over bars.
pub fn cost_in_pile<B: CostBook>(
    pile: &BarLayer<SurchargeLayer<BarLayer<B>>>,
    i: usize,
    j: usize,
) -> Result<Option<u32>, BookFault>
    ensures answer { result ≡ asked (pile_means B.CostBook.means pile.now) i j }
    ensures order { PileOrderFree B.CostBook.means pile.now }
{
    pile.cost(i, j)
}
