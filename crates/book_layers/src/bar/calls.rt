// The calls of a bar layer.
ghost use Rattle.std.specs.Prelude.{◌≡◌, [], IfOk, IfErr, OnOk, OnErr};
ghost use Rattle.std.specs.Result.{result_err};
ghost use Rattle.books.specs.Asked.{answer_or};
ghost use Rattle.book_layers.specs.Pairs.{held, pair_fault};
ghost use Rattle.book_layers.specs.Bars.{bar_fault, Adds, Drops, BarsOnly, LiftsOnly, BarBlamed, PairBlamed};
ghost use Rattle.book_layers.specs.Layers.{below_bars, bars_of, bar_layer_means};
ghost use Rattle.book_layers.specs.Barring.{bar_sound};

use super::{BarLayer, MOST_BARS};
use crate::pair::*;
use books::book::CostBook;
use books::fault::BookFault;
use std::alloc::{AllocFailed, Global};

impl<B: CostBook> BarLayer<B> {
    // A layer that bars nothing; the book comes back where there is no memory for the bars. No later call needs any.
    pub fn new(heap: Global, below: B) -> Result<Self, AllocFailed<B>>
        ensures below { IfOk result (λ layer. below_bars layer ≡ below) }
        ensures bars { IfOk result (λ layer. bars_of layer ≡ []) }
        ensures back { IfErr result (λ failed. failed.value ≡ below) }
    {
        // A `match`, since `map` and `map_err` would each have to own the book.
        match Vec::with_capacity(heap, MOST_BARS) {
            Ok(bars) => Ok(BarLayer { below, bars }),
            Err(_) => Err(AllocFailed { value: below }),
        }
    }

    // Bars two pieces; a pair that is held already is accepted without change.
    pub fn bar(&mut self, i: usize, j: usize) -> Result<(), BookFault>
        ensures refuses { result_err result ≡ bar_fault (B.CostBook.means (below_bars self.old)).count (bars_of self.old) i j }
        ensures blamed { IfErr result (BarBlamed (B.CostBook.means (below_bars self.old)).count (bars_of self.old) i j) }
        ensures bars { OnOk result (Adds (bars_of self.old) (bars_of self.new) i j) }
        ensures kept { OnErr result (bars_of self.new ≡ bars_of self.old) }
        ensures below { below_bars self.new ≡ below_bars self.old }
        ensures law { OnOk result (BarsOnly (bar_layer_means B.CostBook.means self.old) (bar_layer_means B.CostBook.means self.new) i j) }
    {
        check_pair(self.below.count(), i, j)?;
        let pair = Pair::new(i, j);
        if self.bars.contains(&pair) {
            return Ok(());
        }
        if self.bars.len() >= MOST_BARS {
            return Err(BookFault::BarsFull);
        }
        self.bars.push_reserved(pair);
        Ok(())
    }

    // Lifts the bar of two pieces, and says whether it was held.
    pub fn lift(&mut self, i: usize, j: usize) -> Result<bool, BookFault>
        ensures answers { result ≡ answer_or (pair_fault (B.CostBook.means (below_bars self.old)).count i j) (held (bars_of self.old) i j) }
        ensures blamed { IfErr result (PairBlamed (B.CostBook.means (below_bars self.old)).count i j) }
        ensures bars { OnOk result (Drops (bars_of self.old) (bars_of self.new) i j) }
        ensures kept { OnErr result (bars_of self.new ≡ bars_of self.old) }
        ensures below { below_bars self.new ≡ below_bars self.old }
        ensures law { OnOk result
            (LiftsOnly (B.CostBook.means (below_bars self.old)) (bar_layer_means B.CostBook.means self.old) (bar_layer_means B.CostBook.means self.new) i j) }
    {
        check_pair(self.below.count(), i, j)?;
        let Some(k) = position(&self.bars, Pair::new(i, j)) else {
            return Ok(false);
        };
        self.bars.remove(k);
        Ok(true)
    }
}

impl<B: CostBook> CostBook for BarLayer<B> {
    ghost means = { λ b. bar_layer_means B.CostBook.means b };

    ghost sound = { λ b. bar_sound (B.CostBook.means b.below) b.bars.items (B.CostBook.sound b.below) };

    fn count(&self) -> usize {
        self.below.count()
    }

    fn pair_cost(&self, i: usize, j: usize) -> Option<u32> {
        if self.bars.contains(&Pair::new(i, j)) {
            return None;
        }
        self.below.pair_cost(i, j)
    }
}
