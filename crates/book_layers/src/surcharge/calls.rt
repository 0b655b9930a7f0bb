// The calls of a surcharge layer.
ghost use Rattle.std.specs.Prelude.{◌≡◌, false, replicate, is_ok, if◌then◌else◌, slice_set};
ghost use Rattle.std.specs.Result.{result_err};
ghost use Rattle.book_layers.specs.Surcharges.{mark_fault, amount_fault, Surcharges, PieceOnly};
ghost use Rattle.book_layers.specs.Layers.{below_surcharge, amount_of, marks_of, surcharge_layer_means};
ghost use Rattle.book_layers.specs.Adding.{surcharge_sound};

use super::{MARKS, SurchargeLayer};
use books::book::CostBook;
use books::fault::BookFault;
use books::limits::MOST_COST;

impl<B: CostBook> SurchargeLayer<B> {
    // A layer of amount 0 that marks no piece.
    pub fn new(below: B) -> Self
        ensures below { below_surcharge result ≡ below }
        ensures amount { amount_of result ≡ 0 }
        ensures marks { marks_of result ≡ replicate 256 false }
    {
        SurchargeLayer {
            below,
            amount: 0,
            marks: [false; MARKS],
        }
    }

    // Sets the amount.
    pub fn set_amount(&mut self, amount: u32) -> Result<(), BookFault>
        ensures refuses { result_err result ≡ amount_fault amount }
        ensures amount { amount_of self.new ≡ (if is_ok result then amount else amount_of self.old) }
        ensures below { below_surcharge self.new ≡ below_surcharge self.old }
        ensures marks { marks_of self.new ≡ marks_of self.old }
    {
        if amount > MOST_COST {
            return Err(BookFault::AmountTooHigh);
        }
        self.amount = amount;
        Ok(())
    }

    // Marks a piece, or takes its mark away.
    pub fn set_mark(&mut self, piece: usize, marked: bool) -> Result<(), BookFault>
        ensures refuses { result_err result ≡ mark_fault (B.CostBook.means (below_surcharge self.old)).count piece }
        ensures marks { marks_of self.new ≡ (if is_ok result then slice_set (marks_of self.old) piece marked else marks_of self.old) }
        ensures below { below_surcharge self.new ≡ below_surcharge self.old }
        ensures amount { amount_of self.new ≡ amount_of self.old }
        ensures law { Surcharges
            (surcharge_layer_means B.CostBook.means self.new) (B.CostBook.means (below_surcharge self.new)) (amount_of self.new) (marks_of self.new) }
        ensures only { PieceOnly (surcharge_layer_means B.CostBook.means self.old) (surcharge_layer_means B.CostBook.means self.new) piece }
    {
        if piece >= self.below.count() {
            return Err(BookFault::PieceOutside(piece));
        }
        self.marks[piece] = marked;
        Ok(())
    }
}

impl<B: CostBook> CostBook for SurchargeLayer<B> {
    ghost means = { λ b. surcharge_layer_means B.CostBook.means b };

    ghost sound = { λ b. surcharge_sound (B.CostBook.means b.below) b.amount b.marks (B.CostBook.sound b.below) };

    fn count(&self) -> usize {
        self.below.count()
    }

    fn pair_cost(&self, i: usize, j: usize) -> Option<u32> {
        let cost = self.below.pair_cost(i, j)?;
        let ends = u32::from(self.marks[i]) + u32::from(self.marks[j]);
        Some((cost + self.amount * ends).min(MOST_COST))
    }
}
