// The records of the pieces, and what the mates cost together.
ghost use Rattle.std.specs.Prelude.{◌≡◌, ℕ, ◌<◌, ◌≤◌, true, ◌&&◌, nat_le, IfOk};
ghost use Rattle.std.specs.Result.{result_err};
ghost use Rattle.slips.specs.declared.fault.SlipFault.TheVariants.{Piece};
ghost use Rattle.slips.specs.Problem.{pairing_cost};
ghost use Rattle.slips.specs.View.{mate, price, group};
ghost use Rattle.slips.specs.Verdict.{unless, mated, within_limits, piece_good, pieces_fault};
ghost use Rattle.slip_check.specs.Tables.{lead_cost};
ghost use Rattle.slip_check.specs.Shaped.{problem_of, view_of};

use crate::shaped::*;
use books::book::CostBook;
use slips::fault::SlipFault;
use slips::slip::*;

impl<'a, B: CostBook> ShapedSlip<'a, B> {
    // Whether a piece has another live piece as mate, which names it back.
    fn is_mated(&self, u: usize) -> bool
        requires { u < (problem_of self.now).size }
        ensures { result ≡ mated (problem_of self.now) (view_of self.now) u }
    {
        let mate = self.mate(u);
        self.is_live(mate) && mate != u && self.mate(mate) == u
    }

    // Whether the record of a piece has its price within the limits, and a group number up to the count.
    fn is_within_limits(&self, u: usize) -> bool
        requires { u < (problem_of self.now).size }
        ensures { result ≡ (within_limits (price (view_of self.now) u) && nat_le (group (view_of self.now) u) (view_of self.now).count) }
    {
        let record = self.piece(u);
        (-MOST_PRICE..=MOST_PRICE).contains(&record.price)
            && usize::from(record.group) <= self.count()
    }

    // What a piece adds to the mates' cost, its pair's cost where it is the lower of the two; or that its record fails. The book is asked for each pair of
    // mates once, at the lower: where the pieces below have passed, a mate that is one of them has shown that the pair is allowed.
    fn piece_cost(&self, u: usize) -> Result<u32, SlipFault>
        requires inside { u < (problem_of self.now).size }
        requires below { (w : ℕ) → w < u → piece_good (problem_of self.now) (view_of self.now) w ≡ true }
        ensures fault { result_err result ≡ unless (piece_good (problem_of self.now) (view_of self.now) u) (Piece u) }
        ensures cost { IfOk result (λ c. c ≡ lead_cost (problem_of self.now) (view_of self.now) u) }
        ensures bound { IfOk result (λ c. c ≤ 1000000) }
    {
        if !self.is_live(u) {
            unless(self.piece(u) == BLANK_PIECE, SlipFault::Piece(u))?;
            return Ok(0);
        }
        unless(
            self.is_mated(u) && self.is_within_limits(u),
            SlipFault::Piece(u),
        )?;
        let mate = self.mate(u);
        if mate < u {
            return Ok(0);
        }
        self.book.pair_cost(u, mate).ok_or(SlipFault::Piece(u))
    }

    // The lowest piece whose record fails, or what the mates cost together.
    pub(crate) fn check_pieces(&self) -> Result<u64, SlipFault>
        ensures fault { result_err result ≡ pieces_fault (problem_of self.now) (view_of self.now) }
        ensures total { IfOk result (λ total. total ≡ pairing_cost (problem_of self.now) (mate (view_of self.now))) }
    {
        let mut total = 0;
        for u in 0..self.size() {
            total += u64::from(self.piece_cost(u)?);
        }
        Ok(total)
    }
}
