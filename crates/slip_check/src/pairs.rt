// How many live pieces each group holds, the margins of pairs, and how many pairs of mates leave a group.
ghost use Rattle.std.specs.Prelude.{◌≡◌, ◌*◌, ◌<◌, ◌≤◌, true, pos, ◌-ℤ◌};
ghost use Rattle.std.specs.Result.{result_err};
ghost use Rattle.slips.specs.Groups.{inside, price_side};
ghost use Rattle.slips.specs.System.{live_in};
ghost use Rattle.slips.specs.Verdict.{pair_good, odd_fault, prices_fault, left_by, crossings_fault};
ghost use Rattle.slip_check.specs.Tables.{leaves};
ghost use Rattle.slip_check.specs.Shaped.{problem_of, view_of};

use crate::priced::*;
use crate::shaped::*;
use books::book::CostBook;
use slips::fault::SlipFault;

impl<'a, B: CostBook> PricedSlip<'a, B> {
    // How many live pieces are inside a group.
    fn count_inside(&self, h: usize) -> usize
        ensures { result ≡ live_in (problem_of self.now.shaped) (inside (view_of self.now.shaped) h) }
    {
        (0..self.shaped.size())
            .filter(|&u| self.shaped.is_live(u) && self.is_inside(u, h))
            .count()
    }

    // The lowest group that does not hold an odd number of live pieces, at least three.
    pub(crate) fn check_odd(&self) -> Result<(), SlipFault>
        ensures { result_err result ≡ odd_fault (problem_of self.now.shaped) (view_of self.now.shaped) }
    {
        (0..self.shaped.count()).try_for_each(|k| {
            let held = self.count_inside(k + 1);
            unless(held % 2 == 1 && held >= 3, SlipFault::Group(k + 1))
        })
    }

    // What is left of twice the cost of two live pieces when their prices, and those of the groups around just one of them, are taken off.
    fn margin(&self, u: usize, v: usize, cost: u32) -> i64
        requires cost { cost ≤ 1000000 }
        requires first { (problem_of self.now.shaped).live u ≡ true }
        requires second { (problem_of self.now.shaped).live v ≡ true }
        ensures { result ≡ pos (2 * cost) -ℤ price_side (view_of self.now.shaped) u v }
    {
        let one = self.live_piece(u);
        let other = self.live_piece(v);
        let between = self.prices_between(usize::from(one.group), usize::from(other.group));
        2 * i64::from(cost) - (one.price + other.price + between as i64)
    }

    // Whether two pieces, the lower first, are no allowed pair of live pieces, or their margin is 0 or more, and 0 where they are mates.
    fn is_good_pair(&self, u: usize, v: usize) -> bool
        requires rising { u < v }
        requires few { v < (problem_of self.now.shaped).size }
        ensures { result ≡ pair_good (problem_of self.now.shaped) (view_of self.now.shaped) u v }
    {
        let Some(cost) = self.shaped.live_cost(u, v) else {
            return true;
        };
        let margin = self.margin(u, v, cost);
        margin >= 0 && (self.shaped.mate(u) != v || margin <= 0)
    }

    // The first pair, rising, whose margin is below 0, or above 0 for mates.
    pub(crate) fn check_prices(&self) -> Result<(), SlipFault>
        ensures { result_err result ≡ prices_fault (problem_of self.now.shaped) (view_of self.now.shaped) }
    {
        let size = self.shaped.size();
        let mut first = Ok(());
        // The product names this form: loops over the pairs, left by a label at the first that fails.
        'pairs: for u in 0..size {
            for v in u + 1..size {
                if !self.is_good_pair(u, v) {
                    first = Err(SlipFault::Prices(u, v));
                    break 'pairs;
                }
            }
        }
        first
    }

    // Whether a piece is the lower of two mates of which exactly one is inside a group.
    fn is_leaving(&self, u: usize, h: usize) -> bool
        requires { u < (problem_of self.now.shaped).size }
        ensures { result ≡ leaves (problem_of self.now.shaped) (view_of self.now.shaped) h u }
    {
        let mate = self.shaped.mate(u);
        if !self.shaped.is_live(u) || mate <= u {
            return false;
        }
        let here = self.is_inside(u, h);
        let there = self.is_inside(mate, h);
        here != there
    }

    // How many pairs of mates have one end inside a group.
    fn count_leaving(&self, h: usize) -> usize
        ensures { result ≡ left_by (problem_of self.now.shaped) (view_of self.now.shaped) (inside (view_of self.now.shaped) h) }
    {
        (0..self.shaped.size())
            .filter(|&u| self.is_leaving(u, h))
            .count()
    }

    // The lowest group that not exactly one pair of mates leaves.
    pub(crate) fn check_crossings(&self) -> Result<(), SlipFault>
        ensures { result_err result ≡ crossings_fault (problem_of self.now.shaped) (view_of self.now.shaped) }
    {
        (0..self.shaped.count()).try_for_each(|k| unless(
            self.count_leaving(k + 1) == 1,
            SlipFault::Crossing(k + 1),
        ))
    }
}
