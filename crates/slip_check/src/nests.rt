// The way up through the groups around a piece, and the prices between two. A way up is told by group numbers, which rise, and ends with 0, as the
// records have it: the loops compare these numbers and count nothing.
ghost use Rattle.std.specs.Prelude.{◌≡◌, ◌<◌, ◌≤◌, true};
ghost use Rattle.slips.specs.View.{piece_at, parent, worth};
ghost use Rattle.slips.specs.Groups.{inside};
ghost use Rattle.slips.specs.System.{WithinLimits};
ghost use Rattle.slip_check.specs.Tables.{first_up, prices_between};
ghost use Rattle.slip_check.specs.Shaped.{problem_of, view_of};

use crate::priced::*;
use books::book::CostBook;
use slips::slip::PieceRecord;

impl<'a, B: CostBook> PricedSlip<'a, B> {
    // The record of a live piece.
    pub(crate) fn live_piece(&self, u: usize) -> PieceRecord
        requires { (problem_of self.now.shaped).live u ≡ true }
        ensures value { result ≡ piece_at (view_of self.now.shaped) u }
        ensures limits { WithinLimits result.price }
        ensures grouped { result.group ≤ (view_of self.now.shaped).count }
    {
        self.shaped.piece(u)
    }

    // The number of the group next around group g, 0 for none.
    fn parent_of(&self, g: usize) -> usize
        requires some { 0 < g }
        requires few { g ≤ (view_of self.now.shaped).count }
        ensures { result ≡ parent (view_of self.now.shaped) g }
    {
        usize::from(self.shaped.group(g - 1).parent)
    }

    // Whether a live piece is inside a group.
    pub(crate) fn is_inside(&self, u: usize, h: usize) -> bool
        requires { (problem_of self.now.shaped).live u ≡ true }
        ensures { result ≡ inside (view_of self.now.shaped) h u }
    {
        let mut at = usize::from(self.live_piece(u).group);
        while at != 0 && at < h {
            at = self.parent_of(at);
        }
        at != 0 && at == h
    }

    // The price of group g, which its test has shown to be positive, so that `as` loses nothing.
    fn price_of(&self, g: usize) -> u64
        requires some { 0 < g }
        requires few { g ≤ (view_of self.now.shaped).count }
        ensures value { result ≡ worth (view_of self.now.shaped) g }
        ensures bound { result ≤ 1000000000000000 }
    {
        self.shaped.group(g - 1).price as u64
    }

    // The prices of the groups around exactly one of two, from their groups a and b up.
    pub(crate) fn prices_between(&self, a: usize, b: usize) -> u64
        requires first { a ≤ (view_of self.now.shaped).count }
        requires second { b ≤ (view_of self.now.shaped).count }
        ensures value { result ≡ prices_between (view_of self.now.shaped) a b }
        ensures bound { result ≤ 254000000000000000 }
    {
        let mut left = a;
        let mut right = b;
        let mut sum: u64 = 0;
        while left != right {
            if is_lower(left, right) {
                sum += self.price_of(left);
                left = self.parent_of(left);
            } else {
                sum += self.price_of(right);
                right = self.parent_of(right);
            }
        }
        sum
    }
}

// Whether the way up from a comes before the way up from b: by the lower number, 0 last, which no derived order of numbers has.
fn is_lower(a: usize, b: usize) -> bool
    ensures { result ≡ first_up a b }
{
    b == 0 || a != 0 && a < b
}
