// The gap slip: its records, its parts and its cut.
ghost use Rattle.std.specs.Prelude.{◌≡◌, ◌<◌};
ghost use Rattle.slips.specs.View.{group};
ghost use Rattle.slips.specs.Gaps.{part_size, odd_parts};
ghost use Rattle.slips.specs.Verdict.{gap_record, apart_good, gap_good};
ghost use Rattle.slip_check.specs.Tables.{blank_groups, gap_records, row_apart, parts_apart};
ghost use Rattle.slip_check.specs.Shaped.{problem_of, view_of};

use crate::shaped::*;
use books::book::CostBook;
use slips::slip::*;

impl<'a, B: CostBook> ShapedSlip<'a, B> {
    // Whether all group records say nothing.
    fn are_groups_blank(&self) -> bool
        ensures { result ≡ blank_groups (view_of self.now) }
    {
        // By place, as the tests of all other records: over the records themselves the proof did not close.
        (0..GROUPS).all(|k| self.group(k) == BLANK_GROUP)
    }

    // Whether a piece's record has no mate and no price, and a part number or 0 where the piece is live, else 0.
    fn is_gap_record(&self, u: usize) -> bool
        requires { u < (problem_of self.now).size }
        ensures { result ≡ gap_record (problem_of self.now) (view_of self.now) u }
    {
        let record = self.piece(u);
        let most = if self.is_live(u) { MOST_PARTS } else { 0 };
        record.mate == NO_MATE && record.price == 0 && record.group <= most
    }

    // Whether all pieces have such a record.
    fn are_gap_records(&self) -> bool
        ensures { result ≡ gap_records (problem_of self.now) (view_of self.now) }
    {
        (0..self.size()).all(|u| self.is_gap_record(u))
    }

    // Whether two pieces are no allowed pair of live pieces of two parts.
    fn is_apart(&self, u: usize, v: usize) -> bool
        requires first { u < (problem_of self.now).size }
        requires second { v < (problem_of self.now).size }
        ensures { result ≡ apart_good (problem_of self.now) (view_of self.now) u v }
    {
        let first = self.piece(u).group;
        let second = self.piece(v).group;
        u >= v || first == 0 || second == 0 || first == second || self.live_cost(u, v).is_none()
    }

    // Whether a piece is apart from all others.
    fn is_row_apart(&self, u: usize) -> bool
        requires { u < (problem_of self.now).size }
        ensures { result ≡ row_apart (problem_of self.now) (view_of self.now) u }
    {
        (0..self.size()).all(|v| self.is_apart(u, v))
    }

    // Whether no allowed pair joins live pieces of two parts.
    fn are_parts_apart(&self) -> bool
        ensures { result ≡ parts_apart (problem_of self.now) (view_of self.now) }
    {
        (0..self.size()).all(|u| self.is_row_apart(u))
    }

    // How many live pieces have this part number.
    fn count_part(&self, part: usize) -> usize
        ensures { result ≡ part_size (problem_of self.now) (group (view_of self.now)) part }
    {
        (0..self.size())
            .filter(|&u| self.is_live(u) && usize::from(self.piece(u).group) == part)
            .count()
    }

    // How many parts have an odd number of live pieces.
    fn count_odd_parts(&self) -> usize
        ensures { result ≡ odd_parts (problem_of self.now) (group (view_of self.now)) 256 }
    {
        (0..usize::from(MOST_PARTS))
            .filter(|&j| self.count_part(j + 1) % 2 == 1)
            .count()
    }

    // Whether the slip is a gap slip that holds.
    pub(crate) fn is_gap(&self) -> bool
        ensures { result ≡ gap_good (problem_of self.now) (view_of self.now) }
    {
        self.slip.total == 0
            && self.slip.count == 0
            && self.are_groups_blank()
            && self.are_gap_records()
            && self.are_parts_apart()
            && self.count_part(0) < self.count_odd_parts()
    }
}
