// A slip of lawful lengths, and what it is checked under.
ghost use Rattle.std.specs.Prelude.{◌≡◌, ◌<◌, ◌≤◌, length, IfSome};
ghost use Rattle.std.specs.Result.{result_err};
ghost use Rattle.slips.specs.View.{view, piece_at, mate, group_at};
ghost use Rattle.slips.specs.Verdict.{unless};
ghost use Rattle.slip_check.specs.Tables.{live_cost};

use books::book::CostBook;
use slips::fault::SlipFault;
use slips::slip::*;

// A slip with a record for each piece of a book, and all group records; with the book and the planner's marks. Its methods are asked for pieces and
// groups by number, as records name them: a type for a number in range would have to be made and tested for each.
#[derive(Drop)]
pub(crate) struct ShapedSlip<'a, B: CostBook> {
    pub(crate) book: &'a B,
    // Beside the records, since the planner lends the marks as a table of bytes.
    pub(crate) marks: &'a [u8],
    pub(crate) slip: &'a Slip,
    ghost piece_records: { length (view slip.now).pieces ≡ (B.CostBook.means book.now).count },
    ghost group_records: { length (view slip.now).groups ≡ 127 },
}

impl<'a, B: CostBook> ShapedSlip<'a, B> {
    ghost use Rattle.slip_check.specs.Shaped.{problem_of, view_of};

    // How many pieces there are.
    pub(crate) fn size(&self) -> usize
        ensures { result ≡ (problem_of self.now).size }
    {
        self.slip.pieces.len()
    }

    // How many groups there are by the slip.
    pub(crate) fn count(&self) -> usize
        ensures { result ≡ (view_of self.now).count }
    {
        usize::from(self.slip.count)
    }

    // The record of a piece.
    pub(crate) fn piece(&self, u: usize) -> PieceRecord
        requires { u < (problem_of self.now).size }
        ensures { result ≡ piece_at (view_of self.now) u }
    {
        self.slip.pieces[u]
    }

    // The mate of a piece.
    pub(crate) fn mate(&self, u: usize) -> usize
        requires { u < (problem_of self.now).size }
        ensures { result ≡ mate (view_of self.now) u }
    {
        usize::from(self.piece(u).mate)
    }

    // The group record at place k, which is that of group k + 1.
    pub(crate) fn group(&self, k: usize) -> GroupRecord
        requires { k < 127 }
        ensures { result ≡ group_at (view_of self.now) k }
    {
        self.slip.groups[k]
    }

    // Whether a piece is live by the planner's marks: its mark is 0, or 1 where its withdrawal is taken. Any other byte may stand there, and is no mark of
    // a live piece, so that no mark has to be read.
    pub(crate) fn is_live(&self, u: usize) -> bool
        ensures { result ≡ (problem_of self.now).live u }
    {
        u < self.size() && self.marks.get(u).is_some_and(|mark| *mark <= 1)
    }

    // What two pieces cost, `None` where one is not live or they are barred.
    pub(crate) fn live_cost(&self, u: usize, v: usize) -> Option<u32>
        ensures value { result ≡ live_cost (problem_of self.now) u v }
        ensures bound { IfSome result (λ c. c ≤ 1000000) }
    {
        if self.is_live(u) && self.is_live(v) {
            self.book.pair_cost(u, v)
        } else {
            None
        }
    }
}

// A fault, unless a test passed.
pub(crate) fn unless(passed: bool, fault: SlipFault) -> Result<(), SlipFault>
    ensures { result_err result ≡ unless passed fault }
{
    passed.then_some(()).ok_or(fault)
}
