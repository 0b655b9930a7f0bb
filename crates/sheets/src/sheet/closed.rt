// The calls on a closed sheet.
ghost use Rattle.std.specs.Prelude.{◌≡◌, true, List};
ghost use Rattle.books.specs.Table.{Table};
ghost use Rattle.slips.specs.View.{view};
ghost use Rattle.slips.specs.Worth.{VerdictLaw};
ghost use Rattle.sheet_register.specs.declared.request.Request.{Request as Asked};
ghost use Rattle.sheet_register.specs.Calls.{check, fits, answer_by};
ghost use Rattle.sheet_faults.specs.Faults.{check_refusal};
ghost use Rattle.sheets.specs.Views.{open_view, closed_view};
ghost use Rattle.sheets.specs.Answers.{answer};

use super::{ClosedSheet, OpenSheet};
use crate::memory::marks_agree;
use books::book::CostBook;
use sheet_faults::CheckFault;
use slips::slip::Slip;

impl ClosedSheet {
    // Opens the sheet again. It takes no memory, and is never refused.
    pub fn reopen(self) -> OpenSheet
        ensures number { (open_view result).number ≡ (closed_view self).number }
        ensures counts { (open_view result).counts ≡ (closed_view self).counts }
    {
        OpenSheet {
            number: self.number,
            pieces: self.pieces,
            taken: 0,
            struck: self.struck,
            waiting: 0,
        }
    }

    // Whether the marks agree with the sheet and the book is of its count.
    fn fits<B: CostBook>(&self, book: &B, marks: &[u8]) -> bool
        ensures { result ≡ fits (closed_view self.now).counts (B.CostBook.means book.now) marks.now }
    {
        marks_agree(marks, self.pieces, 0, self.struck) && book.count() == self.pieces
    }

    // Checks a slip by any book of the sheet's count: that it passes, or the first test that fails.
    pub fn check<B: CostBook>(&self, book: &B, marks: &[u8], slip: &Slip) -> Result<(), CheckFault>
        ensures answer { (waiting : List Asked) → answer check_refusal result
            ≡ answer_by self.now.number (closed_view self.now).counts marks.now waiting (check (B.CostBook.means book.now) marks.now (view slip.now)) }
        ensures law { fits (closed_view self.now).counts (B.CostBook.means book.now) marks.now ≡ true
            → VerdictLaw (B.CostBook.means book.now) marks.now (view slip.now) }
    {
        if !self.fits(book, marks) {
            return Err(CheckFault::Disagrees);
        }
        slip_check::check::check(book, marks, slip).map_err(CheckFault::Slip)
    }
}
