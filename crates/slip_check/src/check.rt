// The check of a slip.
ghost use Rattle.std.specs.Prelude.{◌≡◌};
ghost use Rattle.std.specs.Result.{result_err};
ghost use Rattle.slips.specs.View.{view};
ghost use Rattle.slips.specs.Verdict.{priced_fault, verdict};
ghost use Rattle.slips.specs.Worth.{VerdictLaw};
ghost use Rattle.slip_check.specs.Shaped.{problem_of, view_of};

use crate::priced::*;
use crate::shaped::*;
use books::book::CostBook;
use slip_laws::verdicts_by_law;
use slips::fault::SlipFault;
use slips::slip::*;

// The first test that fails of a priced slip of lawful lengths.
fn check_priced<B: CostBook>(shaped: ShapedSlip<B>) -> Result<(), SlipFault>
    ensures { result_err result ≡ priced_fault (problem_of shaped.entry) (view_of shaped.entry) }
{
    let cost = shaped.check_pieces()?;
    shaped.check_group_records()?;
    let priced = PricedSlip { shaped };
    priced.check_odd()?;
    priced.check_prices()?;
    priced.check_crossings()?;
    let total = u64::from(priced.shaped.slip.total);
    unless(total == cost, SlipFault::Total)
}

// The first test of a slip that fails.
fn first_fault<B: CostBook>(book: &B, marks: &[u8], slip: &Slip) -> Result<(), SlipFault>
    ensures { result_err result ≡ verdict (B.CostBook.means book.now) marks.now (view slip.now) }
{
    if slip.pieces.len() != book.count() || slip.groups.len() != GROUPS {
        return Err(SlipFault::Shape);
    }
    let shaped = ShapedSlip { book, marks, slip };
    // Three arms, one for each thing that the number may be: with `map_err` and `?` the third would stand before the other two.
    match Kind::try_from(slip.kind) {
        Ok(Kind::Priced) => check_priced(shaped),
        Ok(Kind::Gap) => unless(shaped.is_gap(), SlipFault::Gap),
        Err(_) => Err(SlipFault::Shape),
    }
}

// Checks a slip under a book and the planner's marks: the first test that fails, or that it passes.
pub fn check<B: CostBook>(book: &B, marks: &[u8], slip: &Slip) -> Result<(), SlipFault>
    ensures verdict { result_err result ≡ verdict (B.CostBook.means book.now) marks.now (view slip.now) }
    ensures law { VerdictLaw (B.CostBook.means book.now) marks.now (view slip.now) }
{
    verdicts_by_law();
    first_fault(book, marks, slip)
}
