// One line of a list, two pieces and their cost, and the tests that a line has to pass.
ghost use Rattle.std.specs.Prelude.{◌≡◌};
ghost use Rattle.std.specs.Result.{result_err};
ghost use Rattle.list_book.specs.Lines.{line_fault};

use books::fault::BookFault;
use books::limits::MOST_COST;

// How many lines a list holds at most.
pub const MOST_LINES: usize = 4096;

#[derive(Clone, Copy, PartialEq, Eq, Debug)]
pub struct Line {
    pub lower: usize,
    pub higher: usize,
    // In pence.
    pub cost: u32,
}

impl Line {
    ghost use Rattle.list_book.specs.Lines.{line_of};

    // The line of two pieces, the lower first.
    pub fn new(lower: usize, higher: usize, cost: u32) -> Self
        ensures { result ≡ line_of lower higher cost }
    {
        Line {
            lower,
            higher,
            cost,
        }
    }

    // Whether the line stands before the place of two pieces, the lower first. By hand: tuples compare in three ways, which a search pays for at each step.
    pub(crate) fn precedes(&self, lower: usize, higher: usize) -> bool
        ensures { result ≡ Rattle.list_book.specs.Lines.precedes self.now lower higher }
    {
        self.lower < lower || self.lower == lower && self.higher < higher
    }

    // The two pieces, the lower first: by them lines rise.
    pub(crate) fn pieces(&self) -> (usize, usize)
        ensures { result ≡ (self.now.lower, self.now.higher) }
    {
        (self.lower, self.higher)
    }
}

// The fault of the line with this number, from 1, in a list of `count` pieces, after the line before it.
pub fn check_line(
    count: usize,
    number: usize,
    before: Option<Line>,
    line: Line,
) -> Result<(), BookFault>
    ensures { result_err result ≡ line_fault count number before line }
{
    if line.lower >= line.higher || line.higher >= count {
        return Err(BookFault::LineOutside(number));
    }
    if before.is_some_and(|before| before.pieces() >= line.pieces()) {
        return Err(BookFault::LineOrder(number));
    }
    if line.cost > MOST_COST {
        return Err(BookFault::CostTooHigh(number));
    }
    Ok(())
}
