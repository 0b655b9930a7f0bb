// The calls of a list book.
ghost use Rattle.std.specs.Prelude.{◌≡◌, is_ok, if◌then◌else◌, OnOk, IfErr};
ghost use Rattle.std.specs.Result.{result_err};
ghost use Rattle.books.specs.Table.{no_table};
ghost use Rattle.list_book.specs.Lines.{line_cost, lines_fault, list_fault, list_table};
ghost use Rattle.list_book.specs.Listed.{Lists, Blamed};
ghost use Rattle.list_book.specs.Meaning.{list_means};
ghost use Rattle.list_book.specs.Lawful.{list_sound};

use super::ListBook;
use crate::line::*;
use books::book::CostBook;
use books::fault::BookFault;
use books::limits::MOST_PIECES;
use std::alloc::Global;

// The lowest faulty line of a list of `count` pieces.
fn check_lines(count: usize, lines: &[Line]) -> Result<(), BookFault>
    ensures { result_err result ≡ lines_fault count lines.now }
{
    // A `for`: a chain over each line and the one before it would need a case of its own for the first line, and be no plainer.
    let mut before = None;
    for (k, line) in lines.iter().enumerate() {
        check_line(count, k + 1, before, *line)?;
        before = Some(*line);
    }
    Ok(())
}

// The first fault of a count and its lines.
fn check_list(count: usize, lines: &[Line]) -> Result<(), BookFault>
    ensures { result_err result ≡ list_fault count lines.now }
{
    if count > MOST_PIECES {
        return Err(BookFault::TooManyPieces);
    }
    if lines.len() > MOST_LINES {
        return Err(BookFault::TooManyLines);
    }
    check_lines(count, lines)
}

impl ListBook {
    // A list of no pieces.
    pub fn new(heap: Global) -> Self
        ensures { list_means result ≡ no_table }
    {
        ListBook {
            count: 0,
            lines: Vec::new(heap),
        }
    }

    // Takes these pieces and lines in place of those held; where they are refused the book stays as it was.
    pub fn load(&mut self, count: usize, lines: Vec<Line>) -> Result<(), BookFault>
        ensures refuses { result_err result ≡ list_fault count lines.items }
        ensures means { list_means self.new ≡ (if is_ok result then list_table count lines.items else list_means self.old) }
        ensures law { OnOk result (Lists (list_means self.new) count lines.items) }
        ensures blamed { IfErr result (Blamed count lines.items) }
    {
        check_list(count, &lines)?;
        self.count = count;
        self.lines = lines;
        Ok(())
    }

    // The cost on the line of two pieces, the lower first.
    fn find_cost(&self, lower: usize, higher: usize) -> Option<u32>
        ensures { result ≡ line_cost self.now.lines.items lower higher }
    {
        let at = self
            .lines
            .partition_point(|line| line.precedes(lower, higher));
        let line = self.lines.get(at)?;
        (line.pieces() == (lower, higher)).then_some(line.cost)
    }
}

impl CostBook for ListBook {
    ghost means = { λ b. list_means b };

    ghost sound = { λ b. list_sound b.count b.lines.items b.lawful };

    fn count(&self) -> usize {
        self.count
    }

    fn pair_cost(&self, i: usize, j: usize) -> Option<u32> {
        self.find_cost(i.min(j), i.max(j))
    }
}
