// A book that holds its pairs as lines, strictly rising by lower, then higher piece.
ghost use Rattle.std.specs.Prelude.{IsNone};
ghost use Rattle.list_book.specs.Lines.{list_fault};

use crate::line::Line;

pub mod calls;

#[derive(Drop)]
pub struct ListBook {
    count: usize,
    lines: Vec<Line>,
    ghost lawful: { IsNone (list_fault count lines.items) },
}
