// All questions of a full list: 256 pieces, 4,096 lines, 65,536 questions.
ghost use Rattle.std.specs.Prelude.{◌≡◌};
ghost use Rattle.walkthrough.specs.Survey.{row_allowed, all_allowed};

use crate::fault::*;
use crate::lists::*;
use crate::show::*;
use books::book::CostBook;
use list_book::list::ListBook;

// Whether a book answers the question for two pieces with a cost.
fn allows<B: CostBook>(book: &B, i: usize, j: usize) -> bool
    ensures { result ≡ Rattle.walkthrough.specs.Survey.allows (B.CostBook.means book.now) i j }
{
    matches!(book.cost(i, j), Ok(Some(_)))
}

// How many pieces below `count` a piece may be paired with.
fn count_row<B: CostBook>(book: &B, i: usize, count: usize) -> usize
    ensures { result ≡ row_allowed (B.CostBook.means book.now) i count }
{
    (0..count).filter(|&j| allows(book, i, j)).count()
}

// How many questions for two pieces, in either order, a book answers with a cost.
fn count_allowed<B: CostBook>(book: &B) -> usize
    ensures { result ≡ all_allowed (B.CostBook.means book.now) }
{
    let count = book.count();
    (0..count).map(|i| count_row(book, i, count)).sum()
}

pub(crate) fn walk(rt: &HostRuntime) -> Result<(), WalkFault> {
    println!(rt; "All questions of a full list")?;
    let mut book = ListBook::new(rt.alloc());
    show_step(
        rt,
        "load 256 pieces, 4,096 lines",
        book.load(256, long_lines(rt.alloc(), 4096)?),
    )?;
    let allowed = count_allowed(&book);
    println!(rt; "  answers with a cost, in either order: {allowed}")?;
    Ok(())
}
