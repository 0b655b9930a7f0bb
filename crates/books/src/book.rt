// A cost book, by what it means: a piece count and a symmetric partial cost of two pieces. Two pieces are two numbers here and in the layers, and no
// struct: a caller has them as numbers, in either order, and a refusal names one of them.
ghost use Rattle.std.specs.Prelude.{◌≡◌};
ghost use Rattle.std.specs.Result.{result_err};
ghost use Rattle.books.specs.Table.{Table, Sound};
ghost use Rattle.books.specs.Asked.{outside_fault, asked, QuestionLaw};

use crate::fault::BookFault;

pub trait CostBook {
    // What the book means.
    ghost means: { Self → Table };

    // How many pieces the book counts; they are numbered from 0.
    fn count(&self) -> usize
        ensures { result ≡ (means self.now).count };

    // What two numbers cost as one duty, `None` where they are barred or one of them is no piece.
    fn pair_cost(&self, i: usize, j: usize) -> Option<u32>
        ensures { result ≡ (means self.now).cost i j };

    // What two pieces cost as one duty, `None` where they are barred; a number that is no piece is refused.
    fn cost(&self, i: usize, j: usize) -> Result<Option<u32>, BookFault>
        ensures { result ≡ asked (means self.now) i j }
    {
        check_inside(self.count(), i, j)?;
        Ok(self.pair_cost(i, j))
    }

    // What whoever makes a book owes of it.
    ghost sound: { (b : Self) → Sound (means b) };
}

// The fault of two numbers that are to be pieces of a book of `count`: the first that is none.
pub fn check_inside(count: usize, i: usize, j: usize) -> Result<(), BookFault>
    ensures { result_err result ≡ outside_fault count i j }
{
    if i >= count {
        return Err(BookFault::PieceOutside(i));
    }
    if j >= count {
        return Err(BookFault::PieceOutside(j));
    }
    Ok(())
}

// What two pieces cost, asked of any book: the trait's question, with the law of its answers.
pub fn cost_of<B: CostBook>(book: &B, i: usize, j: usize) -> Result<Option<u32>, BookFault>
    ensures answer { result ≡ asked (B.CostBook.means book.now) i j }
    ensures law { QuestionLaw (B.CostBook.means book.now) i j result }
{
    book.cost(i, j)
}
