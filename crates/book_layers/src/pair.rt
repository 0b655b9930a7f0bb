// Two different pieces, the lower first, and the search for them in a row of such pairs.
ghost use Rattle.std.specs.Prelude.{◌≡◌, ◌<◌, true, length, is_some, IfSome};
ghost use Rattle.std.specs.Result.{result_err};
ghost use Rattle.book_layers.specs.Pairs.{same_pair, pair_at, has, pair_fault};

use books::book::check_inside;
use books::fault::BookFault;

#[derive(Clone, Copy, PartialEq, Eq, Debug)]
pub struct Pair {
    pub lower: usize,
    pub higher: usize,
}

impl Pair {
    ghost use Rattle.book_layers.specs.Pairs.{pair_of};

    // Two pieces in their order.
    pub fn new(i: usize, j: usize) -> Self
        ensures { result ≡ pair_of i j }
    {
        Pair {
            lower: i.min(j),
            higher: i.max(j),
        }
    }
}

// The place at which a row holds a pair.
pub(crate) fn position(pairs: &[Pair], pair: Pair) -> Option<usize>
    ensures { result ≡ Rattle.std.specs.List.position (λ p. same_pair p pair) pairs.now }
{
    pairs.iter().position(|held| *held == pair)
}

// The fault of two pieces that are to be barred or lifted, in a book of `count` pieces.
pub(crate) fn check_pair(count: usize, i: usize, j: usize) -> Result<(), BookFault>
    ensures { result_err result ≡ pair_fault count i j }
{
    check_inside(count, i, j)?;
    if i == j {
        return Err(BookFault::EqualPieces(i));
    }
    Ok(())
}
