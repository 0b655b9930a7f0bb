// Which test of a slip fails.
ghost use Rattle.std.specs.Prelude.{◌≡◌};
ghost use Rattle.slips.specs.Fault.{slip_refusal};

use books::refusal::*;

#[derive(Clone, Copy, PartialEq, Eq, Debug)]
pub enum SlipFault {
    // The tables have not the lengths of the sheet's count and 127, or the kind is neither 1 nor 2.
    Shape,
    // A piece's record, the lowest that fails.
    Piece(usize),
    // A group, the lowest that fails, or 0 for the count of groups.
    Group(usize),
    // Two pieces whose prices are too high, or mates whose prices are too low: the first pair, rising.
    Prices(usize, usize),
    // A group, the lowest, that not exactly one pair of mates leaves.
    Crossing(usize),
    // The total.
    Total,
    // The gap slip.
    Gap,
}

impl Refuses for SlipFault {
    ghost told = { slip_refusal };

    fn refusal(&self) -> Refusal {
        match *self {
            SlipFault::Shape => plain(17),
            SlipFault::Piece(piece) => naming(18, piece),
            SlipFault::Group(group) => naming(19, group),
            SlipFault::Prices(lower, higher) => naming_two(20, lower, higher),
            SlipFault::Crossing(group) => naming(21, group),
            SlipFault::Total => plain(22),
            SlipFault::Gap => plain(23),
        }
    }
}
