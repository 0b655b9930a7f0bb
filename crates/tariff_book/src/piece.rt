// A piece's record in a tariff: one unbroken stretch of driving, by its minutes and places.
ghost use Rattle.std.specs.Prelude.{◌≡◌};
ghost use Rattle.std.specs.Result.{result_err};
ghost use Rattle.tariff_book.specs.Pieces.{piece_fault};

use books::fault::BookFault;

// The last minute at which a piece may end: the end of the second day.
pub const LATEST_END: u16 = 2880;

#[derive(Clone, Copy, PartialEq, Eq, Debug)]
pub struct Piece {
    // Minutes from the first day's midnight.
    pub starts: u16,
    pub ends: u16,
    // Places by number.
    pub origin: u16,
    pub destination: u16,
}

impl Piece {
    ghost use Rattle.tariff_book.specs.Pieces.{piece_of};

    // The record of a piece that starts and ends at these minutes and goes from one place to another.
    pub fn new(starts: u16, ends: u16, origin: u16, destination: u16) -> Self
        ensures { result ≡ piece_of starts ends origin destination }
    {
        Piece {
            starts,
            ends,
            origin,
            destination,
        }
    }
}

// The fault of the record of the piece with this number.
pub fn check_piece(number: usize, piece: Piece) -> Result<(), BookFault>
    ensures { result_err result ≡ piece_fault number piece }
{
    // A piece that ends in time and after its start starts in time.
    if piece.starts >= piece.ends || piece.ends > LATEST_END {
        return Err(BookFault::RecordOutside(number));
    }
    Ok(())
}
