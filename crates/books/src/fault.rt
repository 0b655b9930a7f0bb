// What a book refuses.
ghost use Rattle.std.specs.Prelude.{◌≡◌};
ghost use Rattle.books.specs.Fault.{refusal};
ghost use Rattle.books.specs.declared.fault.BookFault.TheVariants.{NoMemory};

use crate::refusal::*;
use std::alloc::{AllocError, AllocFailed};

#[derive(Clone, Copy, PartialEq, Eq, Debug)]
pub enum BookFault {
    // More pieces than a book may count.
    TooManyPieces,
    // More lines than a list may hold.
    TooManyLines,
    // A line, numbered from 1, whose pieces are not lower, higher and below the count.
    LineOutside(usize),
    // A line, numbered from 1, that does not stand above the line before it.
    LineOrder(usize),
    // A line, numbered from 1, whose cost is over the limit.
    CostTooHigh(usize),
    // A surcharge over the limit.
    AmountTooHigh,
    // A term of a tariff, numbered from 1, that is outside its limits.
    TermOutside(usize),
    // A piece whose record in a tariff is outside its limits.
    RecordOutside(usize),
    // A piece number that is not below the count.
    PieceOutside(usize),
    // A pair of a piece with itself, to bar or to lift.
    EqualPieces(usize),
    // One more bar than a layer may hold.
    BarsFull,
    // No memory was found for what was to be made.
    NoMemory,
}

impl Refuses for BookFault {
    ghost told = { refusal };

    fn refusal(&self) -> Refusal {
        match *self {
            BookFault::TooManyPieces => plain(1),
            BookFault::TooManyLines => plain(2),
            BookFault::LineOutside(line) => naming(3, line),
            BookFault::LineOrder(line) => naming(4, line),
            BookFault::CostTooHigh(line) => naming(5, line),
            BookFault::AmountTooHigh => plain(5),
            BookFault::TermOutside(term) => naming(6, term),
            BookFault::RecordOutside(piece) => naming(7, piece),
            BookFault::PieceOutside(piece) => naming(8, piece),
            BookFault::EqualPieces(piece) => naming(9, piece),
            BookFault::BarsFull => plain(10),
            BookFault::NoMemory => plain(0),
        }
    }
}

impl From<AllocError> for BookFault {
    ghost from_gives = { λ _ r. r ≡ NoMemory };

    fn from(_error: AllocError) -> BookFault {
        BookFault::NoMemory
    }
}

impl<T: Drop> From<AllocFailed<T>> for BookFault {
    ghost from_gives = { λ _ r. r ≡ NoMemory };

    fn from(_refused: AllocFailed<T>) -> BookFault {
        BookFault::NoMemory
    }
}
