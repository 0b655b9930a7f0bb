// A book that holds a record for each piece, and the terms by which two pieces cost.
ghost use Rattle.std.specs.Prelude.{IsNone};
ghost use Rattle.tariff_book.specs.Tariff.{tariff_fault};

use crate::piece::Piece;
use crate::terms::Terms;

pub mod calls;
mod duty;

#[derive(Drop)]
pub struct TariffBook {
    terms: Terms,
    pieces: Vec<Piece>,
    ghost lawful: { IsNone (tariff_fault terms pieces.items) },
}
