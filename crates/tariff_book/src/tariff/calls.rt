// The calls of a tariff book.
ghost use Rattle.std.specs.Prelude.{◌≡◌, is_ok, if◌then◌else◌, OnOk, IfErr};
ghost use Rattle.std.specs.Result.{result_err};
ghost use Rattle.books.specs.Table.{no_table};
ghost use Rattle.tariff_book.specs.Tariff.{pieces_fault, tariff_fault, tariff_table};
ghost use Rattle.tariff_book.specs.Priced.{Prices, Blamed};
ghost use Rattle.tariff_book.specs.Meaning.{tariff_means};
ghost use Rattle.tariff_book.specs.Pricing.{tariff_sound};

use super::TariffBook;
use super::duty::pieces_cost;
use crate::piece::*;
use crate::terms::*;
use books::book::CostBook;
use books::fault::BookFault;
use books::limits::MOST_PIECES;
use std::alloc::Global;

// The lowest piece whose record is outside its limits.
fn check_pieces(pieces: &[Piece]) -> Result<(), BookFault>
    ensures { result_err result ≡ pieces_fault pieces.now }
{
    for (k, piece) in pieces.iter().enumerate() {
        check_piece(k, *piece)?;
    }
    Ok(())
}

// The first fault of terms and records.
fn check_tariff(terms: Terms, pieces: &[Piece]) -> Result<(), BookFault>
    ensures { result_err result ≡ tariff_fault terms pieces.now }
{
    if pieces.len() > MOST_PIECES {
        return Err(BookFault::TooManyPieces);
    }
    check_terms(terms)?;
    check_pieces(pieces)
}

impl TariffBook {
    // A tariff of no pieces.
    pub fn new(heap: Global) -> Self
        ensures { tariff_means result ≡ no_table }
    {
        TariffBook {
            terms: Terms {
                least_break: 0,
                greatest_spread: 1,
                rate: 0,
                move_charge: 0,
            },
            pieces: Vec::new(heap),
        }
    }

    // Takes these terms and records in place of those held; where they are refused the book stays as it was. The list book loads in the same steps: one
    // generic book would need a trait for the fault, the table and both laws, to save three lines.
    pub fn load(&mut self, terms: Terms, pieces: Vec<Piece>) -> Result<(), BookFault>
        ensures refuses { result_err result ≡ tariff_fault terms pieces.items }
        ensures means { tariff_means self.new ≡ (if is_ok result then tariff_table terms pieces.items else tariff_means self.old) }
        ensures law { OnOk result (Prices (tariff_means self.new) terms pieces.items) }
        ensures blamed { IfErr result (Blamed terms pieces.items) }
    {
        check_tariff(terms, &pieces)?;
        self.terms = terms;
        self.pieces = pieces;
        Ok(())
    }
}

impl CostBook for TariffBook {
    ghost means = { λ b. tariff_means b };

    ghost sound = { λ b. tariff_sound b.terms b.pieces.items b.lawful };

    fn count(&self) -> usize {
        self.pieces.len()
    }

    fn pair_cost(&self, i: usize, j: usize) -> Option<u32> {
        pieces_cost(self.terms, *self.pieces.get(i)?, *self.pieces.get(j)?)
    }
}
