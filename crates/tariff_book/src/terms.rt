// The terms of a tariff, numbered from 1 in the order of the fields.
ghost use Rattle.std.specs.Prelude.{◌≡◌};
ghost use Rattle.std.specs.Result.{result_err};
ghost use Rattle.tariff_book.specs.Terms.{terms_fault};

use books::fault::BookFault;

pub const MOST_BREAK: u16 = 240;

pub const MOST_SPREAD: u16 = 1440;

pub const MOST_RATE: u16 = 100;

pub const MOST_MOVE_CHARGE: u32 = 100_000;

#[derive(Clone, Copy, PartialEq, Eq, Debug)]
pub struct Terms {
    // The least minutes between the two pieces of a duty.
    pub least_break: u16,
    // The most minutes from a duty's start to its end.
    pub greatest_spread: u16,
    // Pence for each minute between the two pieces.
    pub rate: u16,
    // Pence where the second piece starts at another place than the first ends.
    pub move_charge: u32,
}

// The lowest term, from 1, that is outside its limits. A refusal of the product names a term by its number, so that the numbers stay.
pub fn check_terms(terms: Terms) -> Result<(), BookFault>
    ensures { result_err result ≡ terms_fault terms }
{
    if terms.least_break > MOST_BREAK {
        return Err(BookFault::TermOutside(1));
    }
    if terms.greatest_spread == 0 || terms.greatest_spread > MOST_SPREAD {
        return Err(BookFault::TermOutside(2));
    }
    if terms.rate > MOST_RATE {
        return Err(BookFault::TermOutside(3));
    }
    if terms.move_charge > MOST_MOVE_CHARGE {
        return Err(BookFault::TermOutside(4));
    }
    Ok(())
}
