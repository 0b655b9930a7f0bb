// What two pieces cost as one duty.
ghost use Rattle.std.specs.Prelude.{◌≡◌, IsNone};
ghost use Rattle.tariff_book.specs.Terms.{terms_fault};
ghost use Rattle.tariff_book.specs.Pieces.{GoodPiece};
ghost use Rattle.tariff_book.specs.Duties.{duty_cost, pieces_cost};

use crate::piece::Piece;
use crate::terms::Terms;

// What an early and a late piece cost; `None` where the break is too short or the spread too great.
fn duty_cost(terms: Terms, early: Piece, late: Piece) -> Option<u32>
    requires good_terms { IsNone (terms_fault terms) }
    requires good_early { GoodPiece early }
    requires good_late { GoodPiece late }
    ensures { result ≡ duty_cost terms early late }
{
    if late.starts < early.ends + terms.least_break {
        return None;
    }
    if late.ends > early.starts + terms.greatest_spread {
        return None;
    }
    let gap = u32::from(late.starts - early.ends);
    let pay = gap * u32::from(terms.rate);
    if early.destination == late.origin {
        Some(pay)
    } else {
        Some(pay + terms.move_charge)
    }
}

// What two pieces cost, the one that starts first as the early one; equal starts are barred.
pub(super) fn pieces_cost(terms: Terms, one: Piece, other: Piece) -> Option<u32>
    requires good_terms { IsNone (terms_fault terms) }
    requires good_one { GoodPiece one }
    requires good_other { GoodPiece other }
    ensures { result ≡ pieces_cost terms one other }
{
    if one.starts == other.starts {
        return None;
    }
    let (early, late) = if one.starts < other.starts {
        (one, other)
    } else {
        (other, one)
    };
    duty_cost(terms, early, late)
}
