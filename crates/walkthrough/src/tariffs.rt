// A tariff is loaded and asked, and faulty tariffs are refused.
use crate::fault::*;
use crate::show::*;
use std::alloc::{AllocError, Global};
use tariff_book::piece::Piece;
use tariff_book::tariff::TariffBook;
use tariff_book::terms::Terms;

// A break of 30 minutes at least, a spread of 12 hours at most, 10 pence a minute, 5 pounds for a move.
pub(crate) fn morning_terms() -> Terms {
    Terms {
        least_break: 30,
        greatest_spread: 720,
        rate: 10,
        move_charge: 500,
    }
}

// A piece from 6:00 to 10:00, and four that might follow it.
pub(crate) fn morning_pieces(heap: Global) -> Result<Vec<Piece>, AllocError> {
    let pieces = vec![in heap;
        Piece::new(360, 600, 1, 2),
        Piece::new(840, 1080, 2, 1),
        Piece::new(841, 1081, 2, 1),
        Piece::new(630, 900, 3, 1),
        Piece::new(629, 900, 3, 1),
    ]?;
    Ok(pieces)
}

fn refuse_tariffs(rt: &HostRuntime, book: &mut TariffBook) -> Result<(), WalkFault> {
    let heap = rt.alloc();
    let mut terms = morning_terms();
    terms.greatest_spread = 0;
    terms.rate = 101;
    show_step(
        rt,
        "load a spread of 0 and a rate of 101",
        book.load(terms, morning_pieces(heap)?),
    )?;
    let late = vec![in heap;
        Piece::new(360, 600, 1, 2),
        Piece::new(2879, 2881, 2, 1),
        Piece::new(5, 5, 1, 1),
    ]?;
    show_step(
        rt,
        "load a piece that ends at 2,881",
        book.load(morning_terms(), late),
    )
}

pub(crate) fn walk(rt: &HostRuntime) -> Result<(), WalkFault> {
    println!(rt; "A tariff of five pieces")?;
    let mut book = TariffBook::new(rt.alloc());
    show_step(
        rt,
        "load 5 pieces",
        book.load(morning_terms(), morning_pieces(rt.alloc())?),
    )?;
    ask(rt, &book, 0, 1)?;
    ask(rt, &book, 0, 2)?;
    ask(rt, &book, 0, 3)?;
    ask(rt, &book, 4, 0)?;
    ask(rt, &book, 1, 1)?;
    ask(rt, &book, 5, 0)?;
    println!(rt; "Faulty tariffs")?;
    refuse_tariffs(rt, &mut book)?;
    println!(rt; "The tariff is as it was")?;
    ask(rt, &book, 1, 0)
}
