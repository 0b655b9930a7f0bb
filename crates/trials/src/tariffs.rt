// Tariff books: the worked examples, the limits of terms and records, and every refusal.
use crate::told::*;
use books::book::CostBook;
use books::fault::BookFault;
use std::alloc::{AllocError, Global};
use std::test::Fail;
use tariff_book::piece::Piece;
use tariff_book::tariff::TariffBook;
use tariff_book::terms::Terms;

fn terms(least_break: u16, greatest_spread: u16, rate: u16, move_charge: u32) -> Terms {
    Terms {
        least_break,
        greatest_spread,
        rate,
        move_charge,
    }
}

// What two pieces cost under terms; a refusal to load them is an error.
fn priced(heap: Global, terms: Terms, one: Piece, other: Piece) -> Result<Option<u32>, BookFault> {
    let mut book = TariffBook::new(heap);
    book.load(terms, Vec::from_slice(heap, &[one, other])?)?;
    book.cost(0, 1)
}

#[test]
fn worked_examples(rt: HostRuntime) {
    let agreed = terms(30, 720, 10, 500);
    let early = Piece::new(360, 600, 1, 2);
    let answers = [
        (Piece::new(840, 1080, 2, 1), Ok(Some(2400))),
        (Piece::new(841, 1081, 2, 1), Ok(None)),
        (Piece::new(630, 900, 3, 1), Ok(Some(800))),
        (Piece::new(629, 900, 3, 1), Ok(None)),
    ];
    for (late, answer) in answers {
        assert_eq!(rt; priced(rt.alloc(), agreed, early, late), answer);
        assert_eq!(rt; priced(rt.alloc(), agreed, late, early), answer);
    }
}

#[test]
fn pieces_that_overlap_or_start_together_are_barred(rt: HostRuntime) {
    // The longest gap at the highest rate, with the dearest move, stays below the greatest cost.
    let dear = terms(0, 1440, 100, 100_000);
    let answers = [
        (
            Piece::new(0, 10, 1, 1),
            Piece::new(10, 20, 1, 1),
            Ok(Some(0)),
        ),
        (Piece::new(0, 11, 1, 1), Piece::new(10, 20, 1, 1), Ok(None)),
        (Piece::new(0, 30, 1, 1), Piece::new(10, 20, 1, 1), Ok(None)),
        (Piece::new(5, 6, 1, 1), Piece::new(5, 6, 1, 1), Ok(None)),
        (
            Piece::new(0, 1, 1, 1),
            Piece::new(1439, 1440, 2, 1),
            Ok(Some(243_800)),
        ),
    ];
    for (one, other, answer) in answers {
        assert_eq!(rt; priced(rt.alloc(), dear, one, other), answer);
    }
}

#[test]
fn terms_at_their_limits(rt: HostRuntime) -> Result<(), Fail> {
    let told = [
        (terms(240, 1440, 100, 100_000), None),
        (terms(0, 1, 0, 0), None),
        (terms(241, 1, 0, 0), naming(6, 1)),
        (terms(0, 0, 0, 0), naming(6, 2)),
        (terms(0, 1441, 0, 0), naming(6, 2)),
        (terms(0, 1, 101, 0), naming(6, 3)),
        (terms(0, 1, 0, 100_001), naming(6, 4)),
        (terms(0, 1, 101, 100_001), naming(6, 3)),
    ];
    for (terms, refusal) in told {
        assert_eq!(rt;
            loaded(
                rt.alloc(),
                &[],
                |pieces| TariffBook::new(rt.alloc()).load(terms, pieces)
            )?,
            refusal
        );
    }
    Ok(())
}

#[test]
fn records_at_their_limits(rt: HostRuntime) -> Result<(), Fail> {
    let told = [
        (
            Piece::new(0, 1, 0, 0),
            Piece::new(2879, 2880, 65535, 65535),
            None,
        ),
        (
            Piece::new(0, 1, 0, 0),
            Piece::new(2879, 2881, 0, 0),
            naming(7, 1),
        ),
        (
            Piece::new(0, 1, 0, 0),
            Piece::new(2880, 2881, 0, 0),
            naming(7, 1),
        ),
        (Piece::new(7, 7, 0, 0), Piece::new(8, 7, 0, 0), naming(7, 0)),
    ];
    let least = terms(0, 1, 0, 0);
    for (one, other, refusal) in told {
        assert_eq!(rt;
            loaded(
                rt.alloc(),
                &[one, other],
                |pieces| TariffBook::new(rt.alloc()).load(least, pieces)
            )?,
            refusal
        );
    }
    // A faulty term is told before a faulty record.
    assert_eq!(rt;
        loaded(
            rt.alloc(),
            &[Piece::new(7, 7, 0, 0)],
            |pieces| TariffBook::new(rt.alloc()).load(terms(0, 0, 0, 0), pieces)
        )?,
        naming(6, 2)
    );
    Ok(())
}

#[test]
fn pieces_at_their_limit(rt: HostRuntime) -> Result<(), Fail> {
    let heap = rt.alloc();
    let mut book = TariffBook::new(heap);
    assert_eq!(rt; book.count(), 0);
    assert_eq!(rt; book.cost(0, 0), Err(BookFault::PieceOutside(0)));
    let many = vec![in heap; Piece::new(0, 1, 0, 0); 256]?;
    assert_eq!(rt; refused(book.load(terms(0, 1, 0, 0), many)), None);
    assert_eq!(rt; book.count(), 256);
    assert_eq!(rt; book.cost(255, 256), Err(BookFault::PieceOutside(256)));
    // Too many pieces are told before a faulty term.
    let more = vec![in heap; Piece::new(1, 1, 0, 0); 257]?;
    assert_eq!(rt; refused(book.load(terms(0, 0, 0, 0), more)), plain(1));
    assert_eq!(rt; book.count(), 256);
    Ok(())
}
