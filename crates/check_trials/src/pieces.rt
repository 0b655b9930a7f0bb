// The records of the pieces.
use crate::examples::*;
use crate::sheets::*;
use slips::fault::SlipFault;
use slips::slip::MOST_PRICE;
use std::test::Fail;

#[test]
fn a_mate_has_to_be_another_that_names_back(rt: HostRuntime) -> Result<(), Fail> {
    let told = [
        // Itself.
        (Edit::Mate(0, 0), SlipFault::Piece(0)),
        (Edit::Mate(2, 2), SlipFault::Piece(0)),
        (Edit::Mate(3, 3), SlipFault::Piece(1)),
        // No piece; 258 is 2 above 256.
        (Edit::Mate(0, 4), SlipFault::Piece(0)),
        (Edit::Mate(1, 4), SlipFault::Piece(1)),
        (Edit::Mate(0, 258), SlipFault::Piece(0)),
        (Edit::Mate(1, 65535), SlipFault::Piece(1)),
        (Edit::Mate(3, 65535), SlipFault::Piece(1)),
        // A piece with another mate.
        (Edit::Mate(0, 1), SlipFault::Piece(0)),
        (Edit::Mate(1, 0), SlipFault::Piece(1)),
        (Edit::Mate(2, 1), SlipFault::Piece(0)),
        (Edit::Mate(3, 0), SlipFault::Piece(1)),
        // A struck piece, and a struck one that is not blank.
        (Edit::Mark(2, 2), SlipFault::Piece(0)),
        (Edit::Mark(3, 255), SlipFault::Piece(1)),
        (Edit::Mark(0, 2), SlipFault::Piece(0)),
        (Edit::Mark(1, 3), SlipFault::Piece(1)),
    ];
    for (edit, fault) in told {
        answers(&rt, FOUR.sheet(rt.alloc())?, &[edit], Err(fault))?;
    }
    Ok(())
}

#[test]
fn a_struck_piece_has_to_be_blank(rt: HostRuntime) -> Result<(), Fail> {
    let told = [
        (Edit::Mate(2, 0), SlipFault::Piece(2)),
        (Edit::Mate(3, 3), SlipFault::Piece(3)),
        (Edit::Mate(3, 65534), SlipFault::Piece(3)),
        (Edit::Price(2, 1), SlipFault::Piece(2)),
        (Edit::Price(3, -1), SlipFault::Piece(3)),
        (Edit::Group(2, 1), SlipFault::Piece(2)),
        (Edit::Group(3, 65535), SlipFault::Piece(3)),
        // A live piece that is blank, and one with a struck mate.
        (Edit::Mark(2, 0), SlipFault::Piece(2)),
        (Edit::Mark(3, 1), SlipFault::Piece(3)),
        (Edit::Mate(0, 2), SlipFault::Piece(0)),
    ];
    for (edit, fault) in told {
        answers(&rt, STRUCK.sheet(rt.alloc())?, &[edit], Err(fault))?;
    }
    Ok(())
}

#[test]
fn a_barred_mate_is_told(rt: HostRuntime) -> Result<(), Fail> {
    let first = [
        Edit::Mate(0, 3),
        Edit::Mate(1, 2),
        Edit::Mate(2, 1),
        Edit::Mate(3, 0),
    ];
    answers(
        &rt,
        FOUR.sheet(rt.alloc())?,
        &first,
        Err(SlipFault::Piece(0)),
    )?;
    let later = [
        Edit::Mate(2, 4),
        Edit::Mate(4, 2),
        Edit::Mate(3, 5),
        Edit::Mate(5, 3),
    ];
    answers(
        &rt,
        RINGS.sheet(rt.alloc())?,
        &later,
        Err(SlipFault::Piece(2)),
    )
}

#[test]
fn prices_and_groups_have_limits(rt: HostRuntime) -> Result<(), Fail> {
    let told = [
        (Edit::Price(0, MOST_PRICE), SlipFault::Prices(0, 1)),
        (Edit::Price(0, MOST_PRICE + 1), SlipFault::Piece(0)),
        (Edit::Price(3, MOST_PRICE), SlipFault::Prices(1, 3)),
        (Edit::Price(3, MOST_PRICE + 1), SlipFault::Piece(3)),
        (Edit::Price(0, -MOST_PRICE), SlipFault::Prices(0, 2)),
        (Edit::Price(0, -MOST_PRICE - 1), SlipFault::Piece(0)),
        (Edit::Price(1, i64::MAX), SlipFault::Piece(1)),
        (Edit::Price(2, i64::MIN), SlipFault::Piece(2)),
        // There is no group.
        (Edit::Group(0, 1), SlipFault::Piece(0)),
        (Edit::Group(3, 65535), SlipFault::Piece(3)),
    ];
    for (edit, fault) in told {
        answers(&rt, FOUR.sheet(rt.alloc())?, &[edit], Err(fault))?;
    }
    Ok(())
}
