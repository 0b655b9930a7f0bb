// Of two faults the one of the lower number is told, and of the same number the lowest piece, group or pair.
use crate::examples::*;
use crate::sheets::*;
use slips::fault::SlipFault;
use slips::slip::MOST_PRICE;
use std::test::Fail;

#[test]
fn the_first_test_that_fails_is_told(rt: HostRuntime) -> Result<(), Fail> {
    let told: &[(Draft, &[Edit], SlipFault)] = &[
        // The shape before all else.
        (RINGS, &[Edit::Kind(0), Edit::Mate(0, 0)], SlipFault::Shape),
        (
            RINGS,
            &[Edit::FewerPieces, Edit::Count(128)],
            SlipFault::Shape,
        ),
        (RINGS, &[Edit::MoreGroups, Edit::Total(0)], SlipFault::Shape),
        (STAR, &[Edit::FewerGroups, Edit::Total(1)], SlipFault::Shape),
        // Pieces before groups.
        (
            RINGS,
            &[Edit::Mate(0, 0), Edit::Count(128)],
            SlipFault::Piece(0),
        ),
        (
            RINGS,
            &[Edit::Price(5, MOST_PRICE + 1), Edit::Worth(1, 0)],
            SlipFault::Piece(5),
        ),
        // Groups before prices.
        (
            RINGS,
            &[Edit::Price(0, 3), Edit::Worth(2, 0)],
            SlipFault::Group(2),
        ),
        (BARE, &[Edit::Worth(127, 1)], SlipFault::Group(127)),
        // Prices before crossings and the total.
        (THRICE, &[Edit::Price(2, 1)], SlipFault::Prices(2, 5)),
        (
            RINGS,
            &[Edit::Price(2, 1), Edit::Total(25)],
            SlipFault::Prices(2, 3),
        ),
        // Crossings before the total.
        (THRICE, &[Edit::Total(4)], SlipFault::Crossing(1)),
        (LATE, &[Edit::Total(4)], SlipFault::Crossing(2)),
    ];
    for &(draft, edits, fault) in told {
        answers(&rt, draft.sheet(rt.alloc())?, edits, Err(fault))?;
    }
    Ok(())
}

#[test]
fn the_lowest_is_told(rt: HostRuntime) -> Result<(), Fail> {
    let told: &[(Draft, &[Edit], SlipFault)] = &[
        (
            RINGS,
            &[Edit::Price(5, i64::MAX), Edit::Price(3, i64::MIN)],
            SlipFault::Piece(3),
        ),
        (
            RINGS,
            &[Edit::Mate(4, 4), Edit::Group(1, 9)],
            SlipFault::Piece(1),
        ),
        // The count, then the records above it, then prices and parents, then the pieces inside.
        (
            RINGS,
            &[Edit::Count(128), Edit::Worth(1, 0)],
            SlipFault::Group(0),
        ),
        (
            RINGS,
            &[Edit::Worth(127, 1), Edit::Worth(1, 0)],
            SlipFault::Group(127),
        ),
        (
            RINGS,
            &[Edit::Parent(5, 1), Edit::Worth(4, 1)],
            SlipFault::Group(4),
        ),
        (
            RINGS,
            &[Edit::Worth(2, 0), Edit::Parent(1, 1)],
            SlipFault::Group(1),
        ),
        (
            RINGS,
            &[Edit::Worth(1, 0), Edit::Parent(2, 2)],
            SlipFault::Group(1),
        ),
        (
            RINGS,
            &[Edit::Worth(2, 0), Edit::Group(2, 0)],
            SlipFault::Group(2),
        ),
        (
            RINGS,
            &[Edit::Group(3, 0), Edit::Group(2, 0)],
            SlipFault::Group(1),
        ),
        // Pairs by the lower piece, then the higher.
        (
            FOUR,
            &[Edit::Price(3, 6), Edit::Price(0, 0)],
            SlipFault::Prices(0, 2),
        ),
        (
            FOUR,
            &[Edit::Price(2, 8), Edit::Price(1, 2)],
            SlipFault::Prices(0, 1),
        ),
        (
            RISING,
            &[Edit::Price(0, 1), Edit::Price(1, 3)],
            SlipFault::Prices(0, 3),
        ),
    ];
    for &(draft, edits, fault) in told {
        answers(&rt, draft.sheet(rt.alloc())?, edits, Err(fault))?;
    }
    Ok(())
}
