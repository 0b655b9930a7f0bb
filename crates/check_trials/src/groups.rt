// The groups: their count, records, parents and pieces, and the pairs of mates that leave them.
use crate::examples::*;
use crate::sheets::*;
use slips::fault::SlipFault;
use slips::slip::MOST_PRICE;
use std::test::Fail;

#[test]
fn the_count_has_a_limit(rt: HostRuntime) -> Result<(), Fail> {
    let told = [
        (Edit::Count(128), SlipFault::Group(0)),
        (Edit::Count(65535), SlipFault::Group(0)),
        // The blank record of group 3 has no lawful price.
        (Edit::Count(127), SlipFault::Group(3)),
        (Edit::Count(3), SlipFault::Group(3)),
        // Piece 3 is the first in group 2, piece 0 the first in group 1.
        (Edit::Count(1), SlipFault::Piece(3)),
        (Edit::Count(0), SlipFault::Piece(0)),
        (Edit::Group(2, 3), SlipFault::Piece(2)),
    ];
    for (edit, fault) in told {
        answers(&rt, RINGS.sheet(rt.alloc())?, &[edit], Err(fault))?;
    }
    Ok(())
}

#[test]
fn records_prices_and_parents_of_groups(rt: HostRuntime) -> Result<(), Fail> {
    let told = [
        // Above the count.
        (Edit::Worth(3, 1), SlipFault::Group(3)),
        (Edit::Parent(3, 1), SlipFault::Group(3)),
        (Edit::Worth(127, -1), SlipFault::Group(127)),
        (Edit::Parent(127, 65535), SlipFault::Group(127)),
        // Prices.
        (Edit::Worth(1, 0), SlipFault::Group(1)),
        (Edit::Worth(2, -1), SlipFault::Group(2)),
        (Edit::Worth(1, MOST_PRICE + 1), SlipFault::Group(1)),
        (Edit::Worth(2, i64::MAX), SlipFault::Group(2)),
        (Edit::Worth(1, i64::MIN), SlipFault::Group(1)),
        // Parents: itself, a lower one, one above the count.
        (Edit::Parent(1, 1), SlipFault::Group(1)),
        (Edit::Parent(2, 2), SlipFault::Group(2)),
        (Edit::Parent(2, 1), SlipFault::Group(2)),
        (Edit::Parent(1, 3), SlipFault::Group(1)),
        (Edit::Parent(2, 3), SlipFault::Group(2)),
        (Edit::Parent(1, 65535), SlipFault::Group(1)),
        // Two pieces in group 1, then in group 2, and all six in group 2.
        (Edit::Group(2, 0), SlipFault::Group(1)),
        (Edit::Group(3, 0), SlipFault::Group(2)),
        (Edit::Group(2, 2), SlipFault::Group(1)),
        (Edit::Parent(1, 2), SlipFault::Group(2)),
    ];
    for (edit, fault) in told {
        answers(&rt, RINGS.sheet(rt.alloc())?, &[edit], Err(fault))?;
    }
    Ok(())
}

#[test]
fn too_few_pieces_inside(rt: HostRuntime) -> Result<(), Fail> {
    let told: &[(Draft, &[Edit], SlipFault)] = &[
        // One piece inside, then none.
        (
            RINGS,
            &[Edit::Group(0, 0), Edit::Group(1, 0)],
            SlipFault::Group(1),
        ),
        (
            RINGS,
            &[Edit::Group(3, 0), Edit::Group(5, 0)],
            SlipFault::Group(2),
        ),
        (
            RINGS,
            &[Edit::Group(3, 0), Edit::Group(4, 0), Edit::Group(5, 0)],
            SlipFault::Group(2),
        ),
        // Group 3 around the other two: six inside, four inside, one inside.
        (NEST, &[Edit::Group(6, 0)], SlipFault::Group(3)),
        (NEST, &[Edit::Parent(2, 0)], SlipFault::Group(3)),
        (
            NEST,
            &[Edit::Parent(1, 0), Edit::Parent(2, 0)],
            SlipFault::Group(3),
        ),
    ];
    for &(draft, edits, fault) in told {
        answers(&rt, draft.sheet(rt.alloc())?, edits, Err(fault))?;
    }
    Ok(())
}

#[test]
fn a_group_left_by_three_pairs_of_mates(rt: HostRuntime) -> Result<(), Fail> {
    answers(
        &rt,
        THRICE.sheet(rt.alloc())?,
        &[],
        Err(SlipFault::Crossing(1)),
    )?;
    answers(
        &rt,
        LATE.sheet(rt.alloc())?,
        &[],
        Err(SlipFault::Crossing(2)),
    )
}
