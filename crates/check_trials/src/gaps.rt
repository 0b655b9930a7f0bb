// Gap slips.
use crate::examples::*;
use crate::sheets::*;
use slips::fault::SlipFault;
use std::test::Fail;

#[test]
fn a_gap_slip_that_says_more_fails(rt: HostRuntime) -> Result<(), Fail> {
    let edits = [
        Edit::Mate(0, 1),
        Edit::Mate(3, 0),
        Edit::Mate(1, 65534),
        Edit::Price(0, 1),
        Edit::Price(3, -1),
        Edit::Total(1),
        Edit::Total(4_294_967_295),
        Edit::Count(1),
        Edit::Count(65535),
        Edit::Worth(1, 1),
        Edit::Parent(1, 1),
        Edit::Worth(127, -1),
        Edit::Parent(127, 65535),
        // No part numbers.
        Edit::Group(1, 257),
        Edit::Group(3, 65535),
        // A struck piece with a part.
        Edit::Mark(3, 2),
        Edit::Mark(1, 255),
    ];
    for edit in edits {
        answers(&rt, STAR.sheet(rt.alloc())?, &[edit], Err(SlipFault::Gap))?;
    }
    Ok(())
}

#[test]
fn parts_that_are_joined_or_too_few(rt: HostRuntime) -> Result<(), Fail> {
    let told: &[(Draft, &[Edit])] = &[
        // Piece 0 pairs with pieces of other parts.
        (STAR, &[Edit::Group(0, 4)]),
        (STAR, &[Edit::Group(0, 1)]),
        (STAR, &[Edit::Group(0, 3)]),
        // As many odd parts as cut pieces: two of each, then one, and fewer odd parts.
        (STAR, &[Edit::Group(3, 0)]),
        (STAR, &[Edit::Group(2, 3)]),
        (STAR, &[Edit::Group(1, 0), Edit::Group(2, 0)]),
        // One piece that is cut, and none that is live.
        (ONE, &[Edit::Group(0, 0)]),
        (ONE, &[Edit::Group(0, 0), Edit::Mark(0, 2)]),
    ];
    for &(draft, edits) in told {
        answers(&rt, draft.sheet(rt.alloc())?, edits, Err(SlipFault::Gap))?;
    }
    Ok(())
}

#[test]
fn other_parts_that_pass(rt: HostRuntime) -> Result<(), Fail> {
    let passing: &[(Draft, &[Edit])] = &[
        (STAR, &[Edit::Group(1, 256)]),
        (STAR, &[Edit::Group(1, 4), Edit::Group(3, 256)]),
        // A piece struck: the cut one, another, and one of a part of four, which leaves three.
        (STAR, &[Edit::Mark(0, 2)]),
        (STAR, &[Edit::Mark(3, 2), Edit::Group(3, 0)]),
        (WHOLE, &[Edit::Mark(0, 2), Edit::Group(0, 0)]),
        (ONE, &[Edit::Group(0, 256)]),
    ];
    for &(draft, edits) in passing {
        answers(&rt, draft.sheet(rt.alloc())?, edits, Ok(()))?;
    }
    Ok(())
}
