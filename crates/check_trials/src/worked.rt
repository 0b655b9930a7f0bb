// The worked slips.
use crate::examples::*;
use crate::sheets::*;
use slips::fault::SlipFault;
use std::test::Fail;

#[test]
fn the_worked_slips_pass(rt: HostRuntime) -> Result<(), Fail> {
    for draft in [NOTHING, ONE, COUPLE, FOUR, STRUCK, RINGS, NEST, STAR] {
        answers(&rt, draft.sheet(rt.alloc())?, &[], Ok(()))?;
    }
    Ok(())
}

#[test]
fn the_worked_slips_that_fail(rt: HostRuntime) -> Result<(), Fail> {
    let told: &[(Draft, &[Edit], SlipFault)] = &[
        (NOTHING, &[Edit::Total(1)], SlipFault::Total),
        (NOTHING, &[Edit::Kind(2)], SlipFault::Gap),
        (NOTHING, &[Edit::MorePieces], SlipFault::Shape),
        (ONE, &[Edit::Kind(1)], SlipFault::Piece(0)),
        (FOUR, &[Edit::Total(9)], SlipFault::Total),
        (FOUR, &[Edit::Kind(2)], SlipFault::Gap),
        (STRUCK, &[Edit::Total(8)], SlipFault::Total),
        (RINGS, &[Edit::Total(23)], SlipFault::Total),
        (BARE, &[], SlipFault::Prices(2, 3)),
        (STAR, &[Edit::Kind(1)], SlipFault::Piece(0)),
        (WHOLE, &[], SlipFault::Gap),
    ];
    for &(draft, edits, fault) in told {
        answers(&rt, draft.sheet(rt.alloc())?, edits, Err(fault))?;
    }
    Ok(())
}
