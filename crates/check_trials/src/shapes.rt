// Lengths and kinds.
use crate::examples::*;
use crate::sheets::*;
use slips::fault::SlipFault;
use std::test::Fail;

#[test]
fn other_lengths_and_kinds_are_told(rt: HostRuntime) -> Result<(), Fail> {
    let edits = [
        Edit::FewerPieces,
        Edit::MorePieces,
        Edit::FewerGroups,
        Edit::MoreGroups,
        Edit::Kind(0),
        Edit::Kind(3),
        Edit::Kind(255),
    ];
    for draft in [FOUR, STAR] {
        for edit in edits {
            answers(
                &rt,
                draft.sheet(rt.alloc())?,
                &[edit],
                Err(SlipFault::Shape),
            )?;
        }
    }
    Ok(())
}
