// 127 groups, each inside the next, over 256 pieces.
use crate::sheets::*;
use slips::fault::SlipFault;
use slips::slip::Kind;
use std::alloc::{AllocError, Global};
use std::iter::once;
use std::test::Fail;

// The innermost group around a piece: 1 for 0, 1 and 2, 2 for 3 and 4, and so on, none for 255.
fn innermost(piece: u8) -> u8 {
    match piece {
        0 => 1,
        255 => 0,
        _ => piece.div_ceil(2),
    }
}

// How far out a piece stands. What the prices of two pieces and of the groups around just one of them come to
// is the difference of the two: each group has the price 1, piece 255 too, and the others have 0.
fn level(piece: u8) -> u8 {
    if piece == 255 { 129 } else { innermost(piece) }
}

// The mates are 0 and 255, 1 and 2, 3 and 4, and so on.
fn mate(piece: u8) -> u8 {
    match piece {
        0 => 255,
        255 => 0,
        _ if piece % 2 == 1 => piece + 1,
        _ => piece - 1,
    }
}

// The least cost that leaves no margin below 0; 0 for mates that share their groups, and 64 for 0 and 255.
fn least_cost(lower: u8, higher: u8) -> u8 {
    level(higher).saturating_sub(level(lower)).div_ceil(2)
}

// 3,960 pairs: piece 0 with every other, and the others that are no more than 15 apart.
fn lines(heap: Global) -> Result<Vec<(usize, usize, u32)>, AllocError> {
    (0..=u8::MAX)
        .flat_map(|lower| (lower..=u8::MAX).skip(1).map(move |higher| (lower, higher)))
        .filter(|&(lower, higher)| lower == 0 || higher.abs_diff(lower) <= 15)
        .map(|(lower, higher)| (
            usize::from(lower),
            usize::from(higher),
            u32::from(least_cost(lower, higher)),
        ))
        .collect(heap)
}

fn pieces(heap: Global) -> Result<Vec<(u16, i64, u16)>, AllocError> {
    (0..=u8::MAX)
        .map(|piece| (
            u16::from(mate(piece)),
            i64::from(piece == 255),
            u16::from(innermost(piece)),
        ))
        .collect(heap)
}

fn chain(heap: Global) -> Result<Sheet, Fail> {
    let lines = lines(heap)?;
    let pieces = pieces(heap)?;
    let groups: Vec<(i64, u16)> = (2..=127)
        .chain(once(0))
        .map(|parent| (1, parent))
        .collect(heap)?;
    let draft = Draft {
        lines: &lines,
        marks: &[0; 256],
        kind: Kind::Priced,
        total: 64,
        pieces: &pieces,
        groups: &groups,
    };
    draft.sheet(heap)
}

#[test]
fn a_chain_of_full_depth_passes(rt: HostRuntime) -> Result<(), Fail> {
    answers(&rt, chain(rt.alloc())?, &[], Ok(()))
}

#[test]
fn a_broken_chain_fails(rt: HostRuntime) -> Result<(), Fail> {
    let told = [
        // The way up from group 1 goes nowhere, or past group 2, which then holds two pieces.
        (Edit::Parent(1, 1), SlipFault::Group(1)),
        (Edit::Parent(1, 128), SlipFault::Group(1)),
        (Edit::Parent(1, 0), SlipFault::Group(2)),
        (Edit::Parent(1, 3), SlipFault::Group(2)),
        (Edit::Parent(1, 127), SlipFault::Group(2)),
        (Edit::Parent(64, 0), SlipFault::Group(65)),
        (Edit::Parent(126, 125), SlipFault::Group(126)),
        (Edit::Parent(126, 0), SlipFault::Group(127)),
        (Edit::Parent(127, 1), SlipFault::Group(127)),
        (Edit::Parent(127, 127), SlipFault::Group(127)),
        (Edit::Parent(127, 128), SlipFault::Group(127)),
        (Edit::Group(255, 127), SlipFault::Group(127)),
        // 129 is the lowest piece that is not inside group 64.
        (Edit::Worth(64, 2), SlipFault::Prices(0, 129)),
        (Edit::Worth(127, 2), SlipFault::Prices(0, 255)),
        (Edit::Total(63), SlipFault::Total),
    ];
    for (edit, fault) in told {
        answers(&rt, chain(rt.alloc())?, &[edit], Err(fault))?;
    }
    Ok(())
}
