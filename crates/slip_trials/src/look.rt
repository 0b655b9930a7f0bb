// What a deal says of a piece or of two.
use crate::deal::*;
use slips::slip::*;

// Whether a number is that of a live piece: its mark is 0 or 1. The independent check shares
// this test neither with the library nor with the maker of slips.
pub(crate) fn is_live(deal: &Deal, u: usize) -> bool {
    u < deal.count && deal.marks.get(u).is_some_and(|mark| *mark < 2)
}

pub(crate) fn both_live(deal: &Deal, pair: &Pair) -> bool {
    is_live(deal, pair.lower) && is_live(deal, pair.higher)
}

// The record of a piece; one that fits no piece where there is none.
pub(crate) fn piece_record(slip: &Slip, u: usize) -> PieceRecord {
    slip.pieces.get(u).copied().unwrap_or(blank_piece())
}

// The cost of two pieces, sought pair by pair: the independent check has no order of pairs.
pub(crate) fn cost_between(pairs: &[Pair], u: usize, v: usize) -> Option<u32> {
    pairs
        .iter()
        .find(|pair| pair.lower == u.min(v) && pair.higher == u.max(v))
        .and_then(|pair| pair.cost)
}

// Whether two pieces are mates by their records.
// Two pieces stay two parameters, here and in all of this program: a `Pair` has a cost, and where costs are made there is none yet.
pub(crate) fn are_mates(slip: &Slip, u: usize, v: usize) -> bool {
    usize::from(piece_record(slip, u).mate) == v && usize::from(piece_record(slip, v).mate) == u
}

// Whether a pair is of live mates.
pub(crate) fn is_pairing(deal: &Deal, pair: &Pair) -> bool {
    both_live(deal, pair) && are_mates(&deal.slip, pair.lower, pair.higher)
}
