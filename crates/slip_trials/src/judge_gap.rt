// The test of a gap slip.
use crate::deal::*;
use crate::look::*;
use slips::slip::Slip;

// Whether a piece has no mate and no price, and a part number that it may have.
fn piece_stands(deal: &Deal, u: usize) -> bool {
    let record = piece_record(&deal.slip, u);
    let most = if is_live(deal, u) { 256 } else { 0 };
    record.mate == 65535 && record.price == 0 && record.group <= most
}

// Whether two pieces are of two parts; a piece that is cut is of none. The maker of slips has a test of its own.
fn are_apart(slip: &Slip, u: usize, v: usize) -> bool {
    let first = piece_record(slip, u).group;
    let second = piece_record(slip, v).group;
    first != 0 && second != 0 && first != second
}

// Whether a pair is not allowed, or does not join live pieces of two parts.
fn pair_stands(deal: &Deal, pair: &Pair) -> bool {
    let apart = both_live(deal, pair) && are_apart(&deal.slip, pair.lower, pair.higher);
    pair.cost.is_none() || !apart
}

// How many live pieces have this part number.
fn part_size(deal: &Deal, part: u16) -> usize {
    (0..deal.count)
        .filter(|u| is_live(deal, *u) && piece_record(&deal.slip, *u).group == part)
        .count()
}

// How many of the parts 1 to 256 have an odd number of live pieces.
fn odd_parts(deal: &Deal) -> usize {
    (1..=256)
        .filter(|part| part_size(deal, *part) % 2 == 1)
        .count()
}

pub(crate) fn is_gap(deal: &Deal) -> bool {
    deal.slip.total == 0
        && deal.slip.count == 0
        && deal
            .slip
            .groups
            .iter()
            .all(|record| *record == blank_group())
        && (0..deal.count).all(|u| piece_stands(deal, u))
        && deal.pairs.iter().all(|pair| pair_stands(deal, pair))
        && odd_parts(deal) > part_size(deal, 0)
}
