// The tests of the prices, of the mates that leave a group, and of the total.
use crate::deal::*;
use crate::group_pieces::*;
use crate::judge::*;
use crate::look::*;
use slips::slip::Slip;

// The prices of two pieces, and of the groups that hold exactly one of them. Slip and groups stay two parameters, here and where slips are made: a slip is
// changed after its groups are worked out.
fn prices_of(slip: &Slip, groups: &[GroupPieces], u: usize, v: usize) -> i128 {
    let first = i128::from(piece_record(slip, u).price);
    let second = i128::from(piece_record(slip, v).price);
    between(groups, u, v).wrapping_add(first + second)
}

// Whether twice a pair's cost equals its prices, for mates, or is no less, for others; so for a pair that is not allowed.
fn prices_stand(deal: &Deal, groups: &[GroupPieces], pair: &Pair) -> bool {
    let prices = prices_of(&deal.slip, groups, pair.lower, pair.higher);
    let mates = are_mates(&deal.slip, pair.lower, pair.higher);
    pair.cost.is_none_or(|cost| {
        let twice = 2 * i128::from(cost);
        twice == prices || twice > prices && !mates
    })
}

pub(crate) fn find_prices(deal: &Deal, groups: &[GroupPieces]) -> Option<Finding> {
    deal.pairs
        .iter()
        .filter(|pair| both_live(deal, pair) && !prices_stand(deal, groups, pair))
        .map(|pair| Finding::Prices(pair.lower, pair.higher))
        .min()
}

// How many pairs of mates have one end inside a group.
fn count_leaving(deal: &Deal, group: &GroupPieces) -> usize {
    deal.pairs
        .iter()
        .filter(|pair| is_pairing(deal, pair) && group.separates(pair.lower, pair.higher))
        .count()
}

pub(crate) fn find_crossings(deal: &Deal, groups: &[GroupPieces]) -> Option<Finding> {
    groups
        .iter()
        .filter(|group| count_leaving(deal, group) != 1)
        .map(|group| Finding::Crossing(usize::from(group.number)))
        .min()
}

// The sum of the costs of live mates.
fn sum_of_costs(deal: &Deal) -> u64 {
    deal.pairs
        .iter()
        .filter(|pair| is_pairing(deal, pair))
        .filter_map(|pair| pair.cost)
        .map(u64::from)
        .fold(0, u64::saturating_add)
}

pub(crate) fn find_total(deal: &Deal) -> Option<Finding> {
    (sum_of_costs(deal) != u64::from(deal.slip.total)).then_some(Finding::Total)
}
