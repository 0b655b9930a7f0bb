// The tests of the groups.
use crate::deal::*;
use crate::group_pieces::*;
use crate::judge::*;
use crate::look::*;
use slips::slip::Slip;

pub(crate) fn find_count(deal: &Deal) -> Option<Finding> {
    (deal.slip.count > 127).then_some(Finding::Count)
}

// The group records above the count that are not blank.
pub(crate) fn find_unused(deal: &Deal) -> Option<Finding> {
    deal.slip
        .groups
        .iter()
        .zip(1..)
        .skip(usize::from(deal.slip.count))
        .filter(|(record, _)| **record != blank_group())
        .map(|(_, group)| Finding::Unused(group))
        .min()
}

// Whether group g has a lawful price, and a lawful parent.
fn nests(slip: &Slip, g: u16) -> bool {
    let parent = parent_of(slip, g);
    (1..=1_000_000_000_000_000).contains(&group_price(slip, g))
        && (parent == 0 || g < parent && parent <= slip.count)
}

pub(crate) fn find_nests(deal: &Deal) -> Option<Finding> {
    (1..=deal.slip.count.min(127))
        .filter(|g| !nests(&deal.slip, *g))
        .map(|g| Finding::Nest(usize::from(g)))
        .min()
}

// Whether an odd number of live pieces, three at least, is inside a group.
fn is_odd(deal: &Deal, group: &GroupPieces) -> bool {
    let count = group.pieces.iter().filter(|u| is_live(deal, **u)).count();
    count % 2 == 1 && count >= 3
}

pub(crate) fn find_odd(deal: &Deal, groups: &[GroupPieces]) -> Option<Finding> {
    groups
        .iter()
        .filter(|group| !is_odd(deal, group))
        .map(|group| Finding::Odd(usize::from(group.number)))
        .min()
}
