// Which pieces are inside each group, and the prices between two pieces: written out group by group.
use slips::slip::*;
use std::alloc::{AllocError, Global};
use std::iter;

// A group, its price, and all pieces inside it.
#[derive(Drop)]
pub struct GroupPieces {
    pub number: u16,
    pub price: i64,
    pub pieces: Vec<usize>,
}

impl GroupPieces {
    // Whether exactly one of two pieces is inside.
    pub fn separates(&self, u: usize, v: usize) -> bool {
        self.pieces.contains(&u) != self.pieces.contains(&v)
    }
}

// The record of group g, numbered from 1.
// The record of a slip has groups as a table, in which each names its parent by number.
fn group_record(slip: &Slip, g: u16) -> Option<GroupRecord> {
    let place = usize::from(g).checked_sub(1)?;
    slip.groups.get(place).copied()
}

// The number that stands as the parent of group g; 0 where there is no such group.
pub(crate) fn parent_of(slip: &Slip, g: u16) -> u16 {
    group_record(slip, g).map_or(0, |record| record.parent)
}

pub(crate) fn group_price(slip: &Slip, g: u16) -> i64 {
    group_record(slip, g).map_or(0, |record| record.price)
}

// Whether the way up from group `from` meets group h, 127 groups on.
fn meets(slip: &Slip, from: u16, h: u16) -> bool {
    iter::successors(Some(from), |g| Some(parent_of(slip, *g)))
        .take(127)
        .any(|g| g == h)
}

fn pieces_of(heap: Global, slip: &Slip, number: u16) -> Result<GroupPieces, AllocError> {
    let pieces = slip
        .pieces
        .iter()
        .enumerate()
        .filter(|(_, record)| meets(slip, record.group, number))
        .map(|(piece, _)| piece)
        .collect(heap)?;
    let price = group_price(slip, number);
    Ok(GroupPieces {
        number,
        price,
        pieces,
    })
}

// Each group up to the count, of which 127 are looked at.
pub(crate) fn groups_of(heap: Global, slip: &Slip) -> Result<Vec<GroupPieces>, AllocError> {
    (1..=slip.count.min(127))
        .map(|number| pieces_of(heap, slip, number))
        .try_collect(heap)
}

// The prices of the groups that hold exactly one of two pieces.
pub(crate) fn between(groups: &[GroupPieces], u: usize, v: usize) -> i128 {
    groups
        .iter()
        .filter(|group| group.separates(u, v))
        .map(|group| i128::from(group.price))
        .fold(0, i128::wrapping_add)
}
