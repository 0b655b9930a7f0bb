// A slip to be judged, with the pieces, costs and marks that it is judged under.
use list_book::line::Line;
use slips::slip::*;
use std::alloc::{AllocError, Global};

// Two pieces, and their cost where the pair is allowed.
#[derive(Clone, Copy)]
pub struct Pair {
    pub lower: usize,
    pub higher: usize,
    pub cost: Option<u32>,
}

#[derive(Drop)]
pub struct Deal {
    // How many pieces the book counts; the tables below may be damaged to other lengths.
    pub count: usize,
    // Every pair, by lower, then higher piece.
    pub pairs: Vec<Pair>,
    pub marks: Vec<u8>,
    pub slip: Slip,
}

// Blank records, written out: the independent check shares no constant of the tests with the library.
pub(crate) fn blank_piece() -> PieceRecord {
    PieceRecord {
        mate: 65535,
        price: 0,
        group: 0,
    }
}

pub(crate) fn blank_group() -> GroupRecord {
    GroupRecord {
        price: 0,
        parent: 0,
    }
}

// A slip of this kind that says nothing.
// The record of a slip has its kind as a number.
pub(crate) fn blank_slip(heap: Global, kind: u8, count: usize) -> Result<Slip, AllocError> {
    let pieces = vec![in heap; blank_piece(); count]?;
    let groups = vec![in heap; blank_group(); 127]?;
    Ok(Slip {
        kind,
        total: 0,
        count: 0,
        pieces,
        groups,
    })
}

// Changes the item at a place, where there is one.
pub(crate) fn change_at<T, F: FnOnce(&mut T)>(items: &mut [T], place: usize, change: F)
    requires { F.IsAlwaysCallable change }
{
    if let Some(item) = items.get_mut(place) {
        change(item);
    }
}

// The lines of a list book: the pairs that are allowed.
pub(crate) fn lines(heap: Global, pairs: &[Pair]) -> Result<Vec<Line>, AllocError> {
    pairs
        .iter()
        .filter_map(|pair| {
            pair.cost
                .map(|cost| Line::new(pair.lower, pair.higher, cost))
        })
        .collect(heap)
}

// Every pair of so many pieces, each with the cost that it is given. Two loops: of a chain, the inner closure would have to hand on the one that draws.
pub(crate) fn all_pairs<F: FnMut(usize, usize) -> Option<u32>>(
    heap: Global,
    count: usize,
    mut cost_of: F,
) -> Result<Vec<Pair>, AllocError>
    requires { F.IsAlwaysCallable cost_of }
{
    let mut pairs = Vec::new(heap);
    for lower in 0..count {
        for higher in lower + 1..count {
            let cost = cost_of(lower, higher);
            pairs.push(Pair {
                lower,
                higher,
                cost,
            })?;
        }
    }
    Ok(pairs)
}

// A piece's number as a slip writes it; 65535, which is no piece, where it has more than 16 bits.
pub(crate) fn as_mate(piece: usize) -> u16 {
    u16::try_from(piece).unwrap_or(65535)
}
