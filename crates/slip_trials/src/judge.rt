// The independent check: every test is made to its end, and the soonest of all that fails is the answer.
use crate::deal::*;
use crate::group_pieces::*;
use crate::judge_gap::*;
use crate::judge_groups::*;
use crate::judge_prices::*;
use crate::look::*;
use slips::fault::SlipFault;
use std::alloc::{AllocError, Global};

// What a test finds wrong, with the pieces or groups that it names, in the order of the tests.
#[derive(Clone, Copy, PartialEq, Eq, PartialOrd, Ord)]
pub enum Finding {
    Shape,
    Piece(usize),
    Count,
    Unused(usize),
    Nest(usize),
    Odd(usize),
    Prices(usize, usize),
    Crossing(usize),
    Total,
    Gapped,
}

// A finding as the library's fault.
impl From<Finding> for SlipFault {
    fn from(found: Finding) -> SlipFault {
        match found {
            Finding::Shape => SlipFault::Shape,
            Finding::Piece(piece) => SlipFault::Piece(piece),
            Finding::Count => SlipFault::Group(0),
            Finding::Unused(group) | Finding::Nest(group) | Finding::Odd(group) => {
                SlipFault::Group(group)
            }
            Finding::Prices(lower, higher) => SlipFault::Prices(lower, higher),
            Finding::Crossing(group) => SlipFault::Crossing(group),
            Finding::Total => SlipFault::Total,
            Finding::Gapped => SlipFault::Gap,
        }
    }
}

fn is_shaped(deal: &Deal) -> bool {
    deal.slip.pieces.len() == deal.count
        && deal.slip.groups.len() == 127
        && matches!(deal.slip.kind, 1 | 2)
}

// Whether the mate of a piece is another live piece that names it back, of an allowed pair.
fn is_mated(deal: &Deal, u: usize) -> bool {
    let mate = usize::from(piece_record(&deal.slip, u).mate);
    let back = usize::from(piece_record(&deal.slip, mate).mate);
    is_live(deal, mate) && mate != u && back == u && cost_between(&deal.pairs, u, mate).is_some()
}

fn piece_stands(deal: &Deal, u: usize) -> bool {
    let record = piece_record(&deal.slip, u);
    if !is_live(deal, u) {
        return record == blank_piece();
    }
    is_mated(deal, u)
        && (-1_000_000_000_000_000..=1_000_000_000_000_000).contains(&record.price)
        && record.group <= deal.slip.count
}

fn find_pieces(deal: &Deal) -> Option<Finding> {
    (0..deal.count)
        .filter(|u| !piece_stands(deal, *u))
        .map(Finding::Piece)
        .min()
}

// The soonest of all that the tests of a priced slip find.
fn find_priced(heap: Global, deal: &Deal) -> Result<Option<Finding>, AllocError> {
    // Deal and groups stay two parameters: more than half of the tests need no group.
    let groups = groups_of(heap, &deal.slip)?;
    let found = [
        find_total(deal),
        find_crossings(deal, &groups),
        find_prices(deal, &groups),
        find_odd(deal, &groups),
        find_nests(deal),
        find_unused(deal),
        find_count(deal),
        find_pieces(deal),
    ];
    Ok(found.into_iter().flatten().min())
}

// The fault of a slip, `None` where it passes.
pub(crate) fn judge(heap: Global, deal: &Deal) -> Result<Option<SlipFault>, AllocError> {
    let shape = (!is_shaped(deal)).then_some(Finding::Shape);
    // The record of a slip has its kind as a number, and any number may stand there.
    let content = match deal.slip.kind {
        1 => find_priced(heap, deal)?,
        2 => (!is_gap(deal)).then_some(Finding::Gapped),
        _ => None,
    };
    let soonest = [shape, content].into_iter().flatten().min();
    Ok(soonest.map(SlipFault::from))
}
