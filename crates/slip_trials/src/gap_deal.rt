// Gap slips: parts are drawn first, and no pair of two parts is allowed.
// Dice and slip stay two parameters: a struct of both would be made for each call alone.
use crate::deal::*;
use crate::dice::Dice;
use crate::look::*;
use crate::marks::*;
use slips::slip::*;
use std::alloc::{AllocError, Global};

// A part number; 0 is the cut.
fn draw_part(dice: &mut Dice) -> u16 {
    match dice.roll(10) {
        0 => 0,
        1 | 2 => 1,
        3 | 4 => 2,
        5 | 6 => 3,
        7 => 17,
        8 => 255,
        _ => 256,
    }
}

// Gives each live piece a part by lot.
fn set_parts(dice: &mut Dice, slip: &mut Slip, live: &[usize]) {
    for piece in live {
        let part = draw_part(dice);
        change_at(&mut slip.pieces, *piece, |record| record.group = part);
    }
}

// Leaves the first of the live pieces cut, and makes each other one a part of its own.
fn set_single(slip: &mut Slip, live: &[usize], cut: usize) {
    for piece in live.iter().skip(cut) {
        let part = as_mate(*piece).saturating_add(1);
        change_at(&mut slip.pieces, *piece, |record| record.group = part);
    }
}

// Whether two pieces are of two parts; a struck piece is of none. The independent check shares no such test with the maker of slips.
fn joins_parts(slip: &Slip, u: usize, v: usize) -> bool {
    let first = piece_record(slip, u).group;
    let second = piece_record(slip, v).group;
    first != 0 && second != 0 && first != second
}

// A small cost now and then, where two pieces are not of two parts.
fn draw_cost(dice: &mut Dice, slip: &Slip, u: usize, v: usize) -> Option<u32> {
    let cost = dice.roll(30);
    let allowed = dice.roll(3) != 0 && !joins_parts(slip, u, v);
    allowed.then_some(cost)
}

pub(crate) fn deal_gap(heap: Global, dice: &mut Dice) -> Result<Deal, AllocError> {
    let count = dice.place(9);
    let marks = marks(heap, dice, count)?;
    let live = live_pieces(heap, &marks)?;
    let mut slip = blank_slip(heap, 2, count)?;
    if dice.roll(2) == 0 {
        set_parts(dice, &mut slip, &live);
    } else {
        let cut = dice.place(live.len() / 2 + 1);
        set_single(&mut slip, &live, cut);
    }
    let pairs = all_pairs(heap, count, |u, v| draw_cost(dice, &slip, u, v))?;
    Ok(Deal {
        count,
        pairs,
        marks,
        slip,
    })
}
