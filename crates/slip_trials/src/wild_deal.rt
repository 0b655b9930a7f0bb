// Slips whose fields are all drawn by lot.
use crate::deal::*;
use crate::dice::Dice;
use crate::marks::*;
use slips::slip::*;
use std::alloc::{AllocError, Global};

// The record of a slip has its kind as a number, and any number may stand there.
fn wild_kind(dice: &mut Dice) -> u8 {
    match dice.roll(8) {
        0 => 0,
        1..=4 => 1,
        5 | 6 => 2,
        _ => 3,
    }
}

// The length of a table that should be so long: one more or less now and then.
fn wild_length(dice: &mut Dice, length: usize) -> usize {
    match dice.roll(12) {
        0 => length.saturating_add(1),
        1 => length.saturating_sub(1),
        _ => length,
    }
}

fn wild_piece(dice: &mut Dice, count: usize) -> PieceRecord {
    let mate = as_mate(dice.place(count.saturating_add(1)));
    let mated = dice.roll(3) != 0;
    let price = i64::from(dice.roll(7)) - 3;
    let priced = dice.roll(2) == 0;
    let group = dice.short(4);
    PieceRecord {
        mate: if mated { mate } else { 65535 },
        price: if priced { price } else { 0 },
        group,
    }
}

fn wild_group(dice: &mut Dice) -> GroupRecord {
    GroupRecord {
        price: i64::from(dice.roll(5)),
        parent: dice.short(5),
    }
}

fn wild_cost(dice: &mut Dice) -> Option<u32> {
    let cost = dice.roll(6);
    let allowed = dice.roll(5) != 0;
    allowed.then_some(cost)
}

fn wild_slip(heap: Global, dice: &mut Dice, count: usize) -> Result<Slip, AllocError> {
    let kind = wild_kind(dice);
    let total = dice.roll(8);
    let groups_count = dice.short(4);
    let length = wild_length(dice, count);
    let pieces = (0..length).map(|_| wild_piece(dice, count)).collect(heap)?;
    let groups_length = wild_length(dice, 127);
    let mut groups = vec![in heap; blank_group(); groups_length]?;
    let filled = dice.place(4);
    for record in groups.iter_mut().take(filled) {
        *record = wild_group(dice);
    }
    Ok(Slip {
        kind,
        total,
        count: groups_count,
        pieces,
        groups,
    })
}

pub(crate) fn deal_wild(heap: Global, dice: &mut Dice) -> Result<Deal, AllocError> {
    let count = dice.place(9);
    let length = wild_length(dice, count);
    let marks = marks(heap, dice, length)?;
    let pairs = all_pairs(heap, count, |_, _| wild_cost(dice))?;
    let slip = wild_slip(heap, dice, count)?;
    Ok(Deal {
        count,
        pairs,
        marks,
        slip,
    })
}
