// One field of a deal is changed.
// The dice and a slip stay two parameters: a struct of both would be made for each call alone.
use crate::deal::*;
use crate::dice::Dice;
use crate::look::*;
use crate::marks::*;
use slips::slip::*;
use std::alloc::AllocError;

// Another price: near the one before, at a limit, or far out.
fn other_price(dice: &mut Dice, price: i64) -> i64 {
    match dice.roll(12) {
        0 | 1 => price.wrapping_add(1),
        2 | 3 => price.wrapping_sub(1),
        4 => 1_000_000_000_000_000,
        5 => 1_000_000_000_000_001,
        6 => -1_000_000_000_000_000,
        7 => -1_000_000_000_000_001,
        8 => i64::MAX,
        9 => i64::MIN,
        10 => 0,
        _ => price.wrapping_neg(),
    }
}

// Another number of a group, a part or a count.
fn other_number(dice: &mut Dice, number: u16) -> u16 {
    match dice.roll(10) {
        0 => number.saturating_add(1),
        1 => number.saturating_sub(1),
        2 => 0,
        3 => 1,
        4 => 2,
        5 => 3,
        6 => 127,
        7 => 128,
        8 => 257,
        _ => 65535,
    }
}

fn damage_total(dice: &mut Dice, slip: &mut Slip) {
    slip.total = match dice.roll(3) {
        0 => slip.total.saturating_add(1),
        1 => slip.total.saturating_sub(1),
        _ => dice.roll(100),
    };
}

fn damage_mate(dice: &mut Dice, slip: &mut Slip, u: usize) {
    let other = as_mate(dice.place(slip.pieces.len().saturating_add(1)));
    let mate = if dice.roll(4) == 0 { 65535 } else { other };
    change_at(&mut slip.pieces, u, |record| record.mate = mate);
}

// This and the next differ by a field and by what is drawn: one function for both would be handed that, and how the field is read and written.
fn damage_price(dice: &mut Dice, slip: &mut Slip, u: usize) {
    let price = other_price(dice, piece_record(slip, u).price);
    change_at(&mut slip.pieces, u, |record| record.price = price);
}

fn damage_group(dice: &mut Dice, slip: &mut Slip, u: usize) {
    let group = other_number(dice, piece_record(slip, u).group);
    change_at(&mut slip.pieces, u, |record| record.group = group);
}

// Changes the price or the parent of a group record.
fn damage_record(dice: &mut Dice, slip: &mut Slip, place: usize) {
    let priced = dice.roll(2) == 0;
    change_at(&mut slip.groups, place, |record| {
        if priced {
            record.price = other_price(dice, record.price);
        } else {
            record.parent = other_number(dice, record.parent);
        }
    });
}

// One record of a table more or less.
// A match on what is drawn: each step stands once, beside how often it comes.
fn damage_lengths(dice: &mut Dice, slip: &mut Slip) -> Result<(), AllocError> {
    match dice.roll(4) {
        0 => slip.pieces.push(blank_piece())?,
        1 => {
            let _ = slip.pieces.pop();
        }
        2 => slip.groups.push(blank_group())?,
        _ => {
            let _ = slip.groups.pop();
        }
    }
    Ok(())
}

// Another mark of a piece; now and then the last piece loses its mark.
fn damage_mark(dice: &mut Dice, marks: &mut Vec<u8>) {
    let place = dice.place(marks.len());
    let drawn = mark(dice);
    if dice.roll(4) == 0 {
        let _ = marks.pop();
    } else {
        change_at(marks, place, |mark| *mark = drawn);
    }
}

// Another cost of a pair: a little more or less, none, the greatest, or any small one.
fn damage_cost(dice: &mut Dice, pairs: &mut [Pair]) {
    let place = dice.place(pairs.len());
    let kind = dice.roll(6);
    let drawn = dice.roll(30);
    change_at(pairs, place, |pair| {
        pair.cost = match (kind, pair.cost) {
            (0, Some(cost)) => Some(cost.saturating_add(1).min(1_000_000)),
            (1 | 2, Some(cost)) => Some(cost.saturating_sub(1)),
            (3, _) => None,
            (4, _) => Some(1_000_000),
            _ => Some(drawn),
        };
    });
}

// Two pieces become mates, and so do their mates.
fn damage_pairing(dice: &mut Dice, slip: &mut Slip, u: usize) {
    let v = dice.place(slip.pieces.len());
    let left = usize::from(piece_record(slip, u).mate);
    let right = usize::from(piece_record(slip, v).mate);
    for (piece, mate) in [(u, v), (v, u), (left, right), (right, left)] {
        change_at(
            &mut slip.pieces,
            piece,
            |record| record.mate = as_mate(mate),
        );
    }
}

// A piece's price goes to its mate, in part.
fn damage_share(dice: &mut Dice, slip: &mut Slip, u: usize) {
    let by = i64::from(dice.roll(3)) + 1;
    let mate = usize::from(piece_record(slip, u).mate);
    for (piece, raise) in [(u, by), (mate, -by)] {
        change_at(
            &mut slip.pieces,
            piece,
            |record| record.price = record.price.wrapping_add(raise),
        );
    }
}

// Changes one thing of a deal, drawn by lot.
// A match on what is drawn: each step stands once, beside how often it comes.
pub(crate) fn damage(dice: &mut Dice, deal: &mut Deal) -> Result<(), AllocError> {
    let what = dice.roll(16);
    let u = dice.place(deal.slip.pieces.len());
    let near = dice.place(usize::from(deal.slip.count));
    let far = dice.place(160).min(126);
    match what {
        0 => deal.slip.kind = dice.roll(5) as u8,
        1 => damage_total(dice, &mut deal.slip),
        2 => deal.slip.count = other_number(dice, deal.slip.count),
        3 => damage_mate(dice, &mut deal.slip, u),
        4 => damage_price(dice, &mut deal.slip, u),
        5 | 6 => damage_group(dice, &mut deal.slip, u),
        7 | 8 => damage_record(dice, &mut deal.slip, near),
        9 => damage_record(dice, &mut deal.slip, far),
        10 => damage_lengths(dice, &mut deal.slip)?,
        11 => damage_mark(dice, &mut deal.marks),
        12 | 13 => damage_cost(dice, &mut deal.pairs),
        14 => damage_pairing(dice, &mut deal.slip, u),
        _ => damage_share(dice, &mut deal.slip, u),
    }
    Ok(())
}
