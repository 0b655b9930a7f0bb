// Priced slips that pass: mates, prices and groups are drawn first, and the costs are made to fit them.
// Dice and slip stay two parameters: a struct of both would be made for each call alone.
use crate::deal::*;
use crate::dice::Dice;
use crate::group_pieces::*;
use crate::look::*;
use crate::marks::*;
use crate::shapes::*;
use slips::slip::*;
use std::alloc::{AllocError, Global};

// The price of one of so many groups: small, or, where they are few, now and then the greatest.
fn draw_group_price(dice: &mut Dice, groups: usize) -> i64 {
    let price = i64::from(dice.roll(6)) + 1;
    if dice.roll(12) == 0 && groups < 4 {
        1_000_000_000_000_000
    } else {
        price
    }
}

// The price of the first of two mates: small, or, where they are the only ones, now and then the greatest or the least.
fn draw_price(dice: &mut Dice, live: usize) -> i64 {
    let price = i64::from(dice.roll(21)) - 10;
    if live > 2 {
        return price;
    }
    match dice.roll(8) {
        0 => 1_000_000_000_000_000,
        1 => -1_000_000_000_000_000,
        _ => price,
    }
}

// Sets the group of each live piece by its place in the order.
fn set_inner(slip: &mut Slip, order: &[usize], inner: &[u16; 8]) {
    for (u, g) in order.iter().zip(inner) {
        change_at(&mut slip.pieces, *u, |record| record.group = *g);
    }
}

// Sets the first group records: prices by lot, parents as given, one for each of these numbers.
fn set_groups(dice: &mut Dice, slip: &mut Slip, parents: &[u16]) {
    for (record, parent) in slip.groups.iter_mut().zip(parents) {
        *record = GroupRecord {
            price: draw_group_price(dice, parents.len()),
            parent: *parent,
        };
    }
}

// The parents of a chain of groups, each the parent of the one before it.
fn chain(heap: Global, count: u16) -> Result<Vec<u16>, AllocError> {
    (1..=count)
        .map(|g| if g < count { g + 1 } else { 0 })
        .collect(heap)
}

// The pieces of group 2, moved to the outermost group.
fn raise_second(slip: &mut Slip, top: u16) {
    for record in slip.pieces.iter_mut() {
        if record.group == 2 {
            record.group = top;
        }
    }
}

// How long a chain of groups is made.
fn draw_depth(dice: &mut Dice, count: u16) -> u16 {
    match dice.roll(5) {
        0 => 127,
        1 => 126,
        2 => count.saturating_add(1),
        3 => count.saturating_add(2),
        _ => 30,
    }
}

// Lays a shape's groups around the pieces; now and then a chain of groups is made longer.
fn lay_groups(
    heap: Global,
    dice: &mut Dice,
    slip: &mut Slip,
    order: &[usize],
    shape: &Shape,
) -> Result<(), AllocError> {
    set_inner(slip, order, &shape.inner);
    let mut parents: Vec<u16> = shape.parents.into_iter().flatten().collect(heap)?;
    slip.count = u16::try_from(parents.len()).unwrap_or(u16::MAX);
    if dice.roll(6) == 0 && is_chain(&parents) {
        slip.count = draw_depth(dice, slip.count);
        raise_second(slip, slip.count);
        parents = chain(heap, slip.count)?;
    }
    set_groups(dice, slip, &parents);
    Ok(())
}

// Makes two pieces mates, with prices that just meet a small cost drawn by lot.
fn join(dice: &mut Dice, slip: &mut Slip, live: usize, u: usize, v: usize, apart: i128) {
    let cost = i128::from(dice.roll(40));
    let first = draw_price(dice, live);
    let left = 2 * cost - i128::from(first);
    let second = i64::try_from(left.wrapping_sub(apart)).unwrap_or(0);
    for (piece, mate, price) in [(u, v, first), (v, u, second)] {
        change_at(&mut slip.pieces, piece, |record| {
            record.mate = as_mate(mate);
            record.price = price;
        });
    }
}

// Makes the first two pieces of an order mates, the next two, and so on.
fn join_all(dice: &mut Dice, slip: &mut Slip, groups: &[GroupPieces], order: &[usize]) {
    for pair in order.chunks_exact(2) {
        if let [u, v] = *pair {
            join(dice, slip, order.len(), u, v, between(groups, u, v));
        }
    }
}

// The least cost at which two pieces have a margin of 0 or 1; 0 where any cost has more.
fn least_cost(slip: &Slip, groups: &[GroupPieces], u: usize, v: usize) -> u128 {
    let first = i128::from(piece_record(slip, u).price);
    let second = i128::from(piece_record(slip, v).price);
    between(groups, u, v)
        .wrapping_add(first + second)
        .max(0)
        .unsigned_abs()
        .div_ceil(2)
}

// The cost of a pair: of mates the least; of others now and then none, else the least or little more, if that is a cost.
fn fit_cost(
    dice: &mut Dice,
    slip: &Slip,
    groups: &[GroupPieces],
    u: usize,
    v: usize,
) -> Option<u32> {
    let slack = u128::from(dice.roll(3));
    let none = dice.roll(3) == 0;
    let least = least_cost(slip, groups, u, v);
    let cost = if are_mates(slip, u, v) {
        least
    } else if none {
        return None;
    } else {
        least.saturating_add(slack)
    };
    u32::try_from(cost).ok().filter(|cost| *cost <= 1_000_000)
}

// The sum of the mates' costs. A struck piece has no mate, so that no mark is read: the test of a live piece is the independent check's alone.
fn mates_total(slip: &Slip, pairs: &[Pair]) -> u32 {
    pairs
        .iter()
        .filter(|pair| are_mates(slip, pair.lower, pair.higher))
        .filter_map(|pair| pair.cost)
        .fold(0, u32::saturating_add)
}

// A priced slip around groups that are drawn for so many live pieces.
pub(crate) fn deal_priced<F: FnOnce(&mut Dice, usize) -> Shape>(
    heap: Global,
    dice: &mut Dice,
    draw_shape: F,
) -> Result<Deal, AllocError>
    requires { F.IsAlwaysCallable draw_shape }
{
    let count = dice.place(9).max(dice.place(9));
    let mut marks = marks(heap, dice, count)?;
    make_even(&mut marks);
    let mut order = live_pieces(heap, &marks)?;
    shuffle(dice, &mut order);
    let shape = draw_shape(dice, order.len());
    let mut slip = blank_slip(heap, 1, count)?;
    lay_groups(heap, dice, &mut slip, &order, &shape)?;
    let groups = groups_of(heap, &slip)?;
    join_all(dice, &mut slip, &groups, &order);
    let pairs = all_pairs(heap, count, |u, v| fit_cost(dice, &slip, &groups, u, v))?;
    slip.total = mates_total(&slip, &pairs);
    Ok(Deal {
        count,
        pairs,
        marks,
        slip,
    })
}
