// Marks of pieces, drawn by lot: most pieces are live.
use crate::dice::Dice;
use std::alloc::{AllocError, Global};

// A mark: of sixteen, eleven are 0, two are 1, two are 2 and one is 3.
// The check takes marks as numbers of 8 bits, and any number may stand there.
pub(crate) fn mark(dice: &mut Dice) -> u8 {
    match dice.roll(16) {
        0..=10 => 0,
        11 | 12 => 1,
        13 | 14 => 2,
        _ => 3,
    }
}

pub(crate) fn marks(heap: Global, dice: &mut Dice, count: usize) -> Result<Vec<u8>, AllocError> {
    (0..count).map(|_| mark(dice)).collect(heap)
}

// A piece is live where its mark is 0 or 1. The independent check has a test of its own, so that it shares none with the maker of slips.
fn is_live_mark(mark: u8) -> bool {
    matches!(mark, 0 | 1)
}

// The live pieces, rising.
pub(crate) fn live_pieces(heap: Global, marks: &[u8]) -> Result<Vec<usize>, AllocError> {
    marks
        .iter()
        .enumerate()
        .filter(|(_, mark)| is_live_mark(**mark))
        .map(|(piece, _)| piece)
        .collect(heap)
}

// Strikes the lowest of an odd number of live pieces.
pub(crate) fn make_even(marks: &mut [u8]) {
    let live = marks.iter().filter(|mark| is_live_mark(**mark)).count();
    if live % 2 == 1
        && let Some(mark) = marks.iter_mut().find(|mark| is_live_mark(**mark))
    {
        *mark = 2;
    }
}

// Brings pieces into an order by lot.
pub(crate) fn shuffle(dice: &mut Dice, order: &mut [usize]) {
    // A swap is of two places, so the loop counts places.
    for i in 0..order.len() {
        let j = dice.place(order.len());
        order.swap(i, j);
    }
}
