// Which groups a slip has: the group of each of eight pieces, of which the first two are mates, then the next two, and so on.
use crate::dice::Dice;
use std::array;

#[derive(Clone, Copy)]
pub struct Shape {
    // The innermost group of each piece.
    pub inner: [u16; 8],
    // The parent of each group, of at most three.
    pub parents: [Option<u16>; 3],
}

fn laid(inner: [u16; 8], parents: &[u16]) -> Shape {
    Shape {
        inner,
        parents: array::from_fn(|k| parents.get(k).copied()),
    }
}

// Groups that each hold an odd number of pieces, and that one pair of mates leaves.
// The number is only drawn: a name for each shape would say no more than the shape.
fn lawful_shape(number: u32) -> Shape {
    match number {
        1 => laid([1, 1, 1, 0, 0, 0, 0, 0], &[0]),
        2 => laid([1, 1, 1, 0, 2, 2, 0, 0], &[2, 0]),
        3 => laid([1, 1, 1, 2, 2, 0, 0, 0], &[2, 0]),
        4 => laid([1, 1, 1, 2, 2, 2, 0, 0], &[0, 0]),
        5 => laid([1, 1, 1, 1, 1, 0, 0, 0], &[0]),
        6 => laid([1, 1, 1, 0, 2, 2, 2, 0], &[0, 0]),
        7 => laid([1, 1, 1, 0, 2, 2, 3, 3], &[2, 3, 0]),
        _ => laid([0, 0, 0, 0, 0, 0, 0, 0], &[]),
    }
}

// Groups with too few or an even number of pieces, and groups that three pairs of mates leave.
// The number is only drawn: a name for each shape would say no more than the shape.
fn unlawful_shape(number: u32) -> Shape {
    match number {
        0 => laid([1, 1, 0, 0, 0, 0, 0, 0], &[0]),
        1 => laid([1, 0, 0, 0, 0, 0, 0, 0], &[0]),
        2 => laid([1, 1, 1, 0, 0, 0, 0, 0], &[0, 0]),
        3 => laid([1, 1, 1, 1, 0, 0, 0, 0], &[0]),
        4 => laid([1, 0, 1, 0, 1, 0, 0, 0], &[0]),
        5 => laid([1, 2, 1, 2, 1, 0, 0, 0], &[2, 0]),
        6 => laid([1, 1, 1, 2, 2, 2, 0, 0], &[2, 0]),
        7 => laid([1, 2, 1, 2, 1, 2, 0, 0], &[0, 0]),
        8 => laid([1, 1, 1, 0, 2, 0, 2, 0], &[2, 0]),
        _ => laid([1, 1, 1, 2, 2, 0, 2, 0], &[0, 0]),
    }
}

// Groups for so many live pieces, lawful.
pub(crate) fn draw_lawful(dice: &mut Dice, live: usize) -> Shape {
    let shapes = match live {
        0..=3 => 1,
        4 | 5 => 2,
        6 | 7 => 6,
        _ => 8,
    };
    lawful_shape(dice.roll(shapes))
}

// Groups for so many live pieces, unlawful where there are two of them at least.
pub(crate) fn draw_unlawful(dice: &mut Dice, live: usize) -> Shape {
    match live {
        0 | 1 => lawful_shape(0),
        2 | 3 => unlawful_shape(dice.roll(2)),
        4 | 5 => unlawful_shape(dice.roll(4)),
        6 | 7 => unlawful_shape(4 + dice.roll(4)),
        _ => unlawful_shape(4 + dice.roll(6)),
    }
}

// Whether these are the parents of groups of which each is the parent of the one before it.
pub(crate) fn is_chain(parents: &[u16]) -> bool {
    matches!(parents, [0] | [2, 0] | [2, 3, 0])
}
