// A layer over any book that bars up to 64 pairs.
ghost use Rattle.std.specs.Prelude.{◌≡◌, ◌≤◌, true, vec_len, vec_capacity};
ghost use Rattle.book_layers.specs.Pairs.{apart};

use crate::pair::Pair;

pub mod calls;

// How many pairs a layer bars at most.
pub const MOST_BARS: usize = 64;

#[derive(Drop)]
pub struct BarLayer<B> {
    below: B,
    // With room for all from the start, so that no later call wants memory, as one on a set might.
    bars: Vec<Pair>,
    ghost few: { vec_len bars ≤ 64 },
    ghost room: { 64 ≤ vec_capacity bars },
    ghost distinct: { apart bars.items ≡ true },
}
