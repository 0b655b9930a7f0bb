// A layer over any book that adds an amount for each marked end of a pair.
ghost use Rattle.std.specs.Prelude.{◌≤◌};

use books::limits::MOST_PIECES;

pub mod calls;

// How many pieces a book counts at most: a mark for each, in a fixed table, so that no mark can want memory.
pub const MARKS: usize = MOST_PIECES;

#[derive(Drop)]
pub struct SurchargeLayer<B> {
    below: B,
    // In pence.
    amount: u32,
    marks: [bool; MARKS],
    ghost low: { amount ≤ 1000000 },
}
