// The limits that every book keeps.

// How many pieces a book counts at most.
pub const MOST_PIECES: usize = 256;

// The greatest cost of a pair, in pence.
pub const MOST_COST: u32 = 1_000_000;
