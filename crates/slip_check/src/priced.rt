// A slip whose records of pieces and groups are good.
ghost use Rattle.std.specs.Prelude.{◌≡◌, ℕ, ◌<◌, ◌≤◌, true};
ghost use Rattle.slips.specs.Verdict.{piece_good, group_good};
ghost use Rattle.slip_check.specs.Shaped.{problem_of, view_of};

use crate::shaped::*;
use books::book::CostBook;

// A slip of which the record of each piece, the count of groups, and the record of each group up to it have passed their tests.
#[derive(Drop)]
pub(crate) struct PricedSlip<'a, B: CostBook> {
    pub(crate) shaped: ShapedSlip<'a, B>,
    ghost good_pieces: { (u : ℕ) → u < (problem_of shaped).size → piece_good (problem_of shaped) (view_of shaped) u ≡ true },
    ghost few_groups: { (view_of shaped).count ≤ 127 },
    ghost good_groups: { (k : ℕ) → k < (view_of shaped).count → group_good (view_of shaped) k ≡ true },
}
