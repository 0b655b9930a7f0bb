// The check of slips against an independent one: many small slips are made, lawful and damaged, and each is judged twice.
#![tactic(auto)]

mod compare;
mod damage;
mod deal;
mod dice;
mod fault;
mod gap_deal;
mod group_pieces;
mod judge;
mod judge_gap;
mod judge_groups;
mod judge_prices;
mod look;
mod marks;
mod priced_deal;
mod shapes;
mod tally;
mod wild_deal;

use fault::*;

fn main(rt: HostRuntime) -> Result<(), TrialFault> {
    let tally = compare::compare_all(rt.alloc())?;
    tally::show(&rt, &tally)
}
