// Slips: mates with prices that show that no pairing costs less, or parts that show that there is none.
#![tactic(auto)]

pub mod fault;
pub mod slip;
