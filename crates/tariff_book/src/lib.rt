// A book by tariff: a pair's cost follows from when and where its pieces start and end.
#![tactic(auto)]

pub mod piece;
pub mod tariff;
pub mod terms;
