// A book of listed pairs: a pair on a line has that line's cost, and every other pair is barred.
#![tactic(auto)]

pub mod line;
pub mod list;
