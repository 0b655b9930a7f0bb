// The check of a slip over any book and a table of marks: it answers exactly the verdict.
#![tactic(auto)]

pub mod check;
mod gaps;
mod groups;
mod nests;
mod pairs;
mod pieces;
mod priced;
mod shaped;
