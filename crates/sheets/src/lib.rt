// Sheets: one day's pieces with the planner's marks and a queue of withdrawals, open while it is changed and closed while it is paired.
#![tactic(auto)]

pub mod faults;
pub mod marks;
mod memory;
pub mod serve;
pub mod sheet;
