// Layers over any book: bars, which take pairs away, and surcharges, which make them dearer. A layer is a book.
#![tactic(auto)]

pub mod bar;
pub mod pair;
pub mod pile;
pub mod surcharge;
