// Cost books: what each two pieces of driving cost as one duty, and what a book refuses.
#![tactic(auto)]

pub mod book;
pub mod fault;
pub mod limits;
pub mod refusal;
