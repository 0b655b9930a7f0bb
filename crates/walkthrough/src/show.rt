// How the walkthrough prints questions, answers and refusals.
use crate::fault::*;
use books::book::{CostBook, cost_of};
use books::fault::BookFault;
use books::refusal::*;
use std::fmt;

// A refusal, as it is printed: its number and what it names.
#[derive(Drop)]
pub struct Told(pub Refusal);

// What the number that is added to a refusal counts; by the refusal's number, since a refusal is told by it.
fn kind_named(number: u8) -> &'static str {
    match number {
        3 | 4 | 5 => "line",
        6 => "term",
        19 | 21 => "group",
        _ => "piece",
    }
}

impl fmt::Display for Told {
    fn fmt<W: fmt::Write>(&self, f: &mut fmt::Formatter<W>) -> fmt::Result {
        let number = self.0.number;
        let kind = kind_named(number);
        match self.0.names {
            Named::Nothing => write!(f, "refused {number}"),
            Named::One(named) => write!(f, "refused {number}, {kind} {named}"),
            Named::Two(first, second) => write!(
                f,
                "refused {number}, {kind}s {first} and {second}"
            ),
        }
    }
}

// What two pieces cost, as it is printed.
#[derive(Drop)]
struct Price(Option<u32>);

impl fmt::Display for Price {
    fn fmt<W: fmt::Write>(&self, f: &mut fmt::Formatter<W>) -> fmt::Result {
        match self.0 {
            Some(cost) => write!(f, "{cost}"),
            None => f.write_str("barred"),
        }
    }
}

// Prints a question or a step, and its answer or how it was refused.
pub(crate) fn show<Q: fmt::Display, A: fmt::Display + Drop, F: Refuses + Drop>(
    rt: &HostRuntime,
    asked: &Q,
    answer: Result<A, F>,
) -> Result<(), WalkFault> {
    match answer {
        Ok(given) => println!(rt; "  {asked}: {given}")?,
        Err(fault) => {
            let told = Told(fault.refusal());
            println!(rt; "  {asked}: {told}")?;
        }
    }
    Ok(())
}

// Prints a step and whether it was accepted.
pub(crate) fn show_step(
    rt: &HostRuntime,
    step: &str,
    answer: Result<(), BookFault>,
) -> Result<(), WalkFault> {
    show(rt, &step, answer.map(|_| "accepted"))
}

// Two pieces, of which a book is asked what they cost.
#[derive(Clone, Copy)]
struct Question(usize, usize);

impl fmt::Display for Question {
    fn fmt<W: fmt::Write>(&self, f: &mut fmt::Formatter<W>) -> fmt::Result {
        write!(f, "{} with {}", self.0, self.1)
    }
}

// Asks a book for the cost of two pieces, and prints the answer.
pub(crate) fn ask<B: CostBook>(
    rt: &HostRuntime,
    book: &B,
    i: usize,
    j: usize,
) -> Result<(), WalkFault> {
    show(rt, &Question(i, j), cost_of(book, i, j).map(Price))
}
