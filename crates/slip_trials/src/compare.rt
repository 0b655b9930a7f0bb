// Makes the slips one by one, and has each judged by the library and by the independent check.
use crate::damage::*;
use crate::deal::*;
use crate::dice::Dice;
use crate::fault::*;
use crate::gap_deal::*;
use crate::judge::*;
use crate::priced_deal::*;
use crate::shapes::*;
use crate::tally::*;
use crate::wild_deal::*;
use list_book::list::ListBook;
use slip_check::check::check;
use slips::fault::SlipFault;
use std::alloc::{AllocError, Global};

// How many slips are compared.
const SLIPS: u32 = 8000;

// The heap and the dice stay two parameters, here and in the modules that make slips: much is made where nothing is drawn, and drawn where nothing is made.

// A slip of one of eight families, damaged so many times.
// The families come in turn by number: names for them would stand only here.
fn deal_one(heap: Global, dice: &mut Dice, family: u32) -> Result<Deal, AllocError> {
    let (mut deal, times) = match family {
        0 => (deal_priced(heap, dice, draw_lawful)?, 0),
        1 | 2 => (deal_priced(heap, dice, draw_lawful)?, 1),
        3 => (deal_priced(heap, dice, draw_lawful)?, dice.roll(2) + 2),
        4 => (deal_priced(heap, dice, draw_unlawful)?, dice.roll(8) / 7),
        5 => (deal_gap(heap, dice)?, 0),
        6 => (deal_gap(heap, dice)?, 1),
        _ => (deal_wild(heap, dice)?, 0),
    };
    for _ in 0..times {
        damage(dice, &mut deal)?;
    }
    Ok(deal)
}

// What the library's check answers.
fn library_answer(heap: Global, deal: &Deal) -> Result<Option<SlipFault>, TrialFault> {
    let mut book = ListBook::new(heap);
    book.load(deal.count, lines(heap, &deal.pairs)?)?;
    Ok(check(&book, &deal.marks, &deal.slip).err())
}

// Makes a slip of a family, and has it judged twice.
fn run_trial(heap: Global, dice: &mut Dice, family: u32) -> Result<Trial, TrialFault> {
    let deal = deal_one(heap, dice, family)?;
    Ok(Trial {
        kind: deal.slip.kind,
        answer: library_answer(heap, &deal)?,
        judged: judge(heap, &deal)?,
    })
}

// Each trial is counted as it ends, so that the memory that is wanted does not grow with their number.
pub(crate) fn compare_all(heap: Global) -> Result<Tally, TrialFault> {
    let mut dice = Dice::new(2026);
    let mut tally = Tally::new();
    for k in 0..SLIPS {
        tally.add(run_trial(heap, &mut dice, k % 8)?);
    }
    Ok(tally)
}
