// How often each answer came, and whether the two checks agreed.
use crate::fault::*;
use books::refusal::{Named, Refuses};
use slips::fault::SlipFault;

// What a slip of this kind was answered by the library, and by the independent check.
#[derive(Clone, Copy)]
pub struct Trial {
    // The record of a slip has its kind as a number.
    pub kind: u8,
    pub answer: Option<SlipFault>,
    pub judged: Option<SlipFault>,
}

impl Trial {
    fn agrees(&self) -> bool {
        self.answer == self.judged
    }

    fn passes(&self) -> bool {
        self.answer.is_none()
    }

    fn is_refused(&self, number: u8) -> bool {
        self.answer
            .is_some_and(|fault| fault.refusal().number == number)
    }
}

// The sum of what a fault names.
fn named_by(fault: SlipFault) -> usize {
    match fault.refusal().names {
        Named::Nothing => 0,
        Named::One(one) => one,
        Named::Two(first, second) => first.saturating_add(second),
    }
}

// Each refusal's number, by which the output tells it, and its name there.
const REFUSALS: [(u8, &str); 7] = [
    (17, "shape"),
    (18, "piece"),
    (19, "group"),
    (20, "prices"),
    (21, "crossing"),
    (22, "total"),
    (23, "gap"),
];

#[derive(Drop)]
pub struct Tally {
    compared: u32,
    agreed: u32,
    // The number of the first slip, from 1, on which they did not agree.
    first: Option<u32>,
    priced: u32,
    gapped: u32,
    // How often each refusal came.
    refused: [u32; 7],
    // The sum of the pieces and groups that were named.
    named: usize,
}

impl Tally {
    pub fn new() -> Tally {
        Tally {
            compared: 0,
            agreed: 0,
            first: None,
            priced: 0,
            gapped: 0,
            refused: [0; 7],
            named: 0,
        }
    }

    fn add_answer(&mut self, trial: &Trial) {
        if trial.passes() && trial.kind == 1 {
            self.priced = self.priced.saturating_add(1);
        } else if trial.passes() {
            self.gapped = self.gapped.saturating_add(1);
        }
        for (times, (number, _)) in self.refused.iter_mut().zip(REFUSALS) {
            *times = times.saturating_add(u32::from(trial.is_refused(number)));
        }
        self.named = self.named.saturating_add(trial.answer.map_or(0, named_by));
    }

    // Counts a trial.
    pub fn add(&mut self, trial: Trial) {
        self.compared = self.compared.saturating_add(1);
        if trial.agrees() {
            self.agreed = self.agreed.saturating_add(1);
        } else if self.first.is_none() {
            self.first = Some(self.compared);
        }
        self.add_answer(&trial);
    }
}

fn show_answers(rt: &impl Print, tally: &Tally) -> Result<(), TrialFault> {
    let priced = tally.priced;
    let gapped = tally.gapped;
    let named = tally.named;
    println!(rt; "  passed, priced: {priced}")?;
    println!(rt; "  passed, gap: {gapped}")?;
    for (times, (number, name)) in tally.refused.iter().zip(REFUSALS) {
        println!(rt; "  refused {number}, {name}: {times}")?;
    }
    println!(rt; "  sum of the pieces and groups named: {named}")?;
    Ok(())
}

pub(crate) fn show(rt: &impl Print, tally: &Tally) -> Result<(), TrialFault> {
    let compared = tally.compared;
    let agreed = tally.agreed;
    println!(rt; "Slips judged by two checks")?;
    println!(rt; "  compared: {compared}")?;
    println!(rt; "  agreed: {agreed}")?;
    match tally.first {
        Some(number) => println!(rt; "  first disagreement: slip {number}")?,
        None => println!(rt; "  first disagreement: none")?,
    }
    println!(rt; "Answers")?;
    show_answers(rt, tally)
}
