// A pair is barred and lifted, and a 65th bar is refused.
use crate::fault::*;
use crate::lists::*;
use crate::show::*;
use book_layers::bar::BarLayer;
use books::book::CostBook;
use books::fault::BookFault;
use list_book::list::ListBook;

// Prints whether a lifted pair was held.
fn show_lift(
    rt: &HostRuntime,
    step: &str,
    answer: Result<bool, BookFault>,
) -> Result<(), WalkFault> {
    let told = |held| if held {
        "it was held"
    } else {
        "it was not held"
    };
    show(rt, &step, answer.map(told))
}

// Bars piece 0 with as many others, from piece 1 on; how many were accepted.
fn bar_many<B: CostBook>(layer: &mut BarLayer<B>, others: usize) -> usize {
    (0..others).filter(|&j| layer.bar(0, j + 1).is_ok()).count()
}

fn fill(rt: &HostRuntime) -> Result<(), WalkFault> {
    let heap = rt.alloc();
    let mut book = ListBook::new(heap);
    show_step(
        rt,
        "load 256 pieces, 100 lines",
        book.load(256, long_lines(heap, 100)?),
    )?;
    let mut layer = BarLayer::new(heap, book)?;
    let accepted = bar_many(&mut layer, 64);
    println!(rt; "  bar 0 with 1 to 64: {accepted} accepted")?;
    show_step(rt, "bar 0 with 65", layer.bar(0, 65))?;
    show_step(rt, "bar 1 with 0, which is held", layer.bar(1, 0))?;
    show_lift(rt, "lift 0 with 64", layer.lift(0, 64))?;
    show_step(rt, "bar 0 with 65", layer.bar(0, 65))?;
    ask(rt, &layer, 0, 64)?;
    ask(rt, &layer, 0, 65)
}

pub(crate) fn walk(rt: &HostRuntime) -> Result<(), WalkFault> {
    println!(rt; "Bars over the list")?;
    let mut book = ListBook::new(rt.alloc());
    show_step(
        rt,
        "load 4 pieces, 4 lines",
        book.load(4, morning_lines(rt.alloc())?),
    )?;
    let mut layer = BarLayer::new(rt.alloc(), book)?;
    show_step(rt, "bar 1 with 0", layer.bar(1, 0))?;
    ask(rt, &layer, 0, 1)?;
    ask(rt, &layer, 0, 2)?;
    show_lift(rt, "lift 0 with 1", layer.lift(0, 1))?;
    ask(rt, &layer, 0, 1)?;
    show_lift(rt, "lift 0 with 1", layer.lift(0, 1))?;
    show_step(rt, "bar 2 with 2", layer.bar(2, 2))?;
    show_step(rt, "bar 4 with 4", layer.bar(4, 4))?;
    println!(rt; "A layer of 64 bars")?;
    fill(rt)
}
