// A surcharge is set and a piece marked.
use crate::fault::*;
use crate::lists::*;
use crate::show::*;
use book_layers::surcharge::SurchargeLayer;
use list_book::list::ListBook;

pub(crate) fn walk(rt: &HostRuntime) -> Result<(), WalkFault> {
    println!(rt; "A surcharge over the list")?;
    let mut book = ListBook::new(rt.alloc());
    show_step(
        rt,
        "load 4 pieces, 4 lines",
        book.load(4, morning_lines(rt.alloc())?),
    )?;
    let mut layer = SurchargeLayer::new(book);
    show_step(rt, "set the amount to 50", layer.set_amount(50))?;
    show_step(rt, "mark 3", layer.set_mark(3, true))?;
    ask(rt, &layer, 0, 1)?;
    ask(rt, &layer, 1, 3)?;
    show_step(rt, "mark 1", layer.set_mark(1, true))?;
    ask(rt, &layer, 1, 3)?;
    ask(rt, &layer, 1, 2)?;
    show_step(
        rt,
        "set the amount to 1,000,000",
        layer.set_amount(1_000_000),
    )?;
    ask(rt, &layer, 1, 3)?;
    show_step(
        rt,
        "set the amount to 1,000,001",
        layer.set_amount(1_000_001),
    )?;
    show_step(rt, "unmark 3", layer.set_mark(3, false))?;
    ask(rt, &layer, 2, 3)?;
    show_step(rt, "mark 4", layer.set_mark(4, true))
}
