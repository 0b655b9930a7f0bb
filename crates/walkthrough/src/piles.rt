// Layers are piled both ways.
use crate::fault::*;
use crate::lists::*;
use crate::show::*;
use crate::tariffs::*;
use book_layers::bar::BarLayer;
use book_layers::surcharge::SurchargeLayer;
use list_book::list::ListBook;
use tariff_book::tariff::TariffBook;

fn bars_on_top(rt: &HostRuntime) -> Result<(), WalkFault> {
    println!(rt; "Bars over a surcharge over bars over the list")?;
    let mut book = ListBook::new(rt.alloc());
    show_step(
        rt,
        "load 4 pieces, 4 lines",
        book.load(4, morning_lines(rt.alloc())?),
    )?;
    let mut low = BarLayer::new(rt.alloc(), book)?;
    show_step(rt, "bar 0 with 1 below", low.bar(0, 1))?;
    let mut middle = SurchargeLayer::new(low);
    show_step(rt, "set the amount to 50", middle.set_amount(50))?;
    show_step(rt, "mark 2", middle.set_mark(2, true))?;
    let mut top = BarLayer::new(rt.alloc(), middle)?;
    show_step(rt, "bar 2 with 3 on top", top.bar(2, 3))?;
    ask(rt, &top, 0, 1)?;
    ask(rt, &top, 0, 2)?;
    ask(rt, &top, 1, 3)?;
    ask(rt, &top, 2, 3)?;
    ask(rt, &top, 0, 4)
}

fn surcharge_on_top(rt: &HostRuntime) -> Result<(), WalkFault> {
    println!(rt; "A surcharge over bars over a surcharge over the tariff")?;
    let mut book = TariffBook::new(rt.alloc());
    show_step(
        rt,
        "load 5 pieces",
        book.load(morning_terms(), morning_pieces(rt.alloc())?),
    )?;
    let mut low = SurchargeLayer::new(book);
    show_step(rt, "set the amount below to 7", low.set_amount(7))?;
    show_step(rt, "mark 0 below", low.set_mark(0, true))?;
    let mut middle = BarLayer::new(rt.alloc(), low)?;
    show_step(rt, "bar 0 with 3", middle.bar(0, 3))?;
    let mut top = SurchargeLayer::new(middle);
    show_step(rt, "set the amount on top to 50", top.set_amount(50))?;
    show_step(rt, "mark 1 on top", top.set_mark(1, true))?;
    ask(rt, &top, 0, 1)?;
    ask(rt, &top, 0, 2)?;
    ask(rt, &top, 0, 3)
}

pub(crate) fn walk(rt: &HostRuntime) -> Result<(), WalkFault> {
    bars_on_top(rt)?;
    surcharge_on_top(rt)
}
