// The morning's list is loaded and asked, and faulty lists are refused.
use crate::fault::*;
use crate::show::*;
use list_book::line::Line;
use list_book::list::ListBook;
use std::alloc::{AllocError, Global};

// Four pieces, of which four pairs may be worked.
pub(crate) fn morning_lines(heap: Global) -> Result<Vec<Line>, AllocError> {
    let lines = vec![in heap;
        Line::new(0, 1, 1),
        Line::new(0, 2, 4),
        Line::new(1, 3, 4),
        Line::new(2, 3, 10),
    ]?;
    Ok(lines)
}

// The first of `count` pairs of 256 pieces, by lower, then higher piece: a list of many lines. The tests of books have such a chain with other costs;
// a crate for the two would be longer than they are.
pub(crate) fn long_lines(heap: Global, count: usize) -> Result<Vec<Line>, AllocError> {
    (0..256)
        .flat_map(|lower| (lower + 1..256).map(move |higher| Line::new(lower, higher, 5)))
        .take(count)
        .collect(heap)
}

fn refuse_lists(rt: &HostRuntime, book: &mut ListBook) -> Result<(), WalkFault> {
    let heap = rt.alloc();
    let none = Vec::new(heap);
    show_step(rt, "load 257 pieces", book.load(257, none))?;
    let long = long_lines(heap, 4097)?;
    show_step(rt, "load 4,097 lines", book.load(256, long))?;
    let turned = vec![in heap; Line::new(0, 1, 1), Line::new(2, 0, 4), Line::new(0, 0, 0)]?;
    show_step(rt, "load a line 2 0", book.load(4, turned))?;
    let twice = vec![in heap; Line::new(0, 1, 1), Line::new(0, 1, 2)]?;
    show_step(rt, "load a line twice", book.load(4, twice))?;
    let dear = vec![in heap; Line::new(0, 1, 1_000_000), Line::new(0, 2, 1_000_001)]?;
    show_step(rt, "load a cost of 1,000,001", book.load(4, dear))
}

pub(crate) fn walk(rt: &HostRuntime) -> Result<(), WalkFault> {
    println!(rt; "A list of four pieces")?;
    let mut book = ListBook::new(rt.alloc());
    ask(rt, &book, 0, 1)?;
    show_step(
        rt,
        "load 4 pieces, 4 lines",
        book.load(4, morning_lines(rt.alloc())?),
    )?;
    ask(rt, &book, 0, 1)?;
    ask(rt, &book, 3, 2)?;
    ask(rt, &book, 1, 2)?;
    ask(rt, &book, 2, 2)?;
    ask(rt, &book, 3, 4)?;
    ask(rt, &book, 9, 4)?;
    println!(rt; "Faulty lists")?;
    refuse_lists(rt, &mut book)?;
    println!(rt; "The list is as it was")?;
    ask(rt, &book, 0, 1)
}
