// Slips are checked: a stranger's prices for a pairing, and a cut that shows that there is none.
use crate::fault::*;
use crate::lists::*;
use crate::show::*;
use list_book::line::Line;
use list_book::list::ListBook;
use slip_check::check::check;
use slips::slip::*;
use std::alloc::{AllocError, Global};

fn piece_record(mate: u16, price: i64, group: u16) -> PieceRecord {
    PieceRecord { mate, price, group }
}

// The group records of a slip whose groups have this price and no parent.
fn group_records(heap: Global, count: usize, price: i64) -> Result<Vec<GroupRecord>, AllocError> {
    let mut groups = vec![in heap; GroupRecord { price, parent: 0 }; count]?;
    groups.resize(GROUPS, BLANK_GROUP)?;
    Ok(groups)
}

// Prints a slip's verdict.
fn judge(
    rt: &HostRuntime,
    step: &str,
    book: &ListBook,
    marks: &[u8],
    slip: &Slip,
) -> Result<(), WalkFault> {
    show(rt, &step, check(book, marks, slip).map(|_| "passes"))
}

fn book_of(heap: Global, count: usize, lines: Vec<Line>) -> Result<ListBook, WalkFault> {
    let mut book = ListBook::new(heap);
    book.load(count, lines)?;
    Ok(book)
}

fn four_pieces(rt: &HostRuntime) -> Result<(), WalkFault> {
    println!(rt; "Slips for the list of four pieces")?;
    let heap = rt.alloc();
    let book = book_of(heap, 4, morning_lines(heap)?)?;
    let pieces = vec![in heap;
        piece_record(2, 1, 0),
        piece_record(3, 1, 0),
        piece_record(0, 7, 0),
        piece_record(1, 7, 0),
    ]?;
    let mut slip = Slip {
        kind: Kind::Priced.into(),
        total: 8,
        count: 0,
        pieces,
        groups: group_records(heap, 0, 0)?,
    };
    judge(
        rt,
        "0 with 2 and 1 with 3, prices 1, 1, 7, 7, total 8",
        &book,
        &[0; 4],
        &slip,
    )?;
    slip.total = 11;
    judge(rt, "the same with total 11", &book, &[0; 4], &slip)?;
    judge(
        rt,
        "the same with piece 3 struck",
        &book,
        &[0, 0, 0, 2],
        &slip,
    )?;
    slip.kind = 3;
    judge(rt, "the same with kind 3", &book, &[0; 4], &slip)
}

// Two rings of three pieces at 2 for each two, joined by 2 with 3 at 20.
fn ring_lines(heap: Global) -> Result<Vec<Line>, AllocError> {
    let lines = vec![in heap;
        Line::new(0, 1, 2),
        Line::new(0, 2, 2),
        Line::new(1, 2, 2),
        Line::new(2, 3, 20),
        Line::new(3, 4, 2),
        Line::new(3, 5, 2),
        Line::new(4, 5, 2),
    ]?;
    Ok(lines)
}

// Mates 0 with 1, 2 with 3 and 4 with 5 at prices of 2, each ring in a group of its own or in none.
fn ring_slip(heap: Global, grouped: bool) -> Result<Slip, AllocError> {
    let one = u16::from(grouped);
    let two = 2 * one;
    let pieces = vec![in heap;
        piece_record(1, 2, one),
        piece_record(0, 2, one),
        piece_record(3, 2, one),
        piece_record(2, 2, two),
        piece_record(5, 2, two),
        piece_record(4, 2, two),
    ]?;
    Ok(Slip {
        kind: Kind::Priced.into(),
        total: 24,
        count: two,
        pieces,
        groups: group_records(heap, usize::from(two), 18)?,
    })
}

fn two_rings(rt: &HostRuntime) -> Result<(), WalkFault> {
    println!(rt; "Slips for two rings of three pieces")?;
    let heap = rt.alloc();
    let book = book_of(heap, 6, ring_lines(heap)?)?;
    judge(
        rt,
        "all prices 2, two groups at 18, total 24",
        &book,
        &[0; 6],
        &ring_slip(heap, true)?,
    )?;
    judge(
        rt,
        "the same without groups",
        &book,
        &[0; 6],
        &ring_slip(heap, false)?,
    )
}

// Piece 0 goes with each of 1, 2 and 3; these have the part numbers that are given.
fn star_slip(heap: Global, parts: [u16; 4]) -> Result<Slip, AllocError> {
    let pieces = Vec::from_slice(heap, &parts.map(|part| piece_record(NO_MATE, 0, part)))?;
    Ok(Slip {
        kind: Kind::Gap.into(),
        total: 0,
        count: 0,
        pieces,
        groups: group_records(heap, 0, 0)?,
    })
}

fn star(rt: &HostRuntime) -> Result<(), WalkFault> {
    println!(rt; "Slips for a star of four pieces, which has no pairing")?;
    let heap = rt.alloc();
    let lines = vec![in heap; Line::new(0, 1, 5), Line::new(0, 2, 5), Line::new(0, 3, 5)]?;
    let book = book_of(heap, 4, lines)?;
    judge(
        rt,
        "piece 0 cut, three parts",
        &book,
        &[0; 4],
        &star_slip(heap, [0, 1, 2, 3])?,
    )?;
    judge(
        rt,
        "nothing cut, one part",
        &book,
        &[0; 4],
        &star_slip(heap, [1, 1, 1, 1])?,
    )
}

pub(crate) fn walk(rt: &HostRuntime) -> Result<(), WalkFault> {
    four_pieces(rt)?;
    two_rings(rt)?;
    star(rt)
}
