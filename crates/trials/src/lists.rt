// List books at their limits, and every way in which a list is refused.
use crate::told::*;
use books::book::CostBook;
use books::fault::BookFault;
use list_book::line::Line;
use list_book::list::ListBook;
use std::alloc::{AllocError, Global};
use std::test::Fail;

// `count` lines for 256 pieces, by lower, then higher piece; the cost of a line is its number.
pub(crate) fn many_lines(heap: Global, count: u32) -> Result<Vec<Line>, AllocError> {
    (0..256)
        .flat_map(|lower| (lower + 1..256).map(move |higher| (lower, higher)))
        .zip(1..=count)
        .map(|((lower, higher), cost)| Line::new(lower, higher, cost))
        .collect(heap)
}

// 256 pieces, of which the first 255 lines pair piece 0.
pub(crate) fn book_of_255(heap: Global) -> Result<ListBook, Fail> {
    let mut book = ListBook::new(heap);
    book.load(256, many_lines(heap, 255)?)?;
    Ok(book)
}

#[test]
fn a_new_list_has_no_piece(rt: HostRuntime) {
    let book = ListBook::new(rt.alloc());
    assert_eq!(rt; book.count(), 0);
    assert_eq!(rt; book.cost(0, 1), Err(BookFault::PieceOutside(0)));
}

#[test]
fn a_pair_has_the_cost_of_its_line(rt: HostRuntime) -> Result<(), Fail> {
    let mut book = ListBook::new(rt.alloc());
    let lines = [
        Line::new(0, 1, 1),
        Line::new(0, 2, 4),
        Line::new(1, 3, 4),
        Line::new(2, 3, 10),
    ];
    assert_eq!(rt;
        refused(book.load(4, Vec::from_slice(rt.alloc(), &lines)?)),
        None
    );
    assert_eq!(rt; book.count(), 4);
    let answers = [
        (0, 1, Ok(Some(1))),
        (1, 0, Ok(Some(1))),
        (0, 2, Ok(Some(4))),
        (3, 1, Ok(Some(4))),
        (2, 3, Ok(Some(10))),
        (0, 3, Ok(None)),
        (1, 2, Ok(None)),
        (3, 3, Ok(None)),
        (4, 0, Err(BookFault::PieceOutside(4))),
        (0, 5, Err(BookFault::PieceOutside(5))),
        (6, 5, Err(BookFault::PieceOutside(6))),
    ];
    for (i, j, answer) in answers {
        assert_eq!(rt; book.cost(i, j), answer);
    }
    Ok(())
}

#[test]
fn pieces_and_lines_at_their_limits(rt: HostRuntime) -> Result<(), Fail> {
    assert_eq!(rt;
        loaded(
            rt.alloc(),
            &[Line::new(254, 255, 0)],
            |lines| ListBook::new(rt.alloc()).load(256, lines)
        )?,
        None
    );
    assert_eq!(rt;
        loaded(
            rt.alloc(),
            &[Line::new(254, 255, 0)],
            |lines| ListBook::new(rt.alloc()).load(257, lines)
        )?,
        plain(1)
    );
    let mut book = ListBook::new(rt.alloc());
    assert_eq!(rt;
        refused(book.load(256, many_lines(rt.alloc(), 4096)?)),
        None
    );
    assert_eq!(rt; book.cost(0, 1), Ok(Some(1)));
    assert_eq!(rt; book.cost(255, 0), Ok(Some(255)));
    assert_eq!(rt; book.cost(1, 2), Ok(Some(256)));
    // Rows of 255, 254, .. lines: 16 rows have 3,960, so line 4,096 is the 136th of piece 16, with piece 152.
    assert_eq!(rt; book.cost(16, 152), Ok(Some(4096)));
    assert_eq!(rt; book.cost(16, 153), Ok(None));
    assert_eq!(rt;
        refused(book.load(256, many_lines(rt.alloc(), 4097)?)),
        plain(2)
    );
    assert_eq!(rt; book.cost(16, 153), Ok(None));
    Ok(())
}

#[test]
fn a_line_is_refused_with_its_number(rt: HostRuntime) -> Result<(), Fail> {
    let told = [
        (Line::new(0, 1, 0), Line::new(2, 2, 0), naming(3, 2)),
        (Line::new(2, 1, 0), Line::new(2, 3, 0), naming(3, 1)),
        (Line::new(0, 1, 0), Line::new(0, 4, 0), naming(3, 2)),
        (Line::new(0, 1, 0), Line::new(0, 1, 0), naming(4, 2)),
        (Line::new(0, 2, 0), Line::new(0, 1, 0), naming(4, 2)),
        (Line::new(1, 2, 0), Line::new(0, 3, 0), naming(4, 2)),
        (Line::new(0, 1, 0), Line::new(0, 2, 1_000_000), None),
        (Line::new(0, 1, 0), Line::new(0, 2, 1_000_001), naming(5, 2)),
        // Of two faults: on one line the lowest number, of two lines the lowest.
        (Line::new(0, 1, 0), Line::new(1, 0, 1_000_001), naming(3, 2)),
        (Line::new(0, 2, 0), Line::new(0, 1, 1_000_001), naming(4, 2)),
        (Line::new(0, 1, 1_000_001), Line::new(1, 0, 0), naming(5, 1)),
    ];
    for (first, second, refusal) in told {
        assert_eq!(rt;
            loaded(
                rt.alloc(),
                &[first, second],
                |lines| ListBook::new(rt.alloc()).load(4, lines)
            )?,
            refusal
        );
    }
    Ok(())
}

#[test]
fn sizes_are_told_before_lines(rt: HostRuntime) -> Result<(), Fail> {
    let heap = rt.alloc();
    assert_eq!(rt;
        loaded(heap, &[], |lines| ListBook::new(heap).load(0, lines))?,
        None
    );
    assert_eq!(rt;
        loaded(
            heap,
            &[Line::new(0, 1, 0)],
            |lines| ListBook::new(heap).load(0, lines)
        )?,
        naming(3, 1)
    );
    assert_eq!(rt;
        loaded(
            heap,
            &[Line::new(1, 0, 0)],
            |lines| ListBook::new(heap).load(257, lines)
        )?,
        plain(1)
    );
    let mut book = ListBook::new(heap);
    assert_eq!(rt; refused(book.load(257, many_lines(heap, 4097)?)), plain(1));
    assert_eq!(rt; refused(book.load(1, many_lines(heap, 4097)?)), plain(2));
    Ok(())
}

#[test]
fn a_refused_list_leaves_the_book(rt: HostRuntime) -> Result<(), Fail> {
    let heap = rt.alloc();
    let mut book = ListBook::new(heap);
    assert_eq!(rt;
        refused(book.load(3, Vec::from_slice(heap, &[Line::new(0, 1, 7)])?)),
        None
    );
    assert_eq!(rt;
        refused(book.load(2, Vec::from_slice(heap, &[Line::new(0, 2, 8)])?)),
        naming(3, 1)
    );
    assert_eq!(rt; book.count(), 3);
    assert_eq!(rt; book.cost(0, 1), Ok(Some(7)));
    assert_eq!(rt; refused(book.load(2, Vec::new(heap))), None);
    assert_eq!(rt; book.count(), 2);
    assert_eq!(rt; book.cost(0, 1), Ok(None));
    Ok(())
}
