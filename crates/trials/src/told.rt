// What the tests expect, and every refusal with its number and added value.
use books::fault::BookFault;
use books::refusal;
use books::refusal::{Refusal, Refuses};
use std::alloc::{AllocError, Global};

// A refusal that names nothing.
pub(crate) fn plain(number: u8) -> Option<Refusal> {
    Some(refusal::plain(number))
}

// A refusal that names a line, a term or a piece.
pub(crate) fn naming(number: u8, named: usize) -> Option<Refusal> {
    Some(refusal::naming(number, named))
}

// How an answer was refused; `None` where it was accepted.
pub(crate) fn refused<T: Drop>(answer: Result<T, BookFault>) -> Option<Refusal> {
    answer.err().map(|fault| fault.refusal())
}

// How these rows are refused by what loads them.
pub(crate) fn loaded<T: Copy, F: FnOnce(Vec<T>) -> Result<(), BookFault>>(
    heap: Global,
    rows: &[T],
    load: F,
) -> Result<Option<Refusal>, AllocError>
    requires { F.IsAlwaysCallable load }
{
    Ok(refused(load(Vec::from_slice(heap, rows)?)))
}

#[test]
fn every_fault_has_its_number_and_added_value(rt: HostRuntime) {
    let told = [
        (BookFault::TooManyPieces, plain(1)),
        (BookFault::TooManyLines, plain(2)),
        (BookFault::LineOutside(7), naming(3, 7)),
        (BookFault::LineOrder(7), naming(4, 7)),
        (BookFault::CostTooHigh(7), naming(5, 7)),
        (BookFault::AmountTooHigh, plain(5)),
        (BookFault::TermOutside(3), naming(6, 3)),
        (BookFault::RecordOutside(0), naming(7, 0)),
        (BookFault::PieceOutside(256), naming(8, 256)),
        (BookFault::EqualPieces(9), naming(9, 9)),
        (BookFault::BarsFull, plain(10)),
        (BookFault::NoMemory, plain(0)),
    ];
    for (fault, refusal) in told {
        assert_eq!(rt; Some(fault.refusal()), refusal);
    }
}
