// Whether the memory handed in agrees with what a sheet counts.
ghost use Rattle.std.specs.Prelude.{◌≡◌, ℕ, nat_lt};
ghost use Rattle.queue.specs.Waiting.{waiting};
ghost use Rattle.sheet_register.specs.Memory.{marked, each, marks_agree};
ghost use Rattle.sheets.specs.Marks.{mark_byte};

use crate::marks::*;
use queue::Queue;
use sheet_register::request::Request;

// How many pieces have this mark.
fn count_marked(marks: &[u8], mark: Mark) -> usize
    ensures { result ≡ marked (mark_byte mark) marks.now }
{
    let byte = u8::from(mark);
    // A sum over all marks, which has no branch for one: a filter has, and most calls on a sheet count two marks so.
    let mut n = 0;
    for m in marks {
        n += usize::from(*m == byte);
    }
    n
}

// Whether a byte is that of a mark.
fn is_mark(byte: u8) -> bool
    ensures { result ≡ nat_lt byte 3 }
{
    Mark::try_from(byte).is_ok()
}

// Whether each byte is that of a mark.
fn are_marks(bytes: &[u8]) -> bool
    ensures { result ≡ each (λ m. nat_lt m 3) bytes.now }
{
    bytes.iter().all(|byte| is_mark(*byte))
}

// Whether there is one mark for each piece, and as many of 1 and 2 as counted. The counts come apart: open
// and closed sheets are two types, and a struct of the counts of both would be made for each call.
#[tactic(auto, unfolding(sheet_register::specs::Memory::marks_agree))]
pub(crate) fn marks_agree(marks: &[u8], pieces: usize, taken: usize, struck: usize) -> bool
    ensures { (waiting : ℕ) → result ≡ marks_agree (record { pieces = pieces; taken = taken; struck = struck; waiting = waiting }) marks.now }
{
    marks.len() == pieces
        && are_marks(marks)
        && count_marked(marks, Mark::Taken) == taken
        && count_marked(marks, Mark::Struck) == struck
}

// Whether each waiting request names a piece.
pub(crate) fn are_named(queue: &Queue<'_, Request>, pieces: usize) -> bool
    ensures { result ≡ each (λ q. nat_lt q.piece pieces) (waiting queue.now) }
{
    let (first, rest) = queue.as_slices();
    first
        .iter()
        .chain(rest.iter())
        .all(|request| request.piece < pieces)
}
