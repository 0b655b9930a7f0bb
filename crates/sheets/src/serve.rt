// One call for any call: on a sheet in whichever state, with the memory handed in.
ghost use Rattle.std.specs.Prelude.{◌≡◌, []};
ghost use Rattle.books.specs.Table.{Table};
ghost use Rattle.queue.specs.Waiting.{records};
ghost use Rattle.sheets.specs.Views.{open_view, memory};
ghost use Rattle.sheets.specs.Answers.{answer, take_answer, docket_told, docket_back};
ghost use Rattle.sheets.specs.declared.serve.Call.TheVariants.{OnOpen};
ghost use Rattle.sheets.specs.Served.{Served, Tells, sheet_view, records_after};

use crate::faults::*;
use crate::sheet::open::Taken;
use crate::sheet::*;
use books::book::CostBook;
use books::refusal::{Refusal, Refuses};
use queue::Queue;
use sheet_faults::*;
use sheet_register::request::Request;
use slips::slip::Slip;

// A sheet in whichever state.
#[derive(Drop)]
pub enum Sheet {
    Open(OpenSheet),
    Closed(ClosedSheet),
}

// The calls stand in enums, since the product names one call for any call, and lists of them.
// A call on an open sheet, with what it is handed besides marks and queue.
pub enum OpenCall {
    Post(Request),
    Take,
    Strike(Docket),
    Decline(Docket),
    Restore(usize),
    Close,
}

// Any call: one on an open sheet, or on a closed one to reopen it or to check a slip by a book.
pub enum Call<'a, B> {
    OnOpen(OpenCall),
    Reopen,
    Check(&'a B, &'a Slip),
}

pub enum Answer<'a, B> {
    Accepted,
    Given(Docket),
    Stale(Request),
    Refused(Refusal),
    // Refused, and the docket comes back.
    DocketRefused(Refusal, Docket),
    // The sheet, as it stands, does not allow the call, which comes back.
    NotAllowed(Call<'a, B>),
}

// The answer to a call that gives nothing but that it was accepted.
impl<'a, B, F: Refuses + Drop> From<Result<(), F>> for Answer<'a, B> {
    ghost from_gives = { λ r answered. Tells answered (answer F.Refuses.told r) [] };

    fn from(r: Result<(), F>) -> Self {
        match r {
            Ok(()) => Answer::Accepted,
            Err(fault) => Answer::Refused(fault.refusal()),
        }
    }
}

// The answer to a docket's call.
impl<'a, B> From<Result<(), DocketFault>> for Answer<'a, B> {
    ghost from_gives = { λ r answered. Tells answered (answer docket_told r) (docket_back r) };

    fn from(r: Result<(), DocketFault>) -> Self {
        match r {
            Ok(()) => Answer::Accepted,
            Err(HandedBack { value, cause }) => Answer::DocketRefused(cause.refusal(), value),
        }
    }
}

// The answer to taking.
impl<'a, B> From<Result<Taken, TakeFault>> for Answer<'a, B> {
    ghost from_gives = { λ r answered. Tells answered (take_answer r) [] };

    fn from(r: Result<Taken, TakeFault>) -> Self {
        match r {
            Ok(Taken::Given(docket)) => Answer::Given(docket),
            Ok(Taken::Stale(request)) => Answer::Stale(request),
            Err(fault) => Answer::Refused(fault.refusal()),
        }
    }
}

// A call on an open sheet.
fn serve_open<'a, B: CostBook>(
    mut sheet: OpenSheet,
    marks: &mut [u8],
    queue: &mut Queue<'_, Request>,
    call: OpenCall,
) -> (Sheet, Answer<'a, B>)
    ensures served { Served B.CostBook.means (open_view sheet) (memory marks.old queue.old) (OnOpen call) result.1
        (sheet_view result.0) (memory marks.new queue.new) }
    ensures records { records queue.new ≡ records_after (OnOpen call) result.1 queue.old }
{
    let answer = match call {
        OpenCall::Post(request) => sheet.post(marks, queue, request).into(),
        OpenCall::Take => sheet.take(marks, queue).into(),
        OpenCall::Strike(docket) => sheet.strike(marks, queue, docket).into(),
        OpenCall::Decline(docket) => sheet.decline(marks, queue, docket).into(),
        OpenCall::Restore(piece) => sheet.restore(marks, queue, piece).into(),
        OpenCall::Close => {
            return match sheet.close(marks, queue) {
                Ok(closed) => (Sheet::Closed(closed), Answer::Accepted),
                Err(HandedBack { value, cause }) => {
                    (Sheet::Open(value), Answer::Refused(cause.refusal()))
                }
            };
        }
    };
    (Sheet::Open(sheet), answer)
}

// One call on a sheet in whichever state: a move of a run, or, where the sheet does not allow it, no change. Marks and queue come apart, as the planner
// lends them: one struct would ask callers of this call for another type.
pub fn serve<'a, B: CostBook>(
    sheet: Sheet,
    marks: &mut [u8],
    queue: &mut Queue<'_, Request>,
    call: Call<'a, B>,
) -> (Sheet, Answer<'a, B>)
    ensures served { Served B.CostBook.means (sheet_view sheet) (memory marks.old queue.old) call.entry result.1
        (sheet_view result.0) (memory marks.new queue.new) }
    ensures records { records queue.new ≡ records_after call.entry result.1 queue.old }
{
    match (sheet, call) {
        // Handing on the pair that `serve_open` gives was tried: the borrow checker does not cover a match of which one arm is a call and the others pairs.
        (Sheet::Open(open), Call::OnOpen(call)) => {
            let (after, answer) = serve_open(open, marks, queue, call);
            (after, answer)
        }
        (Sheet::Closed(closed), Call::Reopen) => (Sheet::Open(closed.reopen()), Answer::Accepted),
        (Sheet::Closed(closed), Call::Check(book, slip)) => {
            let answer = closed.check(book, marks, slip).into();
            (Sheet::Closed(closed), answer)
        }
        (Sheet::Closed(closed), Call::OnOpen(call)) => (
            Sheet::Closed(closed),
            Answer::NotAllowed(Call::OnOpen(call)),
        ),
        (Sheet::Open(open), call) => (Sheet::Open(open), Answer::NotAllowed(call)),
    }
}
