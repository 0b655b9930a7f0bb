// The calls of a sheet as a planner's program makes them. The edits beside this crate turn them into programs that must not be: that drop, copy or
// forge a docket, spend it twice, copy or forge a sheet, check on an open sheet or post to a closed one. The checker refuses each.
#![tactic(auto)]

use books::book::CostBook;
use queue::Queue;
use sheet_faults::*;
use sheet_register::request::Request;
use sheets::faults::*;
use sheets::sheet::open::Taken;
use sheets::sheet::*;
use slips::slip::Slip;

fn post_one(
    open: &mut OpenSheet,
    marks: &[u8],
    queue: &mut Queue<'_, Request>,
    request: Request,
) -> Result<(), PostFault> {
    open.post(marks, queue, request)
}

fn strike_one(
    sheet: &mut OpenSheet,
    marks: &mut [u8],
    queue: &Queue<'_, Request>,
    docket: Docket,
) -> Result<(), DocketFault> {
    sheet.strike(marks, queue, docket)
}

// Takes the oldest request; a docket goes on to be struck.
fn strike_oldest(
    sheet: &mut OpenSheet,
    marks: &mut [u8],
    queue: &mut Queue<'_, Request>,
) -> Result<(), DocketFault> {
    match sheet.take(marks, queue) {
        Ok(Taken::Given(docket)) => strike_one(sheet, marks, queue, docket),
        // Two arms: with one pattern for both the checker takes the docket of a `Taken` for dropped.
        Ok(Taken::Stale(_)) => Ok(()),
        Err(_) => Ok(()),
    }
}

fn close_day(
    sheet: OpenSheet,
    marks: &[u8],
    queue: &Queue<'_, Request>,
) -> Result<ClosedSheet, CloseFault> {
    sheet.close(marks, queue)
}

fn check_day<B: CostBook>(
    sheet: &ClosedSheet,
    book: &B,
    marks: &[u8],
    slip: &Slip,
) -> Result<(), CheckFault> {
    sheet.check(book, marks, slip)
}
