// Runs a list of calls on a sheet.
#![tactic(auto)]

ghost use Rattle.std.specs.Prelude.{◌≡◌, [], vec_capacity, IfOk, IfErr};
ghost use Rattle.books.specs.Table.{Table};
ghost use Rattle.sheets.specs.Views.{memory};
ghost use Rattle.sheets.specs.Served.{sheet_view};
ghost use Rattle.sheet_runs.specs.Ran.{AllMade, NoneMade};

use books::book::CostBook;
use queue::Queue;
use sheet_register::law::runs_by_law;
use sheet_register::request::Request;
use sheets::serve::*;
use std::alloc::AllocFailed;
use std::collections::VecDeque;

// Makes all calls in their order, with marks and queue apart as for one call, and puts their answers behind those that are
// there. Refused, with the sheet, where there is no memory for the answers; no call is made then.
pub fn run_calls<'a, B: CostBook>(
    mut sheet: Sheet,
    marks: &mut [u8],
    queue: &mut Queue<'_, Request>,
    calls: &mut VecDeque<Call<'a, B>>,
    answers: &mut Vec<Answer<'a, B>>,
) -> Result<Sheet, AllocFailed<Sheet>>
    ensures made { IfOk result (λ s. AllMade B.CostBook.means (sheet_view sheet) (memory marks.old queue.old) calls.old.items calls.new.items
        answers.old.items answers.new.items (sheet_view s) (memory marks.new queue.new)) }
    ensures none_made { IfErr result (λ f. NoneMade sheet f.value (memory marks.old queue.old) (memory marks.new queue.new) calls.old.items calls.new.items
        answers.old.items answers.new.items (vec_capacity answers.old)) }
{
    runs_by_law();
    if answers.reserve(calls.len()).is_err() {
        return Err(AllocFailed { value: sheet });
    }
    // Not by `drain`, which would drop the calls that are left, and a call may hold a docket.
    while let Some(call) = calls.pop_front() {
        let (after, answer) = serve(sheet, marks, queue, call);
        sheet = after;
        answers.push_reserved(answer);
    }
    Ok(sheet)
}
