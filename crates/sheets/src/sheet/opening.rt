ghost use Rattle.std.specs.Prelude.{◌≡◌, ◌&&◌, length, replicate, is_ok, IfOk, if◌then◌else◌, ◌==◌};
ghost use Rattle.books.specs.Table.{Table};
ghost use Rattle.queue.specs.Waiting.{waiting};
ghost use Rattle.sheet_register.specs.Memory.{free};
ghost use Rattle.sheet_register.specs.Calls.{nothing};
ghost use Rattle.sheet_register.specs.Register.{opening};
ghost use Rattle.sheet_register.specs.Law.{Kept, Law, NothingLeft};
ghost use Rattle.sheets.specs.Views.{open_view, state};

use super::OpenSheet;
use crate::marks::Mark;
use books::book::CostBook;
use queue::Queue;
use sheet_faults::OpenFault;
use sheet_register::law::runs_by_law;
use sheet_register::request::Request;

impl OpenSheet {
    // Opens a sheet for the pieces of a book, all of them free. Along every run of calls from here the sheet and its memory are as the register says.
    pub fn open<B: CostBook>(
        number: u32,
        book: &B,
        marks: &mut [u8],
        queue: &Queue<'_, Request>,
    ) -> Result<OpenSheet, OpenFault>
        ensures accepts { is_ok result ≡ (length marks.old == (B.CostBook.means book.now).count && nothing (waiting queue.now)) }
        ensures marks { marks.new ≡ (if is_ok result then replicate (B.CostBook.means book.now).count free else marks.old) }
        ensures kept { IfOk result (λ s. Kept (opening number (B.CostBook.means book.now).count) (state (open_view s) marks.new (waiting queue.now))) }
        ensures law { IfOk result (λ s. Law (opening number (B.CostBook.means book.now).count) (state (open_view s) marks.new (waiting queue.now))) }
        ensures closes { IfOk result (λ s. NothingLeft (state (open_view s) marks.new (waiting queue.now))) }
    {
        let pieces = book.count();
        if marks.len() != pieces || !queue.is_empty() {
            return Err(OpenFault::Disagrees);
        }
        marks.fill(Mark::Free.into());
        runs_by_law();
        Ok(OpenSheet {
            number,
            pieces,
            taken: 0,
            struck: 0,
            waiting: 0,
        })
    }
}
