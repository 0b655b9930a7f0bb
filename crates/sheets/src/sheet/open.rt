// The calls on an open sheet.
ghost use Rattle.std.specs.Prelude.{◌≡◌, ◌<◌, true, ◌&&◌, ◌==◌, length, is_ok, IfOk, IfErr, OnOk, OnErr, if◌then◌else◌, nat_lt, slice_set};
ghost use Rattle.queue.specs.Waiting.{waiting, records, free_place};
ghost use Rattle.sheet_register.specs.Memory.{mark as mark_of, agrees};
ghost use Rattle.sheet_register.specs.Calls.{post, take, strike, decline, restore, close, is_out, settled, refused, disagreed};
ghost use Rattle.sheet_register.specs.Runs.{Did};
ghost use Rattle.sheet_register.specs.Law.{Settled};
ghost use Rattle.sheet_faults.specs.Faults.{post_refusal, restore_refusal};
ghost use Rattle.sheets.specs.Marks.{mark_byte};
ghost use Rattle.sheets.specs.Views.{docket_view, open_view, one_less, memory};
ghost use Rattle.sheets.specs.Answers.{answer, take_answer, docket_told, close_answer, left_by};

use super::{ClosedSheet, Docket, OpenSheet};
use crate::faults::*;
use crate::marks::*;
use crate::memory::*;
use queue::Queue;
use sheet_faults::*;
use sheet_register::request::Request;

// What became of the oldest request: a docket, or the request itself where its piece is not free any more. An accepted call gives either, so neither
// is an error.
pub enum Taken {
    Given(Docket),
    Stale(Request),
}

// Whether a number is that of a piece with this mark.
fn has_mark(marks: &[u8], piece: usize, mark: Mark) -> bool
    ensures { result ≡ (nat_lt piece (length marks.now) && mark_of marks.now piece == mark_byte mark) }
{
    let byte = u8::from(mark);
    marks.get(piece).is_some_and(|m| *m == byte)
}

// Writes the mark of a piece.
fn set_mark(marks: &mut [u8], piece: usize, mark: Mark)
    requires { piece < length marks.old }
    ensures { marks.new ≡ slice_set marks.old piece (mark_byte mark) }
{
    marks[piece] = mark.into();
}

// Each call is lent marks and queue apart, and each for writing only where the call writes it: one struct of both would ask for writing of all.
// Each call tests first that they agree, and refuses in its own fault: one function for that would need a conversion to each of them, to save a line.
impl OpenSheet {
    // Whether marks and queue agree with what the sheet counts.
    #[tactic(auto, unfolding(sheet_register::specs::Memory::agrees))]
    fn agrees(&self, marks: &[u8], queue: &Queue<'_, Request>) -> bool
        ensures { result ≡ agrees (open_view self.now).counts marks.now (waiting queue.now) }
    {
        marks_agree(marks, self.pieces, self.taken, self.struck)
            && queue.len() == self.waiting
            && are_named(queue, self.pieces)
    }

    // Puts a request last.
    pub fn post(
        &mut self,
        marks: &[u8],
        queue: &mut Queue<'_, Request>,
        request: Request,
    ) -> Result<(), PostFault>
        ensures did { Did (post request) (open_view self.old) (memory marks.now queue.old) (answer post_refusal result)
            (open_view self.new) (memory marks.now queue.new) }
        ensures records { records queue.new ≡ (if is_ok result then slice_set (records queue.old) (free_place queue.old) request else records queue.old) }
    {
        if !self.agrees(marks, queue) {
            return Err(PostFault::Disagrees);
        }
        if request.piece >= self.pieces {
            return Err(PostFault::PieceOutside(request.piece));
        }
        // No `From`, which would tie the faults of sheets to the queue for one call.
        queue.push(request).map_err(|_| PostFault::QueueFull)?;
        self.waiting = queue.len();
        Ok(())
    }

    // Takes the oldest request: its piece gets mark 1 and its docket is given, where the piece is free.
    pub fn take(
        &mut self,
        marks: &mut [u8],
        queue: &mut Queue<'_, Request>,
    ) -> Result<Taken, TakeFault>
        ensures did { Did take (open_view self.old) (memory marks.old queue.old) (take_answer result) (open_view self.new) (memory marks.new queue.new) }
        ensures records { records queue.new ≡ records queue.old }
    {
        if !self.agrees(marks, queue) {
            return Err(TakeFault::Disagrees);
        }
        let Some(request) = queue.pop() else {
            return Err(TakeFault::NothingWaits);
        };
        self.waiting = queue.len();
        let piece = request.piece;
        if !has_mark(marks, piece, Mark::Free) {
            return Ok(Taken::Stale(request));
        }
        set_mark(marks, piece, Mark::Taken);
        self.taken += 1;
        Ok(Taken::Given(Docket {
            sheet: self.number,
            piece,
        }))
    }

    // Whether a docket is of this sheet, and its piece has mark 1.
    fn is_out(&self, marks: &[u8], docket: &Docket) -> bool
        ensures { result ≡ is_out self.now.number marks.now (docket_view docket.now) }
    {
        docket.sheet == self.number && has_mark(marks, docket.piece, Mark::Taken)
    }

    // Takes a docket apart where it is out, and gives its piece.
    fn spend(
        &mut self,
        marks: &[u8],
        queue: &Queue<'_, Request>,
        docket: Docket,
    ) -> Result<usize, DocketFault>
        ensures agrees { OnOk result (agrees (open_view self.old).counts marks.now (waiting queue.now) ≡ true) }
        ensures out { OnOk result (is_out self.old.number marks.now (docket_view docket) ≡ true) }
        ensures piece { IfOk result (λ piece. piece ≡ docket.piece) }
        ensures inside { IfOk result (λ piece. piece < length marks.now) }
        ensures spent { OnOk result (open_view self.new ≡ one_less (open_view self.old)) }

        ensures refused { IfErr result (λ f. refused (docket_told f)
            ≡ (if agrees (open_view self.old).counts marks.now (waiting queue.now)
            then settled self.old.number marks.now (docket_view docket) else disagreed)) }
        ensures back { IfErr result (λ f. f.value ≡ docket) }
        ensures err { OnErr result (open_view self.new ≡ open_view self.old) }
    {
        if !self.agrees(marks, queue) {
            return Err(HandedBack {
                value: docket,
                cause: DocketCause::Disagrees,
            });
        }
        if !self.is_out(marks, &docket) {
            return Err(HandedBack {
                value: docket,
                cause: DocketCause::NotOut,
            });
        }
        let Docket { sheet: _, piece } = docket;
        self.taken -= 1;
        Ok(piece)
    }

    // Spends a docket: its piece is struck. The product names two calls that do so, this and the next.
    pub fn strike(
        &mut self,
        marks: &mut [u8],
        queue: &Queue<'_, Request>,
        docket: Docket,
    ) -> Result<(), DocketFault>
        ensures did { Did (strike (docket_view docket)) (open_view self.old) (memory marks.old queue.now) (answer docket_told result)
            (open_view self.new) (memory marks.new queue.now) }
        ensures back { IfErr result (λ f. f.value ≡ docket) }
    {
        let piece = self.spend(marks, queue, docket)?;
        set_mark(marks, piece, Mark::Struck);
        self.struck += 1;
        Ok(())
    }

    // Spends a docket: its piece is free again.
    pub fn decline(
        &mut self,
        marks: &mut [u8],
        queue: &Queue<'_, Request>,
        docket: Docket,
    ) -> Result<(), DocketFault>
        ensures did { Did (decline (docket_view docket)) (open_view self.old) (memory marks.old queue.now) (answer docket_told result)
            (open_view self.new) (memory marks.new queue.now) }
        ensures back { IfErr result (λ f. f.value ≡ docket) }
    {
        let piece = self.spend(marks, queue, docket)?;
        set_mark(marks, piece, Mark::Free);
        Ok(())
    }

    // Makes a struck piece free again.
    pub fn restore(
        &mut self,
        marks: &mut [u8],
        queue: &Queue<'_, Request>,
        piece: usize,
    ) -> Result<(), RestoreFault>
        ensures did { Did (restore piece) (open_view self.old) (memory marks.old queue.now) (answer restore_refusal result)
            (open_view self.new) (memory marks.new queue.now) }
    {
        if !self.agrees(marks, queue) {
            return Err(RestoreFault::Disagrees);
        }
        if piece >= marks.len() {
            return Err(RestoreFault::PieceOutside(piece));
        }
        if !has_mark(marks, piece, Mark::Struck) {
            return Err(RestoreFault::NotStruck(piece));
        }
        set_mark(marks, piece, Mark::Free);
        self.struck -= 1;
        Ok(())
    }

    // Closes the sheet, where no request waits and no docket is out; a refusal hands the open sheet back.
    pub fn close(self, marks: &[u8], queue: &Queue<'_, Request>) -> Result<ClosedSheet, CloseFault>
        ensures did { Did close (open_view self) (memory marks.now queue.now) (close_answer result) (left_by result) (memory marks.now queue.now) }
        ensures settled { OnOk result (Settled marks.now (waiting queue.now)) }
    {
        if !self.agrees(marks, queue) {
            let cause = CloseCause::Disagrees;
            return Err(HandedBack { value: self, cause });
        }
        if self.waiting != 0 || self.taken != 0 {
            let cause = CloseCause::Unsettled(self.waiting, self.taken);
            return Err(HandedBack { value: self, cause });
        }
        Ok(ClosedSheet {
            number: self.number,
            pieces: self.pieces,
            struck: self.struck,
        })
    }
}
