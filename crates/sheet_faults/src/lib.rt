// What the calls on a sheet refuse, and how it is told: by a number and by what it names.
#![tactic(auto)]

ghost use Rattle.sheet_faults.specs.Faults.{open_refusal, post_refusal, take_refusal, docket_refusal, restore_refusal, close_refusal, check_refusal};

use books::refusal::*;
use slips::fault::SlipFault;

// Each call has its own enum, with `Disagrees` in each: one match names each cause of a call, and no cause that it cannot have. A generic enum around
// the causes would nest each such match.
#[derive(Clone, Copy, PartialEq, Eq, Debug)]
pub enum OpenFault {
    // There is not one mark for each piece of the book, or the queue is not empty.
    Disagrees,
}

#[derive(Clone, Copy, PartialEq, Eq, Debug)]
pub enum PostFault {
    // The memory handed in does not agree with the sheet.
    Disagrees,
    // The request's piece is not below the count.
    PieceOutside(usize),
    QueueFull,
}

#[derive(Clone, Copy, PartialEq, Eq, Debug)]
pub enum TakeFault {
    Disagrees,
    NothingWaits,
}

#[derive(Clone, Copy, PartialEq, Eq, Debug)]
pub enum DocketCause {
    Disagrees,
    // The docket is of another sheet number, its piece is not below the count, or the piece's mark is not 1.
    NotOut,
}

#[derive(Clone, Copy, PartialEq, Eq, Debug)]
pub enum RestoreFault {
    Disagrees,
    PieceOutside(usize),
    NotStruck(usize),
}

#[derive(Clone, Copy, PartialEq, Eq, Debug)]
pub enum CloseCause {
    Disagrees,
    // So many requests wait, and so many dockets are out.
    Unsettled(usize, usize),
}

#[derive(Clone, Copy, PartialEq, Eq, Debug)]
pub enum CheckFault {
    // The marks do not agree with the sheet, or the book is of another count.
    Disagrees,
    // The slip's first test that fails.
    Slip(SlipFault),
}

impl Refuses for OpenFault {
    ghost told = { open_refusal };

    fn refusal(&self) -> Refusal {
        match *self {
            OpenFault::Disagrees => plain(11),
        }
    }
}

impl Refuses for PostFault {
    ghost told = { post_refusal };

    fn refusal(&self) -> Refusal {
        match *self {
            PostFault::Disagrees => plain(11),
            PostFault::PieceOutside(piece) => naming(8, piece),
            PostFault::QueueFull => plain(12),
        }
    }
}

impl Refuses for TakeFault {
    ghost told = { take_refusal };

    fn refusal(&self) -> Refusal {
        match *self {
            TakeFault::Disagrees => plain(11),
            TakeFault::NothingWaits => plain(13),
        }
    }
}

impl Refuses for DocketCause {
    ghost told = { docket_refusal };

    fn refusal(&self) -> Refusal {
        match *self {
            DocketCause::Disagrees => plain(11),
            DocketCause::NotOut => plain(14),
        }
    }
}

impl Refuses for RestoreFault {
    ghost told = { restore_refusal };

    fn refusal(&self) -> Refusal {
        match *self {
            RestoreFault::Disagrees => plain(11),
            RestoreFault::PieceOutside(piece) => naming(8, piece),
            RestoreFault::NotStruck(piece) => naming(15, piece),
        }
    }
}

impl Refuses for CloseCause {
    ghost told = { close_refusal };

    fn refusal(&self) -> Refusal {
        match *self {
            CloseCause::Disagrees => plain(11),
            CloseCause::Unsettled(waiting, out) => naming_two(16, waiting, out),
        }
    }
}

impl Refuses for CheckFault {
    ghost told = { check_refusal };

    fn refusal(&self) -> Refusal {
        match *self {
            CheckFault::Disagrees => plain(11),
            CheckFault::Slip(fault) => fault.refusal(),
        }
    }
}
