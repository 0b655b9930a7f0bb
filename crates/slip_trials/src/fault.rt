// What stops the trials: want of memory, output that is not taken, or a book that refuses its lines. Each program has a fault of its own, made by `From`.
use books::fault::BookFault;
use std::alloc::{AllocError, AllocFailed};
use std::io;

#[derive(Debug, Drop)]
pub enum TrialFault {
    Memory,
    Output,
    Book,
}

impl From<AllocError> for TrialFault {
    fn from(_error: AllocError) -> TrialFault {
        TrialFault::Memory
    }
}

impl<T: Drop> From<AllocFailed<T>> for TrialFault {
    fn from(_refused: AllocFailed<T>) -> TrialFault {
        TrialFault::Memory
    }
}

impl From<io::Error> for TrialFault {
    fn from(_error: io::Error) -> TrialFault {
        TrialFault::Output
    }
}

impl From<BookFault> for TrialFault {
    fn from(_fault: BookFault) -> TrialFault {
        TrialFault::Book
    }
}
