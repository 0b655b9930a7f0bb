// What stops the walkthrough: want of memory, output that is not taken, or a book that refuses lines that it should take. Each program has a fault of its
// own, made by `From`.
use books::fault::BookFault;
use std::alloc::{AllocError, AllocFailed};
use std::io;

#[derive(Debug, Drop)]
pub enum WalkFault {
    Memory,
    Output,
    Book,
}

impl From<AllocError> for WalkFault {
    fn from(_error: AllocError) -> WalkFault {
        WalkFault::Memory
    }
}

impl<T: Drop> From<AllocFailed<T>> for WalkFault {
    fn from(_refused: AllocFailed<T>) -> WalkFault {
        WalkFault::Memory
    }
}

impl From<io::Error> for WalkFault {
    fn from(_error: io::Error) -> WalkFault {
        WalkFault::Output
    }
}

impl From<BookFault> for WalkFault {
    fn from(_fault: BookFault) -> WalkFault {
        WalkFault::Book
    }
}
