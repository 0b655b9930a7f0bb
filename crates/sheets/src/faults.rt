// Refusals that hand back what they were handed: a docket, or an open sheet.
use crate::sheet::{Docket, OpenSheet};
use sheet_faults::{CloseCause, DocketCause};

// What a refused call was handed, and why it was refused. It may be dropped where both may.
#[derive(Drop)]
pub struct HandedBack<T, C> {
    pub value: T,
    pub cause: C,
}

// A docket that was neither struck nor declined, and why.
pub type DocketFault = HandedBack<Docket, DocketCause>;

// A sheet that stays open, and why.
pub type CloseFault = HandedBack<OpenSheet, CloseCause>;
