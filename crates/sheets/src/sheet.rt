// Open and closed sheets, and the dockets of taken withdrawals. A sheet is a few numbers; its marks and its queue are lent to each call.
mod closed;
pub mod open;
mod opening;

// A withdrawal that was taken on the sheet of this number. It is neither copied nor dropped: to strike or to decline it is the only way to be rid of it.
pub struct Docket {
    sheet: u32,
    piece: usize,
}

#[derive(Drop)]
pub struct OpenSheet {
    number: u32,
    pieces: usize,
    // How many marks are 1, how many are 2, and how many requests wait.
    taken: usize,
    struck: usize,
    waiting: usize,
}

// A type of its own and of plain numbers, as the open one: a third for what they share would stand between a caller and both.
#[derive(Drop)]
pub struct ClosedSheet {
    number: u32,
    pieces: usize,
    struck: usize,
}
