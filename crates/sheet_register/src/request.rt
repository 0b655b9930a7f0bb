// A request to withdraw a piece from the day's sheet.
#[derive(Clone, Copy, PartialEq, Eq, Debug)]
pub struct Request {
    pub piece: usize,
    // The driver's badge.
    pub badge: u32,
}
