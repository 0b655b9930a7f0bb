// The marks of a piece. They are kept as bytes, which is the planner's form; any other byte agrees with no sheet.
ghost use Rattle.std.specs.Prelude.{◌≡◌};
ghost use Rattle.sheets.specs.Marks.{mark_byte, ReadsMark};

#[derive(Clone, Copy, PartialEq, Eq, Debug)]
pub enum Mark {
    Free,
    // A withdrawal was taken, and its docket is out.
    Taken,
    Struck,
}

// A byte that is that of no mark. One type for kinds and marks would be no plainer: each holds one number, and its name says what could not be read.
#[derive(Clone, Copy, PartialEq, Eq, Debug)]
pub struct UnknownMark(pub u8);

impl TryFrom<u8> for Mark {
    type Error = UnknownMark;

    ghost try_from_gives = { ReadsMark };

    fn try_from(byte: u8) -> Result<Self, UnknownMark> {
        match byte {
            0 => Ok(Mark::Free),
            1 => Ok(Mark::Taken),
            2 => Ok(Mark::Struck),
            _ => Err(UnknownMark(byte)),
        }
    }
}

impl From<Mark> for u8 {
    ghost from_gives = { λ mark r. r ≡ mark_byte mark };

    fn from(mark: Mark) -> u8 {
        match mark {
            Mark::Free => 0,
            Mark::Taken => 1,
            Mark::Struck => 2,
        }
    }
}
