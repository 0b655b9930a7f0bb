// A slip, as anyone may hand it in: its content and the lengths of its tables may be any. Its numbers are those of the record format.
ghost use Rattle.std.specs.Prelude.{◌≡◌};
ghost use Rattle.slips.specs.Kind.{kind_number, ReadsKind};

// The mate of a piece that has none.
pub const NO_MATE: u16 = 65535;

// How many group records a slip has.
pub const GROUPS: usize = 127;

// The greatest price, in half pence, with either sign.
pub const MOST_PRICE: i64 = 1_000_000_000_000_000;

// How many parts a gap slip may number.
pub const MOST_PARTS: u16 = 256;

// What a slip that may be checked is for: to show that no pairing costs less, or that there is none.
#[derive(Clone, Copy, PartialEq, Eq, Debug)]
pub enum Kind {
    Priced,
    Gap,
}

// A number that is that of no kind. One type for kinds and marks would be no plainer: each holds one number, and its name says what could not be read.
#[derive(Clone, Copy, PartialEq, Eq, Debug)]
pub struct UnknownKind(pub u8);

impl TryFrom<u8> for Kind {
    type Error = UnknownKind;

    ghost try_from_gives = { ReadsKind };

    fn try_from(number: u8) -> Result<Self, UnknownKind> {
        match number {
            1 => Ok(Kind::Priced),
            2 => Ok(Kind::Gap),
            _ => Err(UnknownKind(number)),
        }
    }
}

impl From<Kind> for u8 {
    ghost from_gives = { λ kind r. r ≡ kind_number kind };

    fn from(kind: Kind) -> u8 {
        match kind {
            Kind::Priced => 1,
            Kind::Gap => 2,
        }
    }
}

// What a slip says of a piece. Prices are whole half pence.
#[derive(Clone, Copy, PartialEq, Eq, Debug)]
pub struct PieceRecord {
    pub mate: u16,
    pub price: i64,
    // In a priced slip the number of the innermost group around the piece, 0 for none; in a gap slip its part, 0 where it is cut.
    pub group: u16,
}

// What a slip says of a group; the record of group g stands at place g - 1.
#[derive(Clone, Copy, PartialEq, Eq, Debug)]
pub struct GroupRecord {
    pub price: i64,
    // The number of the next group around this one, 0 for none.
    pub parent: u16,
}

// The records that say nothing.
pub const BLANK_PIECE: PieceRecord = PieceRecord {
    mate: NO_MATE,
    price: 0,
    group: 0,
};

pub const BLANK_GROUP: GroupRecord = GroupRecord {
    price: 0,
    parent: 0,
};

#[derive(Drop)]
pub struct Slip {
    // The number of a kind, where it may be checked.
    pub kind: u8,
    // In whole pence.
    pub total: u32,
    // How many groups there are.
    pub count: u16,
    pub pieces: Vec<PieceRecord>,
    pub groups: Vec<GroupRecord>,
}
