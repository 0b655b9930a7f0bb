// The slips that the tests start from; each passes, but for those that are said to fail.
use crate::sheets::*;
use slips::slip::*;

// No pieces.
pub const NOTHING: Draft = Draft {
    lines: &[],
    marks: &[],
    kind: Kind::Priced,
    total: 0,
    pieces: &[],
    groups: &[],
};

// One piece, which has no mate.
pub const ONE: Draft = Draft {
    lines: &[],
    marks: &[0],
    kind: Kind::Gap,
    total: 0,
    pieces: &[(NO_MATE, 0, 1)],
    groups: &[],
};

// Two pieces at the greatest and the least price.
pub const COUPLE: Draft = Draft {
    lines: &[(0, 1, 0)],
    marks: &[0, 0],
    kind: Kind::Priced,
    total: 0,
    pieces: &[(1, MOST_PRICE, 0), (0, -MOST_PRICE, 0)],
    groups: &[],
};

// Four pieces; the margin of 2 and 3 is 6, those of the other pairs are 0.
pub const FOUR: Draft = Draft {
    lines: &[(0, 1, 1), (0, 2, 4), (1, 3, 4), (2, 3, 10)],
    marks: &[0, 1, 0, 1],
    kind: Kind::Priced,
    total: 8,
    pieces: &[(2, 1, 0), (3, 1, 0), (0, 7, 0), (1, 7, 0)],
    groups: &[],
};

// The same four, of which 2 and 3 are struck.
pub const STRUCK: Draft = Draft {
    marks: &[0, 0, 2, 3],
    total: 1,
    pieces: &[(1, 1, 0), (0, 1, 0), (NO_MATE, 0, 0), (NO_MATE, 0, 0)],
    ..FOUR
};

// Two rings of three with a dear pair between them, each ring a group. All margins are 0.
pub const RINGS: Draft = Draft {
    lines: &[
        (0, 1, 2),
        (0, 2, 2),
        (1, 2, 2),
        (2, 3, 20),
        (3, 4, 2),
        (3, 5, 2),
        (4, 5, 2),
    ],
    marks: &[0, 0, 0, 0, 0, 0],
    kind: Kind::Priced,
    total: 24,
    pieces: &[
        (1, 2, 1),
        (0, 2, 1),
        (3, 2, 1),
        (2, 2, 2),
        (5, 2, 2),
        (4, 2, 2),
    ],
    groups: &[(18, 0), (18, 0)],
};

// The same rings without groups: the mates 2 and 3 have a margin of 36, so this slip fails.
pub const BARE: Draft = Draft {
    pieces: &[
        (1, 2, 0),
        (0, 2, 0),
        (3, 2, 0),
        (2, 2, 0),
        (5, 2, 0),
        (4, 2, 0),
    ],
    groups: &[],
    ..RINGS
};

// Group 1 of 0, 1 and 2 at 2, and group 2 of 3, 4 and 5 at 4, both with 6 in group 3 at 8. All margins are 0.
pub const NEST: Draft = Draft {
    lines: &[
        (0, 1, 0),
        (0, 6, 1),
        (0, 7, 5),
        (2, 3, 3),
        (3, 6, 2),
        (4, 5, 0),
        (5, 7, 6),
        (6, 7, 4),
    ],
    marks: &[0, 0, 0, 0, 0, 0, 0, 0],
    kind: Kind::Priced,
    total: 7,
    pieces: &[
        (1, 0, 1),
        (0, 0, 1),
        (3, 0, 1),
        (2, 0, 2),
        (5, 0, 2),
        (4, 0, 2),
        (7, 0, 3),
        (6, 0, 0),
    ],
    groups: &[(2, 3), (4, 3), (8, 0)],
};

// Two groups, each left by three pairs of mates: this slip fails.
pub const THRICE: Draft = Draft {
    lines: &[(0, 3, 1), (1, 4, 1), (2, 5, 1)],
    marks: &[0, 0, 0, 0, 0, 0],
    kind: Kind::Priced,
    total: 3,
    pieces: &[
        (3, 0, 1),
        (4, 0, 1),
        (5, 0, 1),
        (0, 0, 2),
        (1, 0, 2),
        (2, 0, 2),
    ],
    groups: &[(1, 0), (1, 0)],
};

// Of two groups the first is left by one pair of mates, the second by three: this slip fails.
pub const LATE: Draft = Draft {
    lines: &[(0, 1, 1), (2, 3, 2), (4, 6, 1), (5, 7, 1)],
    marks: &[0, 0, 0, 0, 0, 0, 0, 0],
    kind: Kind::Priced,
    total: 5,
    pieces: &[
        (1, 1, 1),
        (0, 1, 1),
        (3, 1, 1),
        (2, 1, 2),
        (6, 1, 2),
        (7, 1, 2),
        (4, 0, 0),
        (5, 0, 0),
    ],
    groups: &[(1, 0), (1, 0)],
};

// Mates 0 and 3, and 1 and 2, each with a margin of 2: this slip fails.
pub const RISING: Draft = Draft {
    lines: &[(0, 3, 1), (1, 2, 1)],
    marks: &[0, 0, 0, 0],
    kind: Kind::Priced,
    total: 2,
    pieces: &[(3, 0, 0), (2, 0, 0), (1, 0, 0), (0, 0, 0)],
    groups: &[],
};

// Three pieces that pair only with piece 0, which is cut.
pub const STAR: Draft = Draft {
    lines: &[(0, 1, 5), (0, 2, 5), (0, 3, 5)],
    marks: &[0, 1, 0, 1],
    kind: Kind::Gap,
    total: 0,
    pieces: &[
        (NO_MATE, 0, 0),
        (NO_MATE, 0, 1),
        (NO_MATE, 0, 2),
        (NO_MATE, 0, 3),
    ],
    groups: &[],
};

// The same pieces as one part, with nothing cut: this slip fails.
pub const WHOLE: Draft = Draft {
    marks: &[0, 0, 0, 0],
    pieces: &[
        (NO_MATE, 0, 1),
        (NO_MATE, 0, 1),
        (NO_MATE, 0, 1),
        (NO_MATE, 0, 1),
    ],
    ..STAR
};
