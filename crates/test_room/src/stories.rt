use asks::{
    ABORTS_AND_COMMITS, BATCH_OF_THREE, CLOSE_OF_THREE, FIRST_VERSION_OPENED, NINE_GAPS_OPENED,
    NINE_ROWS, ONE_ROW_OPENED, SLOT_REUSED, Story, Table, UPDATE_COVERED, UPDATE_LOST,
    UPDATE_LOST_AGAIN,
};

/// What opening shows: the gate, the persisted, the dirty and the next timestamp, the gaps, and the keys of table 1 that
/// have a row, with the one byte of each row.
pub type Opening = ((u64, u64, u64, u64), &'static [(u64, u64)], Table);

/// A story, and what the next opening shows if none of its records rules, if the first does, and so on. Each has another
/// gate.
pub struct Shown {
    pub story: Story,
    pub openings: &'static [Opening],
}

// Key 7 has a row. Each further opening that is lost makes the gap longer.
const OPENINGS: &[Opening] = &[
    ((4, 9, 18, 10), &[(2, 9)], &[(7, 1)]),
    ((5, 17, 26, 18), &[(2, 17)], &[(7, 1)]),
    ((6, 25, 34, 26), &[(2, 25)], &[(7, 1)]),
    ((7, 33, 42, 34), &[(2, 33)], &[(7, 1)]),
];

pub const BATCH_SHOWN: Shown = Shown {
    story: BATCH_OF_THREE,
    openings: &[
        ((4, 9, 18, 10), &[(2, 9)], &[(7, 1), (8, 1)]),
        ((5, 17, 26, 18), &[(2, 17)], &[(7, 1), (8, 1)]),
        ((6, 20, 29, 21), &[(2, 9), (13, 20)], &[(7, 2), (9, 3)]),
    ],
};

pub const CLOSE_SHOWN: Shown = Shown {
    story: CLOSE_OF_THREE,
    openings: &[
        ((4, 9, 18, 10), &[(2, 9)], &[(7, 1), (8, 1)]),
        ((5, 17, 26, 18), &[(2, 17)], &[(7, 1), (8, 1)]),
        ((6, 12, 21, 13), &[(2, 9)], &[(7, 2), (9, 3)]),
    ],
};

pub const UPDATE_SHOWN: Shown = Shown {
    story: UPDATE_LOST,
    openings: &[
        ((2, 0, 9, 1), &[], &[]),
        ((3, 8, 17, 9), &[(1, 8)], &[]),
        ((4, 9, 18, 10), &[(2, 9)], &[(7, 1)]),
    ],
};

pub const SECOND_UPDATE_SHOWN: Shown = Shown {
    story: UPDATE_LOST_AGAIN,
    openings: OPENINGS,
};

pub const THIRD_UPDATE_SHOWN: Shown = Shown {
    story: UPDATE_COVERED,
    openings: &[
        ((5, 17, 26, 18), &[(2, 17)], &[(7, 1)]),
        ((6, 25, 34, 26), &[(2, 25)], &[(7, 1)]),
        ((7, 26, 35, 27), &[(2, 17), (19, 26)], &[(7, 4)]),
    ],
};

pub const ABORTS_SHOWN: Shown = Shown {
    story: ABORTS_AND_COMMITS,
    openings: &[
        ((4, 9, 18, 10), &[(2, 9)], &[(7, 1)]),
        ((5, 17, 26, 18), &[(2, 17)], &[(7, 1)]),
        ((6, 18, 27, 19), &[(2, 9), (11, 18)], &[(7, 3), (8, 4)]),
        ((7, 19, 28, 20), &[(2, 9), (12, 19)], &[(8, 4)]),
    ],
};

pub const REUSED_SLOT_SHOWN: Shown = Shown {
    story: SLOT_REUSED,
    openings: &[
        ((2, 0, 9, 1), &[], &[]),
        ((3, 8, 17, 9), &[(1, 8)], &[]),
        ((4, 9, 18, 10), &[(2, 9)], &[(7, 1)]),
        ((5, 10, 19, 11), &[(3, 10)], &[]),
        ((6, 11, 20, 12), &[(4, 11)], &[(8, 2)]),
    ],
};

pub const OPENING_SHOWN: Shown = Shown {
    story: ONE_ROW_OPENED,
    openings: OPENINGS,
};

pub const FIRST_VERSION_SHOWN: Shown = Shown {
    story: FIRST_VERSION_OPENED,
    openings: OPENINGS,
};

pub const NINE_GAPS_SHOWN: Shown = Shown {
    story: NINE_GAPS_OPENED,
    openings: &[
        ((20, 81, 90, 82), &[], NINE_ROWS),
        ((21, 89, 98, 90), &[(82, 89)], NINE_ROWS),
        ((22, 97, 106, 98), &[(82, 97)], NINE_ROWS),
        ((23, 105, 114, 106), &[(82, 105)], NINE_ROWS),
    ],
};
