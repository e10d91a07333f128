use crate::asks::Ask;
use crate::asks::Ask::{Begin, Commit, Delete, Draw, Poll, Put, Stamp};

/// What is asked in a life, in parts that several lives share.
pub type Life = &'static [&'static [Ask]];

/// A life, and whether the crash that ends it leaves the newest value of each word, or the oldest.
pub type Past = (Life, bool);

/// Session 2 draws, stamps its one row, and is covered by a cycle of one line.
pub const ONE_LINE_COVERED: &[Ask] = &[Draw(2), Stamp(2), Commit(42)];

/// By one of two lines, and polls it.
pub const TWO_LINES_COVERED: &[Ask] = &[Draw(2), Stamp(2), Commit(43), Poll(2)];

/// It stamps two rows, and is covered by a cycle of three lines.
pub const THREE_LINES_COVERED: &[Ask] = &[Draw(2), Stamp(2), Stamp(2), Commit(44)];

/// Key 7 has a row.
pub const ONE_ROW: Life = &[&[Begin, Put(2, 7, 1)], ONE_LINE_COVERED];

/// Key 7 has a row. An update of it was stamped and lost.
pub const LOST_UPDATE: Life = &[
    &[Begin, Put(2, 7, 1)],
    ONE_LINE_COVERED,
    &[Begin, Put(3, 7, 2), Draw(3), Stamp(3)],
];

/// Another update of it was lost too.
pub const LOST_AGAIN: Life = &[&[Begin, Put(2, 7, 3), Draw(2), Stamp(2)]];

/// Keys 7 and 8 have rows, of one commit.
pub const TWO_ROWS: Life = &[
    &[Begin, Put(2, 7, 1), Put(2, 8, 1)],
    &[Draw(2), Stamp(2), Stamp(2), Commit(43)],
];

/// Three sessions update key 7, delete key 8 and insert key 9.
pub const THREE_WRITES: &[Ask] = &[Put(2, 7, 2), Delete(3, 8), Put(4, 9, 3)];

/// They draw, and one stamps.
pub const THREE_DRAWS: &[Ask] = &[Draw(3), Draw(2), Draw(4), Stamp(2)];

/// Nine lives, of which each covers a key and leaves a gap, and the last loses an update.
pub const NINE_GAPS: &[Past] = &[
    (&[&[Begin, Put(2, 1, 1)], ONE_LINE_COVERED], false),
    (&[&[Begin, Put(2, 2, 2)], ONE_LINE_COVERED], false),
    (&[&[Begin, Put(2, 3, 3)], ONE_LINE_COVERED], false),
    (&[&[Begin, Put(2, 4, 4)], ONE_LINE_COVERED], false),
    (&[&[Begin, Put(2, 5, 5)], ONE_LINE_COVERED], false),
    (&[&[Begin, Put(2, 6, 6)], ONE_LINE_COVERED], false),
    (&[&[Begin, Put(2, 7, 7)], ONE_LINE_COVERED], false),
    (&[&[Begin, Put(2, 8, 8)], ONE_LINE_COVERED], false),
    (
        &[
            &[Begin, Put(2, 9, 9)],
            ONE_LINE_COVERED,
            &[Begin, Put(3, 9, 10), Draw(3), Stamp(3)],
        ],
        true,
    ),
];
