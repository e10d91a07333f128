use crate::asks::Ask::{
    Abort, Begin, Collect, Commit, Delete, Draw, End, Poll, Put, PutWide, Stamp,
};
use crate::lives::{
    LOST_AGAIN, LOST_UPDATE, Life, NINE_GAPS, ONE_LINE_COVERED, ONE_ROW, Past, THREE_DRAWS,
    THREE_LINES_COVERED, THREE_WRITES, TWO_LINES_COVERED, TWO_ROWS,
};

/// The keys of table 1 that have a row, by rising key, and the byte of each row, once or 96 times.
pub type Table = &'static [(u64, u8)];

/// A life that may stop anywhere, on a device of a window of 8 and 2 places, and the lives before it.
#[derive(Clone, Copy)]
pub struct Story {
    pub name: &'static str,
    pub slots: u64,
    /// The version of the image that it begins with.
    pub version: u64,
    pub before: &'static [Past],
    pub life: Life,
    /// Whether the room is closed at the end.
    pub closes: bool,
    /// How many operations are made once each of its records rules: that of its opening, and those that it writes later.
    pub records: &'static [u64],
    /// How many operations it makes in all.
    pub operations: u64,
}

impl Story {
    /// How many operations its opening makes.
    pub fn opening(&self) -> u64 {
        self.records.first().copied().unwrap_or(0)
    }

    /// How many of its records rule after this many operations, at least and at most. The last three operations of a record
    /// store, flush and fence its gate: it may rule from the first of these on, and rules from the last on.
    pub fn ruling(&self, made: u64) -> (usize, usize) {
        let mut least: usize = 0;
        let mut most: usize = 0;
        for record in self.records {
            if *record <= made {
                least = least.saturating_add(1);
            }
            if *record <= made.saturating_add(2) {
                most = most.saturating_add(1);
            }
        }
        (least, most)
    }
}

// A fresh device is opened, by 39 operations. In the stories a put makes 10, a stamp one or, of an update, two, and a cycle
// 40 plus one for each line.
const FRESH: Story = Story {
    name: "opening of a fresh device",
    slots: 4,
    version: 2,
    before: &[],
    life: &[],
    closes: false,
    records: &[39],
    operations: 39,
};

/// The row of a first commit is updated, and the update is lost.
pub const UPDATE_LOST: Story = Story {
    name: "update that is lost",
    life: LOST_UPDATE,
    records: &[39, 91],
    operations: 103,
    ..FRESH
};

/// A second update is lost too.
pub const UPDATE_LOST_AGAIN: Story = Story {
    name: "update that is lost again",
    before: &[(LOST_UPDATE, true)],
    life: LOST_AGAIN,
    operations: 51,
    ..FRESH
};

/// A third update is covered, by a cycle of two lines.
pub const UPDATE_COVERED: Story = Story {
    name: "update that is covered",
    before: &[(LOST_UPDATE, true), (LOST_AGAIN, true)],
    life: &[&[Begin, Put(2, 7, 4)], TWO_LINES_COVERED],
    records: &[39, 93],
    operations: 93,
    ..FRESH
};

/// Three sessions update, delete and insert a key. Their stamps make 4 operations, and the cycle is of four lines.
pub const BATCH_OF_THREE: Story = Story {
    name: "batch of three",
    before: &[(TWO_ROWS, false)],
    life: &[
        &[Begin, Begin, Begin],
        THREE_WRITES,
        THREE_DRAWS,
        &[Stamp(3), Stamp(4), Commit(45), Poll(4)],
    ],
    records: &[39, 107],
    operations: 107,
    ..FRESH
};

/// It writes what that cycle would, except for the timestamps that it reserves. None are left over, and there is no gap.
pub const CLOSE_OF_THREE: Story = Story {
    name: "close",
    life: &[&[Begin, Begin, Begin], THREE_WRITES, THREE_DRAWS],
    closes: true,
    ..BATCH_OF_THREE
};

/// Two puts are aborted and their slots taken again, one of them twice. The second commit deletes. Five puts, three
/// stamps and a cycle of three lines end at operation 135, a stamp and a cycle of one line at 177.
pub const ABORTS_AND_COMMITS: Story = Story {
    name: "aborts and commits",
    before: &[(LOST_UPDATE, true)],
    life: &[
        &[Begin, Put(2, 8, 5), Put(2, 7, 6), Abort(2), Begin],
        &[Put(2, 7, 3), Put(2, 8, 7), Delete(2, 8), Put(2, 8, 4)],
        THREE_LINES_COVERED,
        &[Poll(2), End(2), Begin, Delete(2, 7)],
        ONE_LINE_COVERED,
        &[Poll(2), End(2)],
    ],
    records: &[39, 135, 177],
    operations: 177,
    ..FRESH
};

/// One slot, which a deleted row leaves to another key. Put, stamp and cycle make 10, 1 and 41 operations, and the
/// deletion 1 and 41, so that the second put begins with operation 134.
pub const SLOT_REUSED: Story = Story {
    name: "slot that is used again",
    slots: 1,
    life: &[
        &[Begin, Put(2, 7, 1)],
        ONE_LINE_COVERED,
        &[End(2), Begin, Delete(2, 7)],
        ONE_LINE_COVERED,
        &[End(2), Collect(1), Begin, Put(2, 8, 2)],
        ONE_LINE_COVERED,
        &[Poll(2)],
    ],
    records: &[39, 91, 133, 185],
    operations: 185,
    ..FRESH
};

/// Opening after a first commit.
pub const ONE_ROW_OPENED: Story = Story {
    name: "opening",
    before: &[(ONE_ROW, false)],
    ..FRESH
};

/// Opening an image of the first version, which changes the version first, by a store, a flush and a fence.
pub const FIRST_VERSION_OPENED: Story = Story {
    name: "opening of the first version",
    version: 1,
    records: &[42],
    operations: 42,
    ..ONE_ROW_OPENED
};

/// Opening such an image with two rows, after which a commit follows.
pub const FIRST_VERSION_UPDATED: Story = Story {
    name: "image of the first version",
    version: 1,
    before: &[(TWO_ROWS, false)],
    life: &[&[Begin, Put(2, 7, 2)], TWO_LINES_COVERED],
    records: &[42, 96],
    operations: 96,
    ..FRESH
};

/// Opening with a ninth gap, which has a begin and an end. It sweeps them first, by 2 stores, 2 flushes and 1 fence.
pub const NINE_GAPS_OPENED: Story = Story {
    name: "opening of nine gaps",
    slots: 16,
    before: NINE_GAPS,
    records: &[44],
    operations: 44,
    ..FRESH
};

/// The rows of that image.
pub const NINE_ROWS: Table = &[
    (1, 1),
    (2, 2),
    (3, 3),
    (4, 4),
    (5, 5),
    (6, 6),
    (7, 7),
    (8, 8),
    (9, 9),
];

/// A commit follows.
pub const NINE_GAPS_UPDATED: Story = Story {
    name: "opening that sweeps nine gaps",
    life: &[&[Begin, Put(2, 9, 11)], TWO_LINES_COVERED],
    records: &[44, 98],
    operations: 98,
    ..NINE_GAPS_OPENED
};

/// The collector sweeps an end and a begin by 2 stores, 4 flushes and 1 fence. A record of no lines drops the gap.
pub const COLLECTOR_SWEEPS: Story = Story {
    name: "sweep of the collector",
    before: &[(LOST_UPDATE, true)],
    life: &[
        &[Collect(5), Commit(41), Begin, Put(2, 7, 2)],
        TWO_LINES_COVERED,
    ],
    records: &[39, 86, 140],
    operations: 140,
    ..FRESH
};

/// The first record passes over the first commit, and the second covers it.
pub const LONG_COMMIT_COVERED: Story = Story {
    name: "long commit",
    before: &[(TWO_ROWS, false)],
    life: &[
        &[Begin, Begin, Put(2, 7, 2), Put(3, 8, 2), Draw(2), Draw(3)],
        &[Stamp(3), Commit(43), Poll(3)],
        &[Stamp(2), Commit(43), Poll(2)],
    ],
    records: &[39, 103, 147],
    operations: 147,
    ..FRESH
};

// Key 7 has a row of 96 bytes.
const WIDE_ROW: Life = &[&[Begin, PutWide(2, 7, 1)], TWO_LINES_COVERED];

/// A slot of two lines takes a put of 18 operations, and the cycle is of two lines.
pub const WIDE_ROW_INSERTED: Story = Story {
    name: "wide row",
    version: 3,
    life: WIDE_ROW,
    records: &[39, 100],
    operations: 100,
    ..FRESH
};

/// The ended version touches its first line alone, so the cycle is of three.
pub const WIDE_ROW_UPDATED: Story = Story {
    name: "wide row that is updated",
    version: 3,
    before: &[(WIDE_ROW, false)],
    life: &[
        &[Begin, PutWide(2, 7, 2), Draw(2), Stamp(2)],
        &[Commit(44), Poll(2)],
    ],
    records: &[39, 102],
    operations: 102,
    ..FRESH
};
