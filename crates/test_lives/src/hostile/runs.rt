use asks::Ask::{Abort, Begin, Collect, Commit, Delete, Draw, End, Get, Poll, Put, Scan, Stamp};
use asks::{LOST_UPDATE, ONE_LINE_COVERED, Past};

/// Lives of one device of 2 places, in any of which an allocation may be refused. Each ends in a crash that leaves the newest
/// values, or the oldest if that is named.
pub struct Run {
    pub name: &'static str,
    pub slots: u64,
    pub window: u64,
    pub lives: &'static [Past],
}

pub const RUNS: &[Run] = &[
    Run {
        name: "one_commit",
        slots: 4,
        window: 8,
        lives: &[
            (
                &[
                    &[Begin, Put(2, 7, 1)],
                    ONE_LINE_COVERED,
                    &[Poll(2), Poll(2)],
                ],
                false,
            ),
            (&[&[Begin, Get(2, 7)]], false),
        ],
    },
    Run {
        name: "updates_lost_twice",
        slots: 4,
        window: 8,
        lives: &[
            (LOST_UPDATE, true),
            (
                &[&[Begin, Get(2, 7), Put(2, 7, 3), Draw(2), Stamp(2)]],
                true,
            ),
            (
                &[
                    &[Begin, Get(2, 7), Put(2, 7, 4)],
                    &[Draw(2), Stamp(2), Commit(43)],
                ],
                false,
            ),
            (&[&[Begin, Get(2, 7)]], false),
        ],
    },
    Run {
        name: "conflict",
        slots: 4,
        window: 8,
        lives: &[(
            &[
                &[Begin, Begin, Put(2, 7, 1), Put(3, 7, 2), Draw(2), Draw(3)],
                &[Stamp(2), Commit(42), Draw(3), Abort(3), Begin],
            ],
            false,
        )],
    },
    Run {
        name: "old_snapshot",
        slots: 4,
        window: 8,
        lives: &[(
            &[
                &[Begin, Put(2, 7, 1)],
                ONE_LINE_COVERED,
                &[Poll(2), End(2), Begin],
                &[Begin, Put(3, 7, 2), Draw(3), Stamp(3), Commit(43), End(3)],
                &[Get(2, 7), Collect(5), Get(2, 7)],
                &[Begin, Get(3, 7), Put(3, 8, 3), Get(2, 7)],
                &[Abort(2), Collect(5), Put(3, 9, 4)],
            ],
            false,
        )],
    },
    Run {
        name: "window",
        slots: 8,
        window: 4,
        lives: &[(
            &[
                &[Begin, Begin, Begin, Begin, Begin],
                &[Put(2, 1, 1), Put(3, 2, 2), Put(4, 3, 3)],
                &[Put(5, 4, 4), Put(6, 5, 5)],
                &[Draw(2), Draw(3), Draw(4), Draw(5), Draw(6)],
                &[Stamp(2), Stamp(3), Stamp(4), Stamp(5)],
                &[Commit(45), Draw(6)],
            ],
            false,
        )],
    },
    Run {
        name: "scans_and_deletions",
        slots: 8,
        window: 8,
        lives: &[
            (
                &[
                    &[Begin, Put(2, 1, 1), Put(2, 2, 2), Put(2, 3, 3)],
                    &[Draw(2), Stamp(2), Stamp(2), Stamp(2), Commit(44)],
                    &[End(2), Begin, Delete(2, 2), Scan(2)],
                    ONE_LINE_COVERED,
                    &[End(2)],
                ],
                false,
            ),
            (&[&[Begin, Scan(2)]], false),
        ],
    },
];
