use asks::{
    BATCH_OF_THREE, CLOSE_OF_THREE, COLLECTOR_SWEEPS, FIRST_VERSION_UPDATED, LONG_COMMIT_COVERED,
    NINE_GAPS_UPDATED, NINE_ROWS, SLOT_REUSED, Story, Table, UPDATE_COVERED, UPDATE_LOST,
    UPDATE_LOST_AGAIN, WIDE_ROW_INSERTED, WIDE_ROW_UPDATED,
};

/// A story, and whether opening an image that is judged after a stop is stopped for each image, or for some. The tables
/// are those before its first record, and after each record that it writes once it is open.
pub type StoryTables = (Story, bool, &'static [Table]);

const NINE_ROWS_UPDATED: Table = &[
    (1, 1),
    (2, 2),
    (3, 3),
    (4, 4),
    (5, 5),
    (6, 6),
    (7, 7),
    (8, 8),
    (9, 11),
];

// Keys 7 and 8, and then three commits.
const THREE_COMMITTED: &[Table] = &[&[(7, 1), (8, 1)], &[(7, 2), (9, 3)]];

pub const STORIES: &[StoryTables] = &[
    (UPDATE_LOST, true, &[&[], &[(7, 1)]]),
    (UPDATE_LOST_AGAIN, true, &[&[(7, 1)]]),
    (UPDATE_COVERED, true, &[&[(7, 1)], &[(7, 4)]]),
    (SLOT_REUSED, false, &[&[], &[(7, 1)], &[], &[(8, 2)]]),
    (NINE_GAPS_UPDATED, false, &[NINE_ROWS, NINE_ROWS_UPDATED]),
    (COLLECTOR_SWEEPS, false, &[&[(7, 1)], &[(7, 1)], &[(7, 2)]]),
    (BATCH_OF_THREE, false, THREE_COMMITTED),
    (CLOSE_OF_THREE, false, THREE_COMMITTED),
    (
        FIRST_VERSION_UPDATED,
        false,
        &[&[(7, 1), (8, 1)], &[(7, 2), (8, 1)]],
    ),
    (
        LONG_COMMIT_COVERED,
        false,
        &[&[(7, 1), (8, 1)], &[(7, 1), (8, 2)], &[(7, 2), (8, 2)]],
    ),
    (WIDE_ROW_INSERTED, false, &[&[], &[(7, 1)]]),
    (WIDE_ROW_UPDATED, false, &[&[(7, 1)], &[(7, 2)]]),
];
