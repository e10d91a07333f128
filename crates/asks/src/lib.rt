//! What tests ask of a room, as lines of a script ask it, and the lives and stories that they play.
#![tactic(auto)]

mod asks;
mod lives;
mod stories;

pub use asks::{Ask, count_of, step_of, steps};
pub use lives::{
    LOST_UPDATE, Life, NINE_GAPS, ONE_LINE_COVERED, ONE_ROW, Past, THREE_LINES_COVERED,
    TWO_LINES_COVERED,
};
pub use stories::{
    ABORTS_AND_COMMITS, BATCH_OF_THREE, CLOSE_OF_THREE, COLLECTOR_SWEEPS, FIRST_VERSION_OPENED,
    FIRST_VERSION_UPDATED, LONG_COMMIT_COVERED, NINE_GAPS_OPENED, NINE_GAPS_UPDATED, NINE_ROWS,
    ONE_ROW_OPENED, SLOT_REUSED, Story, Table, UPDATE_COVERED, UPDATE_LOST, UPDATE_LOST_AGAIN,
    WIDE_ROW_INSERTED, WIDE_ROW_UPDATED,
};
