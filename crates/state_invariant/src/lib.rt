//! What every plain state of a life keeps, and what the words of its slots are, as the plain state alone determines them.
#![tactic(auto)]

mod law;

pub use law::{
    covering_keeps_the_state, openings_keep_the_state, puts_show_their_version,
    snapshots_read_their_tables, stamps_show_their_timestamp, steps_keep_the_slots,
    steps_keep_the_state, versions_stay_linked,
};
