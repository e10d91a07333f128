//! Laws of whole steps: what a session's snapshot sees, and how the steps of sessions, the committer's ticks and the collector's
//! visits lead from one plain state to the next on a device, whole or up to an operation that fails.
#![tactic(auto)]

mod cycle_law;
mod session_law;
mod step_law;
mod visit_law;

pub use cycle_law::{
    batches_are_chosen, choosing_ticks, closes_on, closing_flushes, closing_writes, covering_ticks,
    failing_ticks, fence_ticks, idle_ticks, line_ticks, lines_are_counted, lines_rise, lines_stay,
    operation_ticks, refused_ticks,
};
pub use session_law::{
    conflicts_are_of_last_draws, links_lead_to_what_is_seen, records_say_who_is_covered,
    snapshots_read_their_tables, snapshots_stay_exact,
};
pub use step_law::{
    puts_count, puts_lead, quiet_steps_lead, refusals_lead, runs_count, stamps_count, stamps_lead,
    stamps_operate, stops_count,
};
pub use visit_law::{
    ends_show_garbage, sweeps_end, visits_count, visits_keep, visits_keep_sight, visits_lead,
};
