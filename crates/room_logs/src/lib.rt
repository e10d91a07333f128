//! What the list of steps that a room has made since its device was opened tells.
#![tactic(auto)]

mod law;

pub use law::{crashes_leave_later_logs, logs_tell, rooms_keep_logs};
