//! The room: every step of the engine, one at a time, by a program that lends its device to one thread. Its calls are
//! `Room::open`, then `Room::begin`, `get`, `put` and their like, `Room::advance` for a tick and `Room::collect` for a visit, or
//! `Room::step` for any of them, and `Room::close`.
//!
//! Of `begin`, `get`, `put` and their like `step` says what `Room::step` does with that step of a session, and that what is
//! returned stands for the reply (`crates/session_steps/specs/Replies.antt`). Neither a step nor a reply is moved.
#![tactic(auto)]

mod ahead;
mod close;
mod counting;
mod law;
mod opening;
mod reading;
mod replies;
mod room;
mod sessions;
mod status;
mod tick;
mod ticks;
mod usage;
mod volatile;
mod workers;

pub use collector::Visit;
pub use law::steps_run;
pub use room::Room;
pub use session_steps::{CommitStatus, Page};
pub use status::Status;
pub use ticks::Tick;
pub use usage::Usage;
