//! What threads that share a room do under its lock, without the threads, the lock and the room. `Roles` is the commit protocol of a
//! database: who takes the committer's turns, who watches the group that is being formed, who sleeps, and who is woken. `Workers` is
//! the protocol of an engine, in which two threads make all ticks and visits: what is due for each, when it rests, and when it ends.
//! When a round of the collector is due, and how often memory may be refused, is said once for both. Each move is made under one lock
//! and is a pure function, so that a program can try all orders in which threads make them.
#![tactic(auto)]

mod due;
mod roles;
mod turn;
mod workers;

pub use due::{Due, News, enough_for_round};
pub use roles::{Lead, Roles};
pub use turn::{Next, Turn};
pub use workers::{Duty, REFUSALS, Workers, lacks_memory};
