//! A room that threads share: sessions make its steps under a lock, and so do a committer and a collector. Each session has a
//! receipt for each of its steps, and they are compared with the room's history when the engine is closed. What is covered is
//! published on a board, whose readers wait for nobody.
//!
//! Calls that take a lock or join promise only if they return. One thread makes the committer's ticks and publishes what they
//! cover, another makes the collector's visits, and each sleeps while it has nothing to do. The history and the receipts grow for
//! as long as the engine lives: an entry for each step of a session, each tick and each visit, and a receipt for each step of a
//! session.
//!
//! `Session::commit` waits without steps, and polls once its commit is covered or the device has failed. If the committer ends
//! first, the call fails with what ended the committer, as TimestampsOut or Device. If the committer is refused memory more than
//! a hundred times in a row, the call fails with OutOfMemory. The workers then sleep until a session takes the lock.
#![tactic(auto)]

mod agreement;
mod closing;
mod due;
mod engine;
mod gate;
mod halt;
mod keeping;
mod locked;
mod opening;
mod origin;
mod phase;
mod posting;
mod reporting;
mod session;
mod shared;
mod transacting;
mod worker;

pub use engine::Engine;
pub use gate::{Gate, Go};
pub use halt::Halt;
pub use keeping::Board;
pub use origin::Origin;
pub use phase::{Phase, PollReply};
pub use session::Session;
