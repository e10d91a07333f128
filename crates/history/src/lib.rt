//! The one history of a room: the log of the steps that it has made since its device was opened. The log exists in proofs alone. What is
//! kept of it is its length, and at which place each session's own last step is.
//!
//! A value that comes out of a lock is known by its type alone. So a history has a name, `J`, which is in the types of all that
//! speaks of it: what two of them have seen are beginnings of one log.
#![tactic(auto)]

mod front;
mod log;
mod origin;

pub use front::{Front, History};
pub use log::Log;
pub use origin::Origin;
