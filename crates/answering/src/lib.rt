//! A session over a store, which carries out what `kv` is told: what its answers may say, and why a command is refused.
#![tactic(auto)]

mod failure;
mod pages;
mod session;

pub use failure::Failure;
pub use pages::{MOST_ROWS, RangePages};
pub use session::{Answer, Listing, Reads, Session, commit};
