//! A load of commits over an engine: threads, each with a session of its own, while a committer and a collector work.
//!
//! `run_load` is safe, and promises this if it returns. Which row each thread puts is tested (`test_scripts`), and that its
//! engine's close finds what it was lent.
#![tactic(auto)]

mod committing;
mod gate;
mod lending;
mod load;
mod opening;
mod task;

pub use load::{Load, run_load};
