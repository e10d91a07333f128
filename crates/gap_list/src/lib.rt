//! Sets of timestamps as lists of gaps.
#![tactic(auto)]

mod list;
mod parts;

pub use list::GapList;
