//! The lines that transactions touch, which have to be flushed before what they write may count.
#![tactic(auto)]

mod sessions;
mod table;

pub use sessions::SessionSet;
pub use table::DirtyTable;
