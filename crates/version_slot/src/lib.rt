//! The slots in which an image keeps the versions of rows.
#![tactic(auto)]

mod bytes;
mod reading;
mod words;
mod writing;

pub use reading::{begin, end, key, read, read_into, read_key};
pub use words::{Slot, Version};
pub use writing::{fill, stamp_begin, stamp_end};
