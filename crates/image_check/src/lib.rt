//! Checking an image without opening it.
#![tactic(auto)]

mod checking;
mod sorting;

pub use checking::{Report, check};
