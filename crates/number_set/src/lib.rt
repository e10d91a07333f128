//! Sets of numbers below a limit, whose calls cost the same whatever the limit is.
#![tactic(auto)]

mod bits;
mod level;
mod set;

pub use bits::lowest_bit;
pub use set::NumberSet;
