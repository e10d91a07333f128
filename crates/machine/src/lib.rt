//! The plain machine, and what follows from its definitions.
#![tactic(auto)]

pub mod fitting;
pub mod law;
