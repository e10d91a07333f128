//! What the programs do with the three standard streams: an output that holds back its last line, and numbers that no file of
//! theirs may get.
//!
//! Nothing is claimed about `reserve`: no clause says which number the system gives.
#![tactic(auto)]

mod descriptors;
mod last_line;

pub use descriptors::{Reserved, reserve};
pub use last_line::LastLine;
