//! What `kv` prints of rows, tables and commands, and how far a load is: for a person, or for a program.
#![tactic(auto)]

mod listing;
mod output;
mod progress;
mod shown;

pub use listing::{Dumped, TableCounts};
pub use output::{Manner, Output, Terminals};
pub use progress::Progress;
