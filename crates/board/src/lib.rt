//! Published batches: one writer publishes them, and readers that never wait read them.
#![tactic(auto)]

mod board;
pub mod change;
pub mod coverage;
mod fitting;
pub mod history;
pub mod law;
pub mod reader;
mod rows;
pub mod shelf;
pub mod token;
mod versions;

pub use board::{Board, BoardWriter, Kept};
pub use coverage::Coverage;
pub use history::{History, Naming};
pub use reader::Reader;
pub use shelf::{Shelf, Step};
pub use token::Token;
