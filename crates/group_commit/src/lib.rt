//! How drawn commits are covered: which ones a batch takes, and the cycle of ticks that makes their lines and its record
//! persist.
#![tactic(auto)]

mod batch;
mod cycle;
mod law;
mod stage;

pub use batch::is_idle;
pub use cycle::Cycle;
pub use law::ticks_are_counted;
pub use stage::CycleStage;
