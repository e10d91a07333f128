//! Whole lives of one modelled device: each opens it, takes steps, perhaps closes it, and is stopped by a crash, over the
//! image that the life before it left.
#![tactic(auto)]

mod beginning;
mod ending;
mod life;
mod obeying;
mod running;

pub use life::{Life, LifeReport, Numbers, Opened, Repeated};
pub use running::run_lives;
