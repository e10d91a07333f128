//! A room with the history of its steps: each step that it made, with the note of its reply.
//!
//! `Audited` has a ghost field, so this holds whenever a value is got, from a lock too. For some image that opens, and whatever
//! history that image stands for, the entries are a run of the plain machine (`Noted`). The run goes from the state that the
//! image opens as, with the numbers of `opening()`, to one that the room shows. So every image that its device may leave
//! stands for that last state.
#![tactic(auto)]

mod audited;
mod noting;
mod opening;
mod receipt;

pub use audited::Audited;
pub use receipt::Receipt;
