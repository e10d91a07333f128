//! The steps of the open sessions.
//!
//! The clause `step` says the same of each step's function. For every plain state with which the sessions agree and that hasn't
//! failed, the step is the machine's own, and the sessions agree with the next state (`Takes`). What is returned stands for the
//! machine's reply or its refusal (`specs/Replies.antt`).
//!
//! `put` and `stamp` make operations (`TakesOn`). Of them also: the device upholds that state, and each image that a crash leaves
//! meanwhile stands within the step. Device is returned exactly if an operation failed, and any other refusal leaves the device
//! as it was. No more operations are made than the machine allows, and each flush and fence is of the step's session.
#![tactic(auto)]

mod abort;
mod active;
mod begin;
mod collect;
mod covering;
mod delete;
mod draw;
mod end;
mod get;
mod giving;
mod law;
mod lending;
mod opening;
mod parts;
mod poll;
mod put;
mod scan;
mod sessions;
mod settling;
mod stamp;
mod tables;
mod touching;
mod usage;

pub use law::{sessions_show_any_hand, table_has_the_lines_of_a_batch};
pub use parts::Page;
pub use poll::CommitStatus;
pub use sessions::Sessions;
