//! A store of rows over a device, for any number of threads: transactions, and two workers of its own, which sleep while there is
//! nothing to do. It keeps no history, unless `run_kept` opens it. `D` is a device, and `R` the runtime's handle with `Threads` and
//! `Wait`, which a database keeps.
//!
//! No clause can name the room under the lock. What the type of that room says is known whenever the lock is taken: the room
//! shows the end of a run from the opening of a device that was at rest (`HasTaken`). Below, *a run* is such a run. So the clause
//! of a call speaks of some run: that it ends in the step of the call, and that what is returned is read off its reply. That the
//! room is that of this very database is seen in the code.
//!
//! A database that `run_kept` opens keeps its history, by name: the log of the steps that its room has made since the device was
//! opened. What its calls say names that log. A transaction knows it up to its begin and up to its own last step. What it
//! reads are the replies in the state that the log leads to. `commit_known` returns the log up to the transaction's end, and
//! `close_known` up to the close. Nothing is stored for it but numbers. A program that needs it is a `Program`.
//!
//! After a Conflict, begin again: the commit in the way is covered by then. A transaction that is dropped is aborted, and one
//! that only reads needs no commit. `JournaledPmem::open` keeps the layout of a file that exists. If the file is missing or
//! empty, it creates one of zeros, which `format_new` then makes an image of: `crates/kv/src/opening.rt` is what to copy, with
//! its clauses. A device of your own is a `Pmem` and a `SyncAhead`: if its fences wait for nothing, `begin_sync` returns `None`.
#![tactic(auto)]

mod answers;
mod closing;
mod committing;
mod database;
mod ending;
mod error;
mod group;
mod kept;
mod leading;
mod locked;
mod opened;
mod reading;
mod steps;
mod trace;
mod transaction;
mod turns;
mod waiting;
mod workers;

pub use database::{Closed, Database, Refused, Report};
pub use error::CommitError;
pub use history::{Front, History, Origin};
pub use kept::{Program, run_kept};
pub use room::Page;
pub use transaction::{Committed, Transaction};
