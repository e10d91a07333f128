//! A store of rows in a file. One call opens it, threads share it by reference, and after a conflict a transaction is tried
//! again.
//!
//! A call has no precondition, except that the changes of a `transact` may be called, which the prover finds by itself. The lemma
//! of `crates/store/proofs/Sharing.antt` says that a store's type may cross threads. A function that hands a store to another
//! thread has a file of one answer with it, as `crates/example_bank/proofs/main/Answers.antt` is for `main`. The check prints the
//! answer's name.
//!
//! `./embed FOLDER` takes the crate into another repository. Two whole programs use it: in `crates/example_bank` two threads
//! transfer between the same accounts, back and forth, and `crates/example_todo` is a to-do list that takes lines of standard
//! input.
//!
//! A transaction reads the snapshot of its begin, and if two write the same key, the first to commit wins: snapshot isolation. So
//! write skew is possible: two transactions may both commit although each read a key that the other writes. If that matters, each
//! writes the key that it read. Rows have no checksum. Opening finds a record or a timestamp that no store writes (`Damaged`),
//! but flipped bits in a row or its key aren't noticed.
//!
//! A `get` or a `scan` waits for the lock: for another call's step, or for the ticks of a committer's turn. No read waits for a
//! commit, nor for the sync of one. None of these calls can name the store that a lock holds, so each speaks of some run, as the
//! calls of `database` do: *a run* is one of the plain machine that begins with the opening of a device. That it is the run of
//! this very store is seen in the code.
//!
//! A store that `run` opens keeps its history, by name: the log of the steps that its room has made since the file was opened. What
//! its calls say names that log: that a commit has exactly what its transaction wrote, and that a read sees just that over what was
//! covered at its begin. Nothing is stored for it but numbers. An application that needs it is a `Program`, and is generic in the
//! name, `J`. What `transact_known` does there is a `Work`.
//!
//! `error_of` says which `StoreError` each fault becomes by `?`, and `commit_error` which one each refusal of a commit becomes
//! (`crates/store/specs/Errors.antt`). This is proved of the conversions. A transaction that is read as a snapshot shows its own
//! snapshot, which is proved too.
#![tactic(auto)]

mod closed;
mod error;
mod file;
mod files;
mod kept;
mod layout;
mod ranges;
mod reading;
mod row;
mod status;
mod store;
mod transaction;
mod work;

pub use base::Ts;
pub use base::geometry::Geometry;
pub use base::key::Key;
pub use base::row::Row;
pub use closed::Closed;
pub use database::{Committed, Front, Origin, Page};
pub use error::{Layout, Part, StoreError};
pub use file::StoreFile;
pub use file_words::Account;
pub use files::{Device, Refusal, open_database};
pub use kept::{Program, run};
pub use layout::standard_layout;
pub use pmem_file::OpenError;
pub use reading::Snapshot;
pub use row::{RowExt, key};
pub use status::Status;
pub use store::Store;
pub use transaction::Transaction;
pub use work::Work;
