//! What kept a line from being run, or the run from its end: one type, whose text is what the user reads. Errors of the store are told
//! in terms of what a user of `kv` can do.

use anyhow;
use base::fault::Fault;
use base::geometry::Geometry;
use base::row::Row;
use commands::Unreadable;
use std::io;
use store::{OpenError, StoreError};
use thiserror::Error;

/// Why a line isn't run, or why the store can't be used to the end.
#[derive(Debug, Drop, Error)]
pub enum Failure {
    #[error("{0}")]
    Unreadable(#[from] Unreadable),
    /// The line can be read, but not here.
    #[error("{0}")]
    Words(anyhow::Error),
    #[error("{0}")]
    Fault(Fault),
    #[error("no slot is free, and an update needs one too: delete a row, or copy all rows into a store with more slots, as help shows")]
    Full,
    /// No slot is free, and no store has more of them.
    #[error("no slot is free, and an update needs one too: delete a row")]
    LargestFull,
    #[error("the row is too long: a row of this store has at most {0} bytes (up to 480 in a store that is created with --lines 8)")]
    TooLong(usize),
    /// The row is too long, and no store takes longer ones.
    #[error("the row is too long: a row of this store has at most {0} bytes")]
    TooLongForAll(usize),
    #[error("a transaction writes at most 32 keys: write this one in the next transaction")]
    TooManyKeys,
    #[error("a transaction is open: end it with commit or abort")]
    Open,
    #[error("no transaction is open: begin opens one")]
    NotOpen,
    #[error("line {0} was refused, and its transaction with it: end it with commit or abort; nothing of it is kept")]
    Broken(u64),
    #[error("nothing was committed, because line {0} was refused")]
    NotCommitted(u64),
    #[error("load: the input ended between begin and commit: nothing of that transaction is kept")]
    Unfinished,

    // From here on no more lines are run.
    #[error("standard input: {0}")]
    Input(io::Error),
    #[error("standard output: {0}")]
    Output(io::Error),
    /// The file failed.
    #[error("nothing more is read or written before the file is opened again; what was committed is kept")]
    Failed,
    /// The file failed during a commit.
    #[error("whether the last commit is kept is known when the file is opened again; those before it are")]
    InCommit,
    /// The file failed after all lines.
    #[error("what was committed is kept, and the file isn't closed")]
    AtClose,

    // The store isn't opened or closed.
    #[error("no such file: only put, load and lines of standard input create a store")]
    Missing,
    #[error("the file is empty: only put, load and lines of standard input create a store in it")]
    Empty,
    #[error("it has {slots} slots of {width} bytes, {places} places and a window of {window}, and keeps them: leave out the options that differ")]
    HasLayout {
        slots: u64,
        width: usize,
        places: u64,
        window: u64,
    },
    #[error("{0}")]
    File(OpenError),
    /// A write or a sync of the file failed.
    #[error("{0}")]
    Lost(io::Error),
    #[error("the file was removed while it was open, and what it held is gone")]
    Unlinked,
}

impl Failure {
    /// The file holds a store of this layout, and another one is asked for.
    pub fn other_layout(found: &Geometry) -> Failure {
        Failure::HasLayout {
            slots: found.slots(),
            width: found.row_limit(),
            places: found.places(),
            window: found.window(),
        }
    }

    // The row is too long for a store whose rows have at most this many bytes.
    fn too_long(limit: usize) -> Failure {
        if limit < Row::LIMIT {
            Failure::TooLong(limit)
        } else {
            Failure::TooLongForAll(limit)
        }
    }

    /// The name by which programs recognize why a line is refused: for a fault of the store its own name.
    pub fn name(&self) -> &'static str {
        match self {
            Failure::Unreadable(unreadable) => unreadable.name(),
            Failure::Fault(fault) => fault.name(),
            Failure::Full | Failure::LargestFull => "SlotsOut",
            Failure::TooLong(_) | Failure::TooLongForAll(_) => "TooLong",
            Failure::TooManyKeys => "WriteSetFull",
            Failure::Open => "TransactionOpen",
            Failure::NotOpen => "NoTransaction",
            Failure::Broken(_) => "TransactionBroken",
            Failure::NotCommitted(_) => "NotCommitted",
            Failure::Unfinished => "Unfinished",
            _ => "BadWords",
        }
    }

    /// Whether no more lines can be run.
    pub fn is_final(&self) -> bool {
        matches!(
            self,
            Failure::Input(_) | Failure::Output(_) | Failure::Failed | Failure::InCommit
        )
    }

    /// Whether it leaves a transaction as it was, so that a person may type another line.
    pub fn is_harmless(&self) -> bool {
        match self {
            Failure::Unreadable(unreadable) => unreadable.is_harmless(),
            Failure::Words(_)
            | Failure::Open
            | Failure::TooLong(_)
            | Failure::TooLongForAll(_)
            | Failure::TooManyKeys => true,
            _ => false,
        }
    }

    /// The same in a store of this layout: one of the most slots can't be copied into a larger one.
    pub fn in_store(self, layout: &Geometry) -> Failure {
        match self {
            Failure::Full if Geometry::MOST_LARGE_SLOTS <= layout.slots() => Failure::LargestFull,
            failure => failure,
        }
    }
}

impl From<StoreError> for Failure {
    fn from(error: StoreError) -> Failure {
        match error {
            StoreError::Missing { .. } => Failure::Missing,
            StoreError::File { cause, .. } => Failure::File(cause),
            StoreError::OtherLayout { ref found, .. } => Failure::other_layout(&found.geometry),
            StoreError::Lost { cause, .. } => Failure::Lost(cause),
            StoreError::NotOpened { fault, .. }
            | StoreError::NotClosed { fault, .. }
            | StoreError::Refused(fault) => Failure::Fault(fault),
            StoreError::Conflict(key) => Failure::Fault(Fault::Conflict(key)),
            StoreError::TooManyTransactions => Failure::Fault(Fault::SessionsFull),
            StoreError::OutOfMemory => Failure::Fault(Fault::OutOfMemory),
            StoreError::Full => Failure::Full,
            StoreError::RowTooLong(limit) => Failure::too_long(limit),
            StoreError::TooManyKeys => Failure::TooManyKeys,
            StoreError::Failed => Failure::Failed,
            StoreError::Unknown(_) => Failure::InCommit,
            error => Failure::Words(anyhow::Error::from(error)),
        }
    }
}
