//! Callers match on an error to decide what to do, so each cause with its own remedy is a variant, and its message names the
//! remedy. Every other fault is `Refused`, or `NotOpened` when a store is opened. Errors of opening and closing name the file,
//! since a program may use several.

use anyhow;
use base::fault::Fault;
use base::geometry::Geometry;
use base::key::Key;
use database::CommitError;
use pmem_file::OpenError;
use std::alloc::AllocError;
use std::{fmt, io};
use thiserror::Error;

/// Why a call failed: opening a store, a step, a commit, or closing.
#[derive(Debug, Drop, Error)]
pub enum StoreError {
    /// No store has this name: there is no such file, or it is empty.
    #[error("{name}: no store is there: check the name, or create one by `Store::open`")]
    Missing {
        name: String,
    },
    /// No store can be opened over this file: it belongs to another program, is locked, isn't a store, is cut short or can't be
    /// read. The file stays as it was.
    #[error("{name}: {cause}")]
    File {
        name: String,
        cause: OpenError,
    },
    /// The file holds a store with another layout, and is left as it is. `open_existing` opens that file.
    #[error("{name} has {found}, but {asked} were asked for: open it as it is by `Store::open_existing`, or copy its rows into a new one")]
    OtherLayout {
        name: String,
        found: Layout,
        asked: Layout,
    },
    /// The contents of the file aren't what a store wrote, at this place or slot.
    #[error("{name} is damaged at {part}: restore a backup")]
    Damaged {
        name: String,
        part: Part,
    },
    /// The store wasn't opened for another reason.
    #[error("{name}: {fault}")]
    NotOpened {
        name: String,
        fault: Fault,
    },
    /// A write or a sync of the file failed, with this cause. All acknowledged commits are kept.
    #[error("{name}: {cause}: what was committed is kept; open it again")]
    Lost {
        name: String,
        cause: io::Error,
    },
    /// The store wasn't closed. All acknowledged commits are kept.
    #[error("{name} isn't closed: {fault}: what was committed is kept; open it again")]
    NotClosed {
        name: String,
        fault: Fault,
    },
    /// Another commit has written the key since the transaction began, and came first. It is covered now, unless the committer has ended
    /// or lacks memory.
    #[error("another commit has written table and key {0}: begin again")]
    Conflict(Key),
    /// All tries that were allowed ended in a conflict, the last one on this key. Nothing of the transaction is kept, as after
    /// `Conflict`.
    #[error("{tries} tries ended in conflicts, the last one on table and key {key}: try again later")]
    GivenUp {
        tries: u64,
        key: Key,
    },
    /// A put found no free slot. Each row takes a slot, and so does each older version that an open transaction may still read.
    /// The transaction stays open, as after each of the refusals below, with what it wrote before.
    #[error("no slot is free, since rows fill the store or an open transaction keeps old ones: end that transaction, or delete rows; one of fewer than 16,777,216 slots can be copied into a larger one")]
    Full,
    /// The row isn't a number as `put_number` writes it.
    #[error("the row under table and key {0} isn't a number, which has 8 bytes: read it as a row")]
    NotANumber(Key),
    /// The row has more bytes than fit into a slot: 32 to 480, depending on the layout.
    #[error("the row has more than {0} bytes: shorten it (a store of `Geometry::large` with 8 lines takes up to 480)")]
    RowTooLong(usize),
    /// The transaction has written 32 keys already, and the put or delete is for another one.
    #[error("the transaction has written 32 keys, the most that it may: write others in another transaction")]
    TooManyKeys,
    /// The maximum number of transactions and snapshots is open.
    #[error("62 transactions are open: end one first")]
    TooManyTransactions,
    /// The allocator refused memory. The step changed nothing.
    #[error("out of memory: free some, then try again")]
    OutOfMemory,
    /// A write or a sync of the file failed earlier. Nothing more is committed, and closing the store reports the cause.
    #[error("a write or a sync of the file failed before, and closing says why: what was committed is kept; open the store again")]
    Failed,
    /// A commit fails with this after a failure: it is kept as a whole or not at all, and the next opening shows which.
    #[error("it isn't known whether the commit is kept until the store is opened again: {0}")]
    Unknown(Fault),
    /// The step was refused for another reason.
    #[error("{0}")]
    Refused(Fault),
    /// The caller's own error, for which its changes were rolled back.
    #[error("{0}")]
    Own(#[from] anyhow::Error),
}

/// A layout, printed in the terms in which a user asks for one.
#[derive(Clone, Copy, Debug)]
pub struct Layout {
    pub geometry: Geometry,
}

impl fmt::Display for Layout {
    fn fmt<W: fmt::Write>(&self, f: &mut fmt::Formatter<W>) -> fmt::Result {
        let slots = self.geometry.slots();
        let bytes = self.geometry.row_limit();
        let places = self.geometry.places();
        let window = self.geometry.window();
        write!(
            f,
            "{slots} slots of {bytes} bytes, {places} places and a window of {window}"
        )
    }
}

/// The part of a file that is damaged.
#[derive(Clone, Copy, Debug, PartialEq, Eq)]
pub enum Part {
    /// A place for a record, counted from 0.
    Place(u64),
    /// A slot, counted from 0.
    Slot(u64),
}

impl fmt::Display for Part {
    fn fmt<W: fmt::Write>(&self, f: &mut fmt::Formatter<W>) -> fmt::Result {
        match self {
            Part::Place(place) => write!(f, "place {place}"),
            Part::Slot(slot) => write!(f, "slot {slot}"),
        }
    }
}

impl Part {
    ghost use Rattle.std.specs.Prelude.{◌≡◌};
    ghost use Rattle.store.specs.Errors.{part_of};

    /// The part that a fault names by this number: the places are counted first, and then the slots.
    pub fn of(geometry: &Geometry, number: u64) -> Part
        ensures { result ≡ part_of geometry.now number }
    {
        let places = geometry.places();
        if number < places {
            Part::Place(number)
        } else {
            Part::Slot(number - places)
        }
    }
}

impl From<Fault> for StoreError {
    ghost use Rattle.std.specs.Prelude.{◌≡◌};
    ghost use Rattle.store.specs.Errors.{error_of};

    ghost from_gives = { λ fault error. error ≡ error_of fault };

    fn from(fault: Fault) -> StoreError {
        match fault {
            Fault::Conflict(key) => StoreError::Conflict(key),
            Fault::SlotsOut => StoreError::Full,
            Fault::WriteSetFull => StoreError::TooManyKeys,
            Fault::SessionsFull => StoreError::TooManyTransactions,
            Fault::OutOfMemory => StoreError::OutOfMemory,
            Fault::Device | Fault::Failed => StoreError::Failed,
            fault => StoreError::Refused(fault),
        }
    }
}

impl From<CommitError> for StoreError {
    ghost use Rattle.std.specs.Prelude.{◌≡◌};
    ghost use Rattle.store.specs.Errors.{commit_error};

    ghost from_gives = { λ refused error. error ≡ commit_error refused };

    fn from(refused: CommitError) -> StoreError {
        match refused {
            CommitError::Refused(fault) => StoreError::from(fault),
            CommitError::Open(fault) => StoreError::Unknown(fault),
        }
    }
}

impl From<AllocError> for StoreError {
    ghost use Rattle.std.specs.Prelude.{◌≡◌};
    ghost use Rattle.store.specs.declared.error.StoreError.{StoreError};

    ghost from_gives = { λ _ error. error ≡ StoreError.OutOfMemory };

    fn from(_error: AllocError) -> StoreError {
        StoreError::OutOfMemory
    }
}
