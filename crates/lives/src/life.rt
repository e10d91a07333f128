//! A life is data, so that one can be written down, made at random or cut shorter.

use base::Ts;
use base::fault::Fault;
use base::gap::Gaps;
use base::key::Key;
use base::row::Row;
use base::step::{Reply, Step};
use pmem_model::Choice;

/// A step, and how often it is to be taken.
#[derive(Clone, Copy)]
pub struct Repeated {
    pub step: Step,
    pub times: u64,
}

/// What is asked of a life.
#[derive(Drop)]
pub struct Life {
    /// They are taken, each as often as it says, up to the first in which the device fails.
    pub steps: Vec<Repeated>,
    /// Is the room closed after the steps?
    pub close: bool,
    /// After that many operations, counted from the life's first, the device fails. `None`: it doesn't.
    pub fuse: Option<u64>,
    /// Which survivor of each word the stop leaves.
    pub choice: Choice,
}

/// The numbers of a record.
#[derive(Clone, Copy, Debug, PartialEq, Eq)]
pub struct Numbers {
    pub gate: u64,
    pub persisted: Ts,
    pub dirty: Ts,
}

/// What opening gave.
#[derive(Debug, Drop)]
pub struct Opened {
    pub numbers: Numbers,
    /// The timestamp that is drawn next.
    pub next: Ts,
    pub gaps: Gaps,
    /// The rows of the tables, by rising key.
    pub rows: Vec<(Key, Row)>,
}

/// The report of a life.
#[derive(Debug, Drop)]
pub struct LifeReport {
    pub opening: Result<Opened, Fault>,
    /// For each of the steps, up to the one in which the device failed: the reply to the last time it was taken, which
    /// is that of the first time that it was refused or found nothing to do. `None`: it was to be taken zero times.
    pub replies: Vec<Option<Reply>>,
    /// The numbers after closing, or its fault. `None`: closing wasn't asked for, or the device failed before.
    pub closed: Option<Result<Numbers, Fault>>,
}
