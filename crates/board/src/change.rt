//! The shelf's two copies are changed one after the other, so a change is data and not a call.

use crate::coverage::Coverage;
use base::batch::Batch;
use base::key::Key;
use base::row::Row;

/// The beginning of a list.
#[derive(Drop)]
pub struct Start {
    pub coverage: Coverage,
    pub rows: Vec<(Key, Row)>,
}

/// What a publication changes.
#[derive(Drop)]
pub enum Change {
    /// The first one.
    Begin(Start),
    Add(Batch),
    /// Raises the lowest stamp that may be read to this one, if it is lower.
    Raise(u64),
}

impl Change {
    ghost use Rattle.std.specs.Prelude.{◌≡◌};
    ghost use Rattle.base.specs.Published.{Published};
    ghost use Rattle.board.specs.Changes.{changed};
    ghost use Rattle.board.specs.Lists.{last_coverage};

    /// What a list covers after it.
    pub(crate) fn end(&self, before: &Coverage) -> Coverage
        ensures { (list : Published) → before.now ≡ last_coverage list → result ≡ last_coverage (changed list self.now) }
    {
        match self {
            Change::Begin(_) => *before,
            Change::Add(batch) => Coverage::after(batch),
            Change::Raise(_) => *before,
        }
    }
}
