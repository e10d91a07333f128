//! Rows are below the floor and versions above it, each under its key, so a read is two look-ups however many batches are kept.

ghost use Rattle.board.specs.Rules.{Ends};

use crate::change::Change;
use crate::coverage::Coverage;
use crate::history::{Front, Naming};
use crate::rows::{Rows, row_of, rows_of, settle};
use crate::versions::{Versions, enter, latest};
use base::batch::{Batch, Commit};
use base::fault::Fault;
use base::key::Key;
use base::row::Row;
use left_right::Absorb;
use std::alloc::{AllocError, Global};
use std::marker::Model;

/// A change, and evidence that the history has it: the history up to it.
#[derive(Drop)]
pub struct Step<J: Naming> {
    pub change: Change,
    pub front: Front<J>,
    pub ghost ends: { Ends front change },
}

/// What is published. Contracts see it as the history that made it, which is the book's.
#[derive(Drop)]
pub struct Shelf<J: Naming> {
    // By the last batch that was laid into the rows, or by the rows alone.
    coverage: Coverage,
    rows: Rows,
    versions: Versions,
    batches: Vec<Batch>,
    floor: u64,
    front: Front<J>,
    alloc: Global,
}

impl<J: Naming> Model for Shelf<J> {
    ghost use Rattle.std.specs.Prelude.{List};
    ghost use Rattle.board.specs.declared.change.Change.{Change};

    ghost Value = { List Change };

    ghost use Rattle.board.specs.Changes.{list_of};
    ghost use Rattle.board.specs.Stored.{Stands};
    ghost use Rattle.board.specs.Versions.{Indexed};

    ghost view = { λ s. s.front };

    ghost invariant = { λ s. Stands s.coverage s.floor s.rows.entries s.batches.items (list_of s.front) × Indexed s.coverage.stamp s.versions.entries s.batches.items };
}

impl<J: Naming> Absorb<Step<J>> for Shelf<J> {
    ghost use Rattle.std.specs.Prelude.{[], ◌∷◌, ◌++◌};

    type State = Shelf<J>;

    ghost state = { λ s. s };

    ghost applied = { λ log step. log ++ step.change ∷ [] };

    fn absorb_first(&mut self, step: &Step<J>, _other: &Shelf<J>) -> Result<(), AllocError> {
        if !self.front.is_next(&step.front) {
            return Err(AllocError);
        }
        match &step.change {
            Change::Begin(_) => Err(AllocError),
            Change::Add(batch) => {
                let batch = copy_of(self.alloc, batch)?;
                self.add(batch, &step.front)
            }
            Change::Raise(stamp) => {
                self.raise(*stamp, &step.front);
                Ok(())
            }
        }
    }
}

impl<J: Naming> Shelf<J> {
    ghost use Rattle.std.specs.Prelude.{◌≡◌, ◌≤◌, ◌<◌, ◌++◌, ◌∷◌, [], length, if◌then◌else◌, is_ok, IfOk};
    ghost use Rattle.base.specs.Published.{last_stamp, row_at};
    ghost use Rattle.board.specs.declared.change.Change.TheVariants.{Add, Raise};
    ghost use Rattle.board.specs.Changes.{list_of};
    ghost use Rattle.board.specs.Openings.{opening};
    ghost use Rattle.board.specs.Lists.{last_coverage};
    ghost use Rattle.board.specs.Views.{answer};
    ghost use Rattle.board.specs.Cells.{after_batches};

    /// The rows alone.
    pub(crate) fn new(
        alloc: Global,
        front: Front<J>,
        coverage: &Coverage,
        rows: &[(Key, Row)],
    ) -> Result<Shelf<J>, AllocError>
        requires { list_of front ≡ opening coverage.now rows.now }
        ensures { IfOk result (λ shelf. shelf ≡ front) }
    {
        let rows = rows_of(alloc, rows)?;
        Ok(Shelf {
            coverage: *coverage,
            rows,
            versions: Versions::new(alloc),
            batches: Vec::new(alloc),
            floor: coverage.stamp,
            front,
            alloc,
        })
    }

    // Adds the batch, by which the history goes on to the front.
    fn add(&mut self, batch: Batch, front: &Front<J>) -> Result<(), AllocError>
        requires { front.now ≡ self.old ++ Add batch ∷ [] }
        ensures { self.new ≡ (if is_ok result then front.now else self.old) }
    {
        self.front.is_published();
        front.is_published();
        self.batches.reserve(1)?;
        enter(&mut self.versions, batch.stamp(), batch.commits())?;
        self.batches.push_reserved(batch);
        self.front = front.again();
        Ok(())
    }

    // Raises the floor, by which the history goes on to the front.
    fn raise(&mut self, stamp: u64, front: &Front<J>)
        requires { front.now ≡ self.old ++ Raise stamp ∷ [] }
        ensures { self.new ≡ front.now }
    {
        self.front.is_published();
        self.front = front.again();
        self.floor = self.floor.max(stamp);
        // If memory runs out, a later change lays the rest.
        let _ = settle(
            &mut self.rows,
            &mut self.versions,
            &mut self.batches,
            self.floor,
            &mut self.coverage,
        );
    }

    /// The history that made it.
    pub(crate) fn front(&self) -> &Front<J>
        ensures front { result.now ≡ self.now }
    {
        &self.front
    }

    /// The lowest stamp that may be read.
    pub(crate) fn floor(&self) -> u64
        ensures { result ≡ (list_of self.now).floor }
    {
        self.floor
    }

    /// What is covered at the last stamp.
    pub(crate) fn coverage(&self) -> Coverage
        ensures { result ≡ last_coverage (list_of self.now) }
    {
        match self.batches.last() {
            Some(batch) => Coverage::after(batch),
            None => self.coverage,
        }
    }

    /// The row of the key after the batches up to the stamp, or why there is no answer.
    pub(crate) fn read(&self, stamp: u64, key: &Key) -> Result<Option<Row>, Fault>
        ensures { result ≡ answer (list_of self.now) stamp key.now }
    {
        if stamp < self.floor {
            return Err(Fault::TooOld);
        }
        if self.last() < stamp {
            return Err(Fault::NotYet);
        }
        Ok(self.row(stamp, key))
    }

    /// The last stamp that may be read.
    pub(crate) fn last(&self) -> u64
        ensures { result ≡ last_stamp (list_of self.now) }
    {
        match self.batches.last() {
            Some(batch) => batch.stamp(),
            None => self.coverage.stamp,
        }
    }

    /// The row of the key after the batches up to the stamp.
    pub(crate) fn row(&self, stamp: u64, key: &Key) -> Option<Row>
        requires { (list_of self.now).floor ≤ stamp }
        ensures { result ≡ row_at (list_of self.now) stamp key.now }
    {
        match latest(&self.versions, stamp, key) {
            Some(row) => row,
            None => row_of(&self.rows, key),
        }
    }
}

ghost use Rattle.std.specs.Prelude.{◌≡◌, IfOk};

// A copy of the batch.
fn copy_of(alloc: Global, batch: &Batch) -> Result<Batch, AllocError>
    ensures { IfOk result (λ copy. copy ≡ batch.now) }
{
    let commits = batch.commits().to_vec(alloc)?;
    Ok(Batch::new(
        batch.from(),
        batch.stamp(),
        batch.persisted(),
        batch.longs(),
        commits,
    ))
}
