//! Rows by key.
ghost use Rattle.std.specs.Prelude.{◌≡◌, ◌<◌, ℕ, None, false, if◌then◌else◌, length, slice_get, unwrap_or, All, IfOk, IfSome, OnOk, OnErr, MatchBool};
ghost use Rattle.base.specs.declared.key.Key.{Key as KeyOf};
ghost use Rattle.base.specs.Keys.{key_eq, lookup_key};
ghost use Rattle.base.specs.Published.{Published};
ghost use Rattle.board.specs.Cells.{after_commits, is_written};
ghost use Rattle.board.specs.Stored.{Stands};
ghost use Rattle.board.specs.Versions.{Indexed};

use crate::coverage::Coverage;
use crate::versions::{Versions, forget};
use base::batch::{Batch, Commit};
use base::key::Key;
use base::row::Row;
use std::alloc::{AllocError, Global};
use std::collections::BTreeMap;

pub type Rows = BTreeMap<Key, Row>;

/// The key's row.
pub fn row_of(rows: &Rows, key: &Key) -> Option<Row>
    ensures { result ≡ lookup_key rows.now.entries key.now }
{
    rows.get(key).copied()
}

/// A map of the rows.
pub fn rows_of(alloc: Global, given: &[(Key, Row)]) -> Result<Rows, AllocError>
    ensures { IfOk result (λ rows. (k : KeyOf) → lookup_key rows.entries k ≡ lookup_key given.now k) }
{
    let mut rows = BTreeMap::new(alloc);
    let mut left = given.len();
    while left > 0 {
        left -= 1;
        put(&mut rows, given[left].0, Some(given[left].1))?;
    }
    Ok(rows)
}

// Stores the row under the key, or removes the one that is there.
fn put(rows: &mut Rows, key: Key, row: Option<Row>) -> Result<(), AllocError>
    ensures done { OnOk result ((k : KeyOf) → lookup_key rows.new.entries k ≡ (if key_eq key k then row else lookup_key rows.old.entries k)) }
    ensures same { OnErr result (rows.new.entries ≡ rows.old.entries) }
{
    match row {
        Some(row) => match rows.insert(key, row) {
            Ok(_) => Ok(()),
            Err(_) => Err(AllocError),
        },
        None => {
            rows.remove(&key);
            Ok(())
        }
    }
}

// Lays a commit's writes over the rows, as far as memory goes.
fn overlay(rows: &mut Rows, writes: &[(Key, Option<Row>)]) -> Result<(), AllocError>
    ensures done { OnOk result ((k : KeyOf) → lookup_key rows.new.entries k ≡ unwrap_or (lookup_key writes.now k) (lookup_key rows.old.entries k)) }
    ensures others { (k : KeyOf) → lookup_key writes.now k ≡ None → lookup_key rows.new.entries k ≡ lookup_key rows.old.entries k }
{
    let mut left = writes.len();
    while left > 0 {
        left -= 1;
        put(rows, writes[left].0, writes[left].1)?;
    }
    Ok(())
}

/// Lays the commits over the rows, as far as memory goes.
pub fn lay(rows: &mut Rows, commits: &[Commit]) -> Result<(), AllocError>
    ensures done { OnOk result ((k : KeyOf) → lookup_key rows.new.entries k ≡ after_commits k (lookup_key rows.old.entries k) commits.now) }
    ensures others { (k : KeyOf) → is_written k commits.now ≡ false → lookup_key rows.new.entries k ≡ lookup_key rows.old.entries k }
{
    for commit in commits {
        overlay(rows, commit.writes())?;
    }
    Ok(())
}

/// Lays the batches that are not above the floor into the rows, oldest first, and removes their versions. If memory
/// runs out, the others stay. `last` is what the last batch that was laid covers.
pub fn settle(
    rows: &mut Rows,
    versions: &mut Versions,
    batches: &mut Vec<Batch>,
    floor: u64,
    last: &mut Coverage,
) -> Result<(), AllocError>
    ensures rows { (list : Published) → Stands last.old floor rows.old.entries batches.old.items list → Stands last.new floor rows.new.entries batches.new.items list }
    ensures versions { Indexed last.old.stamp versions.old.entries batches.old.items → Indexed last.new.stamp versions.new.entries batches.new.items }
    ensures all { OnOk result (Indexed last.old.stamp versions.old.entries batches.old.items → All (λ batch. floor < batch.stamp) batches.new.items) }
{
    while settle_one(rows, versions, batches, floor, last)? {}
    Ok(())
}

// Lays the first batch into the rows, if it is not above the floor, and returns whether it did.
fn settle_one(
    rows: &mut Rows,
    versions: &mut Versions,
    batches: &mut Vec<Batch>,
    floor: u64,
    last: &mut Coverage,
) -> Result<bool, AllocError>
    ensures rows { (list : Published) → Stands last.old floor rows.old.entries batches.old.items list → Stands last.new floor rows.new.entries batches.new.items list }
    ensures versions { Indexed last.old.stamp versions.old.entries batches.old.items → Indexed last.new.stamp versions.new.entries batches.new.items }
    ensures one { IfOk result (λ laid. MatchBool laid (length batches.new.items < length batches.old.items) (IfSome (slice_get batches.new.items 0) (λ batch. floor < batch.stamp))) }
{
    let Some(batch) = batches.first() else {
        return Ok(false);
    };
    if batch.stamp() > floor {
        return Ok(false);
    }
    lay(rows, batch.commits())?;
    let batch = batches.remove(0);
    forget(versions, batch.stamp(), batch.commits());
    *last = Coverage::after(&batch);
    Ok(true)
}
