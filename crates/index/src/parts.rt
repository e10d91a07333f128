//! A read of a range that stops once it has enough rows. It looks at no key behind the one that it reached, and takes memory for these
//! rows alone.

ghost use Rattle.std.specs.Prelude.{◌≡◌, ◌⊎◌, ◌≤◌, ℕ, Bool, true, length, IfOk};
ghost use Rattle.base.specs.Commits.{Tables};
ghost use Rattle.base.specs.Layout.{total_words};
ghost use Rattle.pmem.specs.Words.{image_of};
ghost use Rattle.index.specs.Reading.{CountsAs, ShowsTables, HasRows, ranged, is_between};
ghost use Rattle.index.specs.declared.ranges.KeyRange.TheVariants.{Between};

use crate::map::Index;
use crate::ranges::KeyRange;
use crate::walking::follow;
use base::geometry::Geometry;
use base::key::Key;
use base::row::Row;
use pmem::Pmem;
use snapshot::Snapshot;
use std::alloc::{AllocError, Global};
use std::collections::BTreeMap;

/// The rows from one end of a range to the key that was reached.
#[derive(Drop)]
pub struct Part {
    pub rows: BTreeMap<Key, Row>,
    /// The other end of the range, or the key at which the rows were enough.
    pub reached: Key,
}

impl Index {
    ghost use Rattle.index.specs.Walking.{AreLinked};

    /// The rows that the snapshot sees from the key `first` on, up to `last` or to the key at which there are `limit` of them.
    pub fn first_part<D: Pmem>(
        &self,
        alloc: Global,
        device: &D,
        geometry: Geometry,
        snapshot: &Snapshot,
        first: Key,
        last: Key,
        limit: usize,
    ) -> Result<Part, AllocError>
        requires device { (D.state device.now).words ≡ total_words geometry }

        // If links lead to what is seen, exactly the rows from the first key up to the one that was reached.
        ensures rows { IfOk result (λ part. (counts : ℕ → Bool) (tables : Tables) → CountsAs counts snapshot.now geometry (image_of (D.state device.now)) → AreLinked snapshot.now (image_of (D.state device.now)) self.now → ShowsTables counts geometry (image_of (D.state device.now)) tables → HasRows part.rows (ranged (Between first part.reached) tables)) }

        // It stops before the last key only at one of the range, and only once there are as many rows as asked for.
        ensures reached { IfOk result (λ part. (part.reached ≡ last) ⊎ ((is_between first last part.reached ≡ true) × (limit ≤ length part.rows.entries))) }
    {
        let mut rows = BTreeMap::new(alloc);
        let range = KeyRange::Between { first, last };
        if range.is_empty() {
            return Ok(Part {
                rows,
                reached: last,
            });
        }
        for (key, place) in self.places.range(range.bounds()) {
            let key = key.key();
            let newest = self.entry(key, Some(*place as usize)).newest;
            if let Some(found) = follow(device, geometry, snapshot, newest, key) {
                let Ok(_) = rows.insert(key, found.row) else {
                    return Err(AllocError);
                };
                if limit <= rows.len() {
                    return Ok(Part { rows, reached: key });
                }
            }
        }
        Ok(Part {
            rows,
            reached: last,
        })
    }

    /// The same from the key `last` down: the rows that the snapshot sees down to `first`, or to the key at which there are `limit`.
    pub fn last_part<D: Pmem>(
        &self,
        alloc: Global,
        device: &D,
        geometry: Geometry,
        snapshot: &Snapshot,
        first: Key,
        last: Key,
        limit: usize,
    ) -> Result<Part, AllocError>
        requires device { (D.state device.now).words ≡ total_words geometry }

        // If links lead to what is seen, exactly the rows from the key that was reached up to the last one.
        ensures rows { IfOk result (λ part. (counts : ℕ → Bool) (tables : Tables) → CountsAs counts snapshot.now geometry (image_of (D.state device.now)) → AreLinked snapshot.now (image_of (D.state device.now)) self.now → ShowsTables counts geometry (image_of (D.state device.now)) tables → HasRows part.rows (ranged (Between part.reached last) tables)) }

        // It stops behind the first key only at one of the range, and only once there are as many rows as asked for.
        ensures reached { IfOk result (λ part. (part.reached ≡ first) ⊎ ((is_between first last part.reached ≡ true) × (limit ≤ length part.rows.entries))) }
    {
        let mut rows = BTreeMap::new(alloc);
        let range = KeyRange::Between { first, last };
        if range.is_empty() {
            return Ok(Part {
                rows,
                reached: first,
            });
        }
        for (key, place) in self.places.range(range.bounds()).rev() {
            let key = key.key();
            let newest = self.entry(key, Some(*place as usize)).newest;
            if let Some(found) = follow(device, geometry, snapshot, newest, key) {
                let Ok(_) = rows.insert(key, found.row) else {
                    return Err(AllocError);
                };
                if limit <= rows.len() {
                    return Ok(Part { rows, reached: key });
                }
            }
        }
        Ok(Part {
            rows,
            reached: first,
        })
    }
}
