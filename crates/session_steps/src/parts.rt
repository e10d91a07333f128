//! Reads that return a part of what a scan does. They look at as many rows as they return, and at one more for each own write of the
//! session: an own deletion takes at most one row away.

ghost use Rattle.std.specs.Prelude.{◌≡◌, ◌⊎◌, ◌≤◌, ◌+◌, ◌-◌, ◌^◌, ℕ, Bool, true, length, min, take, reverse, IfOk};
ghost use Rattle.base.specs.Commits.{Lists, Tables, overlaid};
ghost use Rattle.base.specs.Layout.{total_words};
ghost use Rattle.pmem.specs.Words.{image_of};
ghost use Rattle.txn.specs.WriteSets.{plain_writes};
ghost use Rattle.index.specs.Walking.{AreLinked};
ghost use Rattle.index.specs.Reading.{CountsAs, ShowsTables, ranged, is_between};
ghost use Rattle.index.specs.declared.ranges.KeyRange.TheVariants.{Between};

use crate::active::active_in;
use crate::scan::lay_over;
use crate::sessions::Sessions;
use base::fault::Fault;
use base::key::Key;
use base::row::Row;
use base::rows::Rows;
use index::{KeyRange, listed};
use pmem::Pmem;
use snapshot::Snapshot;
use std::alloc::AllocError;
use txn::WriteSet;

/// The rows of a range up to the key that was reached.
#[derive(Drop)]
pub struct Page {
    pub rows: Rows,
    /// The last key of the range, or the one at which there were enough rows: a read goes on behind it.
    pub reached: Key,
}

// The same, as a list.
#[derive(Drop)]
struct Seen {
    rows: Vec<(Key, Row)>,
    reached: Key,
}

impl Sessions {
    ghost use Rattle.base.specs.declared.step.Step.TheVariants.{Scan};
    ghost use Rattle.session_steps.specs.Shows.{Hidden, plain_of};
    ghost use Rattle.session_steps.specs.Steps.{HoldsOn, HoldsSomeOn};
    ghost use Rattle.session_steps.specs.Reads.{WouldReply, ReadsPage, first_of, last_of};

    /// The first of the rows that `scan` returns, at most `limit`.
    #[inline(never)]
    pub fn first_rows<D: Pmem>(
        &self,
        device: &D,
        session: u8,
        table: u16,
        lo: u64,
        hi: u64,
        limit: usize,
    ) -> Result<Rows, Fault>
        requires shown { ∥ HoldsSomeOn self.now (D.state device.now) ∥₁ }

        // The first rows of the reply to such a Scan, or its refusal.
        ensures { (h : Hidden) → HoldsOn self.now h (D.state device.now) → WouldReply (plain_of self.now h) (Scan session table lo hi) (first_of limit) result }
    {
        let active = match active_in(&self.transactions, session) {
            Ok(active) => active,
            Err(fault) => return Err(fault),
        };
        let first = Key { table, key: lo };
        let last = Key { table, key: hi };
        match self.first_seen(device, active.snapshot, active.writes, first, last, limit) {
            Ok(seen) => Ok(first_of(seen.rows, limit)),
            Err(_) => Err(Fault::OutOfMemory),
        }
    }

    /// The last of the rows that `scan` returns, at most `limit`, the last one first.
    #[inline(never)]
    pub fn last_rows<D: Pmem>(
        &self,
        device: &D,
        session: u8,
        table: u16,
        lo: u64,
        hi: u64,
        limit: usize,
    ) -> Result<Rows, Fault>
        requires shown { ∥ HoldsSomeOn self.now (D.state device.now) ∥₁ }

        // The last rows of the reply to such a Scan, the last one first, or its refusal.
        ensures { (h : Hidden) → HoldsOn self.now h (D.state device.now) → WouldReply (plain_of self.now h) (Scan session table lo hi) (last_of limit) result }
    {
        let active = match active_in(&self.transactions, session) {
            Ok(active) => active,
            Err(fault) => return Err(fault),
        };
        let first = Key { table, key: lo };
        let last = Key { table, key: hi };
        match self.last_seen(device, active.snapshot, active.writes, first, last, limit) {
            Ok(seen) => Ok(last_of(seen.rows, limit)),
            Err(_) => Err(Fault::OutOfMemory),
        }
    }

    /// The rows that the session sees from the key `first` on, in all tables, up to `last` or to a key at which there are `limit`.
    #[inline(never)]
    pub fn page<D: Pmem>(
        &self,
        device: &D,
        session: u8,
        first: Key,
        last: Key,
        limit: usize,
    ) -> Result<Page, Fault>
        requires shown { ∥ HoldsSomeOn self.now (D.state device.now) ∥₁ }

        // All rows up to the key that was reached, or the refusal of a Scan.
        ensures { (h : Hidden) → HoldsOn self.now h (D.state device.now) → ReadsPage (plain_of self.now h) session first last limit result }
    {
        let active = match active_in(&self.transactions, session) {
            Ok(active) => active,
            Err(fault) => return Err(fault),
        };
        match self.first_seen(device, active.snapshot, active.writes, first, last, limit) {
            Ok(seen) => Ok(Page {
                rows: Rows::new(seen.rows),
                reached: seen.reached,
            }),
            Err(_) => Err(Fault::OutOfMemory),
        }
    }

    // The rows of the snapshot from the first key on, with the session's own writes laid over them, at least `limit` of them
    // unless the last key is reached.
    fn first_seen<D: Pmem>(
        &self,
        device: &D,
        snapshot: &Snapshot,
        writes: &WriteSet,
        first: Key,
        last: Key,
        limit: usize,
    ) -> Result<Seen, AllocError>
        requires device { (D.state device.now).words ≡ total_words self.now.numbers.geometry }
        ensures rows { IfOk result (λ seen. (counts : ℕ → Bool) (tables : Tables) → CountsAs counts snapshot.now self.now.numbers.geometry (image_of (D.state device.now)) → AreLinked snapshot.now (image_of (D.state device.now)) self.now.index → ShowsTables counts self.now.numbers.geometry (image_of (D.state device.now)) tables → Lists seen.rows.items (ranged (Between first seen.reached) (overlaid (plain_writes writes.now) tables))) }
        ensures reached { IfOk result (λ seen. (seen.reached ≡ last) ⊎ ((is_between first last seen.reached ≡ true) × (limit ≤ length seen.rows.items))) }
    {
        let geometry = self.numbers.geometry;
        let enough = enough(limit, writes);
        let part = self.index.first_part(
            self.alloc, device, geometry, snapshot, first, last, enough,
        );
        let mut part = match part {
            Ok(part) => part,
            Err(fault) => return Err(fault),
        };
        let reached = part.reached;
        let _looked_at = part.rows.len();
        let range = KeyRange::Between {
            first,
            last: reached,
        };
        match lay_over(&mut part.rows, writes, range) {
            Ok(()) => {}
            Err(fault) => return Err(fault),
        }
        match listed(self.alloc, part.rows) {
            Ok(rows) => Ok(Seen { rows, reached }),
            Err(fault) => Err(fault),
        }
    }

    // The same from the last key down.
    fn last_seen<D: Pmem>(
        &self,
        device: &D,
        snapshot: &Snapshot,
        writes: &WriteSet,
        first: Key,
        last: Key,
        limit: usize,
    ) -> Result<Seen, AllocError>
        requires device { (D.state device.now).words ≡ total_words self.now.numbers.geometry }
        ensures rows { IfOk result (λ seen. (counts : ℕ → Bool) (tables : Tables) → CountsAs counts snapshot.now self.now.numbers.geometry (image_of (D.state device.now)) → AreLinked snapshot.now (image_of (D.state device.now)) self.now.index → ShowsTables counts self.now.numbers.geometry (image_of (D.state device.now)) tables → Lists seen.rows.items (ranged (Between seen.reached last) (overlaid (plain_writes writes.now) tables))) }
        ensures reached { IfOk result (λ seen. (seen.reached ≡ first) ⊎ ((is_between first last seen.reached ≡ true) × (limit ≤ length seen.rows.items))) }
    {
        let geometry = self.numbers.geometry;
        let enough = enough(limit, writes);
        let part = self.index.last_part(
            self.alloc, device, geometry, snapshot, first, last, enough,
        );
        let mut part = match part {
            Ok(part) => part,
            Err(fault) => return Err(fault),
        };
        let reached = part.reached;
        let _looked_at = part.rows.len();
        let range = KeyRange::Between {
            first: reached,
            last,
        };
        match lay_over(&mut part.rows, writes, range) {
            Ok(()) => {}
            Err(fault) => return Err(fault),
        }
        match listed(self.alloc, part.rows) {
            Ok(rows) => Ok(Seen { rows, reached }),
            Err(fault) => Err(fault),
        }
    }
}

// How many rows to read, so that `limit` of them are left if each own write takes one away.
fn enough(limit: usize, writes: &WriteSet) -> usize
    ensures { result ≡ min (limit + length writes.now) (2 ^ 64 - 1) }
{
    limit.saturating_add(writes.as_slice().len())
}

// The first rows of the list, at most `limit`.
fn first_of(mut rows: Vec<(Key, Row)>, limit: usize) -> Rows
    ensures { result ≡ take limit rows.items }
{
    rows.truncate(limit);
    Rows::new(rows)
}

// The last rows of the list, at most `limit`, the last one first.
fn last_of(mut rows: Vec<(Key, Row)>, limit: usize) -> Rows
    ensures { result ≡ take limit (reverse rows.items) }
{
    rows.as_mut_slice().reverse();
    rows.truncate(limit);
    Rows::new(rows)
}
