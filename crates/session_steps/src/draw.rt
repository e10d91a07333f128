//! A draw decides a conflict: the first to draw a key wins, covered or not, since what is drawn is never taken back. Later
//! timestamps may follow it by then, and the record names what it commits by timestamps up to a bound. So from here on
//! nothing may fail but the device: all that stamps and covering need is taken before the draw changes anything.

ghost use Rattle.std.specs.Prelude.{◌≡◌, ◌<◌, ℕ, true, All, IfErr, OnOk};
ghost use Rattle.base.specs.declared.fault.Fault.TheVariants.{OutOfMemory};
ghost use Rattle.base.specs.declared.key.Key.{Key as KeyValue};
ghost use Rattle.index.specs.Entries.{entry_at, has_room};
ghost use Rattle.simulation.specs.sessions.Sees.{is_unseen};
ghost use Rattle.session_steps.specs.Drawing.{conflict_in};

use crate::active::{bar, find_active};
use crate::sessions::Sessions;
use crate::touching::draw_writes;
use base::Ts;
use base::fault::Fault;
use base::key::Key;
use index::{Entry, Index};
use snapshot::Snapshot;
use txn::{DrawnCommit, Transaction, WriteSet};

// How many entries of the index are looked at for each key that may get one. Entries that say nothing are never more than the
// others for long: when all have been looked at, a fourth as many have been added.
const LOOKS_A_KEY: usize = 4;

/// What the index says about the keys that a transaction has written.
#[derive(Clone, Copy)]
pub struct Asked {
    /// The least key that was last drawn by a commit which the snapshot doesn't cover.
    pub conflict: Option<Key>,
    /// Whether each key has an entry, if none is in conflict.
    pub all_there: bool,
}

impl Sessions {
    ghost use Rattle.std.specs.Prelude.{◌≢◌, ◌+◌, ◌*◌, ◌^◌, nat_eq, nat_le, false, List, [], Some, None};
    ghost use Rattle.base.specs.declared.step.SessionStep.TheVariants.{Draw};
    ghost use Rattle.snapshot.specs.Snapshots.{Seen};
    ghost use Rattle.txn.specs.declared.write.Write.{Write};
    ghost use Rattle.txn.specs.Transactions.{transaction_at};
    ghost use Rattle.txn.specs.declared.transaction.Transaction.TheVariants.{Active as IsActiveWith};
    ghost use Rattle.session_steps.specs.Replies.{drawn};
    ghost use Rattle.session_steps.specs.Steps.{HoldsSome, Takes};

    /// Draws a timestamp for what a session has written, or none if it has written nothing.
    #[inline(never)]
    pub fn draw(&mut self, session: u8) -> Result<Option<Ts>, Fault>
        requires shown { ∥ HoldsSome self.old ∥₁ }
        ensures step { Takes self.old self.new (Draw session) (drawn result) }
    {
        let active = match find_active(&self.transactions, session) {
            Ok(active) => active,
            Err(_) => return Err(bar(&self.transactions, session)),
        };
        if active.writes.is_empty() {
            self.transactions.set(session, Transaction::ReadOnly);
            return Ok(None);
        }
        let asked = ask(&self.index, active.snapshot, active.writes);
        if let Some(key) = asked.conflict {
            return Err(Fault::Conflict(key));
        }
        if self.numbers.is_window_full() {
            return Err(Fault::WindowFull);
        }
        if self.numbers.is_near_limit() {
            return Err(Fault::TimestampsOut);
        }
        if asked.all_there {
            return self.draw_next(session, true);
        }
        let looks = active.writes.as_slice().len().saturating_mul(LOOKS_A_KEY);
        let drawn = self.draw_next(session, false);
        self.settle_next(looks);
        drawn
    }

    // Draws the next timestamp, which only lack of memory can prevent. The growths come before any change: room for the
    // keys in the index, and for the commit among those that are drawn. There is room for the lines since the writes were put.
    #[inline(always)]
    fn draw_next(&mut self, session: u8, all_there: bool) -> Result<Option<Ts>, Fault>
        requires shown { ∥ HoldsSome self.old ∥₁ }
        requires one { (snapshot : Seen) × (writes : List Write) × (transaction_at self.old.transactions session ≡ Some (IsActiveWith snapshot writes)) }
        requires active { (snapshot : Seen) (writes : List Write) → transaction_at self.old.transactions session ≡ Some (IsActiveWith snapshot writes) → (writes ≢ []) × (conflict_in self.old.index snapshot writes ≡ None) }
        requires there { (snapshot : Seen) (writes : List Write) → transaction_at self.old.transactions session ≡ Some (IsActiveWith snapshot writes) → all_there ≡ true → All (λ write. has_room self.old.index write.key ≡ true) writes }
        requires window { nat_eq self.old.numbers.next self.old.numbers.record.dirty ≡ false }
        requires early { nat_le (2 ^ 62) (self.old.numbers.next + 2 * self.old.numbers.geometry.window) ≡ false }
        ensures step { Takes self.old self.new (Draw session) (drawn result) }
    {
        let writes = match find_active(&self.transactions, session) {
            Ok(active) => active.writes,
            Err(_) => unreachable!(),
        };
        match reserve_keys(&mut self.index, writes, all_there) {
            Ok(()) => {}
            Err(_) => return Err(Fault::OutOfMemory),
        }
        match self.drawn.reserve() {
            Ok(()) => {}
            Err(_) => return Err(Fault::OutOfMemory),
        }
        let geometry = self.numbers.geometry;
        let timestamp = self.numbers.draw();
        draw_writes(
            &mut self.dirty,
            &mut self.index,
            session,
            geometry,
            writes,
            timestamp,
        );
        let writes = self.transactions.draw(session, timestamp);
        self.drawn.push(DrawnCommit {
            session,
            timestamp,
            writes,
            stamped: 0,
        });
        Ok(Some(timestamp))
    }
}

// Looks up each key in the index, once if each has an entry.
#[inline(always)]
fn ask(index: &Index, snapshot: &Snapshot, writes: &WriteSet) -> Asked
    ensures conflict { result.conflict ≡ conflict_in index.now snapshot.now writes.now }
    ensures room { result.all_there ≡ true → All (λ write. has_room index.now write.key ≡ true) writes.now }
{
    for write in writes.as_slice() {
        let Some(entry) = index.find(write.key, write.place) else {
            return Asked {
                conflict: conflict(index, snapshot, writes),
                all_there: false,
            };
        };
        if is_last_unseen(snapshot, entry) {
            return Asked {
                conflict: Some(write.key),
                all_there: false,
            };
        }
    }
    Asked {
        conflict: None,
        all_there: true,
    }
}

// The least of the keys that was last drawn by a commit which the snapshot doesn't cover.
#[inline(never)]
fn conflict(index: &Index, snapshot: &Snapshot, writes: &WriteSet) -> Option<Key>
    ensures { result ≡ conflict_in index.now snapshot.now writes.now }
{
    for write in writes.as_slice() {
        if is_last_unseen(snapshot, index.entry(write.key, write.place)) {
            return Some(write.key);
        }
    }
    None
}

// Whether a commit that the snapshot doesn't cover was the last to draw the entry's key.
#[inline(always)]
fn is_last_unseen(snapshot: &Snapshot, entry: Entry) -> bool
    ensures { result ≡ is_unseen snapshot.now entry.last }
{
    match entry.last {
        Some(timestamp) => !snapshot.covers(timestamp),
        None => false,
    }
}

// Makes room in the index for each key that is written, if not all have an entry, and for the hints. All entries stay.
#[inline(always)]
fn reserve_keys(index: &mut Index, writes: &WriteSet, all_there: bool) -> Result<(), Fault>
    requires there { all_there ≡ true → All (λ write. has_room index.old write.key ≡ true) writes.now }
    ensures entries { (key : KeyValue) → entry_at index.new key ≡ entry_at index.old key }
    ensures kept { (key : KeyValue) → has_room index.old key ≡ true → has_room index.new key ≡ true }
    ensures room { OnOk result (All (λ write. has_room index.new write.key ≡ true) writes.now) }
    ensures fault { IfErr result (λ fault. fault ≡ OutOfMemory) }
{
    if !all_there {
        return reserve_each(index, writes);
    }
    match index.widen() {
        Ok(()) => Ok(()),
        Err(fault) => Err(fault),
    }
}

// Makes room in the index for each key that is written. All entries stay.
#[inline(never)]
fn reserve_each(index: &mut Index, writes: &WriteSet) -> Result<(), Fault>
    ensures entries { (key : KeyValue) → entry_at index.new key ≡ entry_at index.old key }
    ensures kept { (key : KeyValue) → has_room index.old key ≡ true → has_room index.new key ≡ true }
    ensures room { OnOk result (All (λ write. has_room index.new write.key ≡ true) writes.now) }
    ensures fault { IfErr result (λ fault. fault ≡ OutOfMemory) }
{
    for write in writes.as_slice() {
        match index.reserve(write.key, write.place) {
            Ok(()) => {}
            Err(fault) => return Err(fault),
        }
    }
    Ok(())
}
