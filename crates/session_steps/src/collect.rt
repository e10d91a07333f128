//! A version is free once its end counts for the ruling record and for each open snapshot. By the record alone a slot would be
//! taken from under a reader that began earlier; by the snapshots alone a crash would go back to a record that still reads it.
//!
//! The flushes and fences of a visit are the collector's own. A fence completes the flushes of its actor alone: one for the
//! committer would complete those of the pending batch's cycle before their turn, and a cycle that relied on the collector's would
//! store its gate while lines of its batch may still be lost.

ghost use Rattle.std.specs.Prelude.{◌≡◌, ◌<◌};
ghost use Rattle.base.specs.Layout.{total_words};
ghost use Rattle.index.specs.Entries.{entry_at, forgotten, KeepsRoom, Sets};
ghost use Rattle.version_slot.specs.Words.{key_in, slot_at};
ghost use Rattle.pmem.specs.Words.{value_of};
ghost use Rattle.snapshot.specs.Snapshots.{seen_by};
ghost use Rattle.session_steps.specs.Collecting.{all_cover, each_covers, ForgetsFreed};

use crate::sessions::Sessions;
use base::fault::Fault;
use base::geometry::Geometry;
use base::{SlotNo, Ts};
use collector::{Readers, Visit};
use gap_list::GapList;
use index::Index;
use pmem::Pmem;
use slot_alloc::SlotAlloc;
use snapshot::Numbers;
use txn::{Transaction, Transactions};
use version_slot::key;

/// All who may still read a version: at the ruling record, and at the snapshot of each Active session.
#[derive(Drop)]
pub struct SnapshotsInUse<'a> {
    pub numbers: &'a Numbers,
    pub transactions: &'a Transactions,
}

impl<'a> SnapshotsInUse<'a> {
    // Whether the snapshot of each Active session covers the commit of this timestamp.
    #[inline(always)]
    fn each_covers(&self, ts: Ts) -> bool
        ensures { result ≡ each_covers self.now.transactions.now ts }
    {
        let mut from = 2;
        while let Some(number) = self.transactions.next_active(from) {
            if let Some(Transaction::Active { snapshot, .. }) = self.transactions.get(number) {
                if !snapshot.covers(ts) {
                    return false;
                }
            }
            from = number + 1;
        }
        true
    }
}

impl<'a> Readers for SnapshotsInUse<'a> {
    ghost covered = { λ readers ts. all_cover (seen_by readers.numbers.now.record) readers.transactions.now ts };

    #[inline(never)]
    fn cover(&self, ts: Ts) -> bool {
        self.numbers.record.commits(ts) && self.each_covers(ts)
    }
}

// The index forgets the version in a slot that was visited, if the visit freed it: no entry names a slot that was free before. The
// result is the place of the entry that named it.
#[inline(always)]
fn forget_freed<D: Pmem>(
    index: &mut Index,
    was_free: bool,
    slots: &SlotAlloc,
    device: &D,
    geometry: Geometry,
    slot: SlotNo,
) -> Option<usize>
    requires slot { slot < geometry.slots }
    requires device { (D.state device.now).words ≡ total_words geometry }
    ensures forgets { ForgetsFreed geometry (value_of (D.state device.now)) slot was_free slots.now index.old index.new }
    ensures room { KeepsRoom index.old index.new }
{
    if !was_free && slots.is_free(slot) {
        forget(index, device, geometry, slot)
    } else {
        None
    }
}

// The index forgets the version in a slot. Returns the place of the entry that named it.
#[inline(never)]
fn forget<D: Pmem>(index: &mut Index, device: &D, geometry: Geometry, slot: SlotNo) -> Option<usize>
    requires slot { slot < geometry.slots }
    requires device { (D.state device.now).words ≡ total_words geometry }
    ensures forgets { Sets index.old index.new (key_in (slot_at geometry slot (value_of (D.state device.now)))) (forgotten slot (entry_at index.old (key_in (slot_at geometry slot (value_of (D.state device.now)))))) }
    ensures room { KeepsRoom index.old index.new }
{
    index.forget(key(device, geometry, slot), slot)
}

impl Sessions {
    ghost use Rattle.std.specs.Prelude.{◌≤◌, ◌+◌, true, Ok, IfErr};
    ghost use Rattle.collector.specs.Sweeping.{is_due};
    ghost use Rattle.session_steps.specs.Steps.{ShowsSome};
    ghost use Rattle.session_steps.specs.Collecting.{Collects, Passes, StopsAfter};

    /// Whether the gaps with which the life began are swept.
    pub fn has_swept(&self) -> bool
        ensures { result ≡ self.now.collector.swept }
    {
        self.collector.has_swept()
    }

    /// One visit of the collector. It frees the slot of its place if nobody reads the version any more, and sweeps it if that is
    /// due. It takes no memory, and looks only at the snapshots of the open sessions. A crash within it leaves the history that
    /// was.
    #[inline(always)]
    pub fn collect<D: Pmem>(&mut self, device: &mut D) -> Result<Visit, Fault>
        requires shown { ∥ ShowsSome self.old (D.state device.old) ∥₁ }

        // The machine's own step for every plain state that the sessions show on the device and that hasn't failed. It has the
        // machine's images and its bound on operations, and each flush and fence is the collector's (`Collects`).
        ensures step { Collects self.old self.new (D.state device.old) (D.state device.new) result }

        // At Err the fault is Device.
        ensures fault { IfErr result (λ fault. fault ≡ Fault.Device) }
    {
        if self.collector.has_swept() {
            Ok(self.visit(device))
        } else {
            self.sweep(device)
        }
    }

    // Whether a visit sweeps.
    fn is_sweeping(&self) -> bool
        ensures { result ≡ is_due self.now.collector.swept self.now.numbers.record.gaps }
    {
        !self.collector.has_swept() && !self.numbers.record.gaps().as_slice().is_empty()
    }

    /// Visits at once places whose visits change nothing, this many at most, and returns how many. It takes no memory, and looks at
    /// no slot.
    pub fn pass(&mut self, most: u64) -> u64
        // As many visits as are returned: each is the machine's own step, for every plain state that the sessions show on a device and
        // that hasn't failed, and moves the place on by one (`Passes`).
        ensures passes { Passes self.old self.new result }
        ensures moved { self.new ≡ record self.old { collector = record self.old.collector { place = self.old.collector.place + result } } }

        // It makes the most, unless gaps are to be swept, or it comes to a slot among the replaced ones, or to the closing place.
        ensures most { result ≤ most }
        ensures stops { result < most → StopsAfter self.old result }
    {
        if self.is_sweeping() {
            return 0;
        }
        self.collector.pass(&self.replaced, most)
    }

    // One visit, once the gaps are swept.
    #[inline(always)]
    fn visit<D: Pmem>(&mut self, device: &D) -> Visit
        requires shown { ∥ ShowsSome self.old (D.state device.now) ∥₁ }
        requires swept { self.old.collector.swept ≡ true }
        ensures { Collects self.old self.new (D.state device.now) (D.state device.now) (Ok result) }
    {
        let geometry = self.numbers.geometry;
        let was_free = self.slots.is_free(self.collector.place());
        let readers = SnapshotsInUse {
            numbers: &self.numbers,
            transactions: &self.transactions,
        };
        match self
            .collector
            .visit(device, geometry, &mut self.slots, &readers)
        {
            Visit::Slot(slot) => {
                let place = forget_freed(
                    &mut self.index,
                    was_free,
                    &self.slots,
                    device,
                    geometry,
                    slot,
                );
                self.replaced.leave_free(&self.slots, slot);
                self.settle(place);
                Visit::Slot(slot)
            }
            Visit::SweepEnd => Visit::SweepEnd,
        }
    }

    // One visit before that: the gaps are those that the ruling record names.
    #[inline(never)]
    fn sweep<D: Pmem>(&mut self, device: &mut D) -> Result<Visit, Fault>
        requires shown { ∥ ShowsSome self.old (D.state device.old) ∥₁ }
        ensures step { Collects self.old self.new (D.state device.old) (D.state device.new) result }
        ensures fault { IfErr result (λ fault. fault ≡ Fault.Device) }
    {
        let gaps = GapList::of(self.numbers.record.gaps());
        let geometry = self.numbers.geometry;
        let was_free = self.slots.is_free(self.collector.place());
        let readers = SnapshotsInUse {
            numbers: &self.numbers,
            transactions: &self.transactions,
        };
        match self
            .collector
            .tick(device, geometry, &gaps, &mut self.slots, &readers)
        {
            Ok(Visit::Slot(slot)) => {
                let place = forget_freed(
                    &mut self.index,
                    was_free,
                    &self.slots,
                    device,
                    geometry,
                    slot,
                );
                self.replaced.leave_free(&self.slots, slot);
                self.settle(place);
                Ok(Visit::Slot(slot))
            }
            Ok(Visit::SweepEnd) => Ok(Visit::SweepEnd),
            Err(fault) => Err(fault),
        }
    }
}
