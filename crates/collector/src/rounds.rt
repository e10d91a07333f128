//! A visit looks at one slot, so that sessions may step between any two. Gaps are dropped only after a whole round and its fence:
//! before that, a crash may still leave in some slot a timestamp that is in a gap.

ghost use Rattle.std.specs.Prelude.{◌≡◌, OnErr, OnOk, IfErr};

use crate::readers::Readers;
use crate::replaced::ReplacedSlots;
use crate::sweeping::sweep_slot;
use crate::visit::Visit;
use base::actor::Actor;
use base::fault::Fault;
use base::geometry::Geometry;
use base::{SlotNo, Ts};
use gap_list::GapList;
use pmem::Pmem;
use slot_alloc::SlotAlloc;

/// The collector's place on its way around the slots, and whether it has completed a round in this life.
#[derive(Clone, Copy, Debug, PartialEq, Eq)]
pub struct Collector {
    place: SlotNo,
    swept: bool,
}

impl Collector {
    ghost use Rattle.std.specs.Prelude.{◌+◌, ◌<◌, ◌≤◌, ◌≢◌, ℕ, length, true, false, Some, slice_get, IfOk};
    ghost use Rattle.base.specs.Layout.{total_words};
    ghost use Rattle.pmem.specs.Words.{value_of};
    ghost use Rattle.pmem.specs.Trace.{Runs, StopsWithin};
    ghost use Rattle.collector.specs.declared.visit.Visit.TheVariants.{Slot, SweepEnd};
    ghost use Rattle.collector.specs.Sweeping.{is_due, slot_operations, end_operations, tick_operations};
    ghost use Rattle.collector.specs.Ticks.{visit_at, moved_on, freed, freed_at};

    /// The collector of a life that begins: at slot 0, and no gap is swept.
    pub fn new() -> Collector
        ensures { result ≡ record { place = 0; swept = false } }
    {
        Collector {
            place: 0,
            swept: false,
        }
    }

    /// Whether the gaps with which the life began are swept.
    pub fn has_swept(&self) -> bool
        ensures { result ≡ self.now.swept }
    {
        self.swept
    }

    /// The place that the next tick visits.
    pub fn place(&self) -> SlotNo
        ensures { result ≡ self.now.place }
    {
        self.place
    }

    // Whether there are gaps that aren't swept.
    #[inline(always)]
    fn is_due(&self, gaps: &GapList) -> bool
        ensures { result ≡ is_due self.now.swept gaps.now }
    {
        !self.swept && !gaps.gaps().as_slice().is_empty()
    }

    /// Visits the next place. While there are gaps that aren't swept, it sweeps the slot, and at the closing place it waits until
    /// that persists. It takes no memory.
    #[inline(always)]
    pub fn tick<D: Pmem, R: Readers>(
        &mut self,
        device: &mut D,
        geometry: Geometry,
        gaps: &GapList,
        slots: &mut SlotAlloc,
        readers: &R,
    ) -> Result<Visit, Fault>
        requires slots { length slots.old ≡ geometry.slots }
        requires size { (D.state device.old).words ≡ total_words geometry }

        // The slot of the place was visited, or the closing place was. The next place is the one after it, and after the closing
        // place it is slot 0, with the gaps swept.
        ensures visit { IfOk result (λ visit. visit ≡ visit_at geometry self.old.place) }
        ensures moved { OnOk result (self.new ≡ moved_on geometry self.old) }

        // A visit frees its slot exactly if the end that it has is covered by all who read. No other slot changes.
        ensures freed { OnOk result (slots.new ≡ freed_at geometry self.old.place (R.covered readers.now) (value_of (D.state device.old)) slots.old) }

        // If there are gaps that aren't swept, exactly the operations of a sweep of the slot, at most three, or the fence at the
        // closing place. Otherwise there are none.
        ensures run { OnOk result (Runs (tick_operations geometry gaps.now self.old.swept self.old.place (value_of (D.state device.old))) (D.state device.old) (D.state device.new)) }

        // At Err one of these operations failed, and only those before it were made. The fault is Device, and neither the
        // collector nor a slot changed.
        ensures fault { IfErr result (λ fault. fault ≡ Fault.Device) }
        ensures stopped { OnErr result (StopsWithin (tick_operations geometry gaps.now self.old.swept self.old.place (value_of (D.state device.old))) (D.state device.old) (D.state device.new)) }
        ensures same { OnErr result (self.new ≡ self.old) }
        ensures kept { OnErr result (slots.new ≡ slots.old) }
    {
        if self.place < geometry.slots() {
            self.visit_slot(device, geometry, gaps, slots, readers)
        } else {
            self.end_sweep(device, gaps)
        }
    }

    /// The same in a life whose gaps are swept: no operation is made, so nothing fails.
    #[inline(always)]
    pub fn visit<D: Pmem, R: Readers>(
        &mut self,
        device: &D,
        geometry: Geometry,
        slots: &mut SlotAlloc,
        readers: &R,
    ) -> Visit
        requires slots { length slots.old ≡ geometry.slots }
        requires size { (D.state device.now).words ≡ total_words geometry }
        ensures visit { result ≡ visit_at geometry self.old.place }
        ensures moved { self.new ≡ moved_on geometry self.old }
        ensures freed { slots.new ≡ freed_at geometry self.old.place (R.covered readers.now) (value_of (D.state device.now)) slots.old }
    {
        let slot = self.place;
        if slot >= geometry.slots() {
            self.place = 0;
            self.swept = true;
            return Visit::SweepEnd;
        }
        match held_end(device, geometry, slots, slot) {
            Some(ended) if readers.cover(ended) => slots.give(slot),
            _ => {}
        }
        self.place += 1;
        Visit::Slot(slot)
    }

    /// Passes slots that weren't replaced, this many at most, up to the next one that was or the closing place. Returns how many.
    pub fn pass(&mut self, replaced: &ReplacedSlots, most: u64) -> u64
        // The place moves on by this number, and nothing else changes. Each place that is passed is a slot that wasn't replaced.
        ensures moved { self.new ≡ record { place = self.old.place + result; swept = self.old.swept } }
        ensures passed { (slot : ℕ) → self.old.place ≤ slot → slot < self.old.place + result → slice_get replaced.now slot ≡ Some false }

        // If they are fewer than the most, the next place isn't such a slot.
        ensures most { result ≤ most }
        ensures stops { result < most → slice_get replaced.now (self.old.place + result) ≢ Some false }
    {
        let next = replaced.next_from(self.place);
        let count = most.min(next.saturating_sub(self.place));
        self.place += count;
        count
    }

    // Visits the slot of the place, and sweeps it if that is due.
    #[inline(always)]
    fn visit_slot<D: Pmem, R: Readers>(
        &mut self,
        device: &mut D,
        geometry: Geometry,
        gaps: &GapList,
        slots: &mut SlotAlloc,
        readers: &R,
    ) -> Result<Visit, Fault>
        requires at { self.old.place < geometry.slots }
        requires slots { length slots.old ≡ geometry.slots }
        requires size { (D.state device.old).words ≡ total_words geometry }
        ensures visit { IfOk result (λ visit. visit ≡ Slot self.old.place) }
        ensures moved { OnOk result (self.new ≡ record { place = self.old.place + 1; swept = self.old.swept }) }
        ensures freed { OnOk result (slots.new ≡ freed geometry self.old.place (R.covered readers.now) (value_of (D.state device.old)) slots.old) }
        ensures run { OnOk result (Runs (slot_operations geometry gaps.now self.old.swept self.old.place (value_of (D.state device.old))) (D.state device.old) (D.state device.new)) }
        ensures fault { IfErr result (λ fault. fault ≡ Fault.Device) }
        ensures stopped { OnErr result (StopsWithin (slot_operations geometry gaps.now self.old.swept self.old.place (value_of (D.state device.old))) (D.state device.old) (D.state device.new)) }
        ensures same { OnErr result (self.new ≡ self.old) }
        ensures kept { OnErr result (slots.new ≡ slots.old) }
    {
        let slot = self.place;
        let ended = held_end(device, geometry, slots, slot);
        if self.is_due(gaps) {
            sweep_slot(device, geometry, gaps, slot)?;
        }
        if let Some(ended) = ended {
            if readers.cover(ended) {
                slots.give(slot);
            }
        }
        self.place += 1;
        Ok(Visit::Slot(slot))
    }

    // Visits the closing place.
    #[inline(never)]
    fn end_sweep<D: Pmem>(&mut self, device: &mut D, gaps: &GapList) -> Result<Visit, Fault>
        ensures visit { IfOk result (λ visit. visit ≡ SweepEnd) }
        ensures moved { OnOk result (self.new ≡ record { place = 0; swept = true }) }
        ensures run { OnOk result (Runs (end_operations gaps.now self.old.swept) (D.state device.old) (D.state device.new)) }
        ensures fault { IfErr result (λ fault. fault ≡ Fault.Device) }
        ensures stopped { OnErr result (StopsWithin (end_operations gaps.now self.old.swept) (D.state device.old) (D.state device.new)) }
        ensures same { OnErr result (self.new ≡ self.old) }
    {
        if self.is_due(gaps) {
            device.fence(Actor::COLLECTOR)?;
        }
        self.place = 0;
        self.swept = true;
        Ok(Visit::SweepEnd)
    }
}

ghost use Rattle.std.specs.Prelude.{◌+◌, ◌<◌, true, IfSome, IfNone};
ghost use Rattle.base.specs.Layout.{slot_start, total_words};
ghost use Rattle.pmem.specs.Words.{value_of};
ghost use Rattle.slot_alloc.specs.Free.{is_free};

// The end of the version that a slot holds. A free slot stays free no matter who reads, so nothing of it is loaded.
#[inline(always)]
fn held_end<D: Pmem>(device: &D, geometry: Geometry, slots: &SlotAlloc, slot: SlotNo) -> Option<Ts>
    requires slot { slot < geometry.slots }
    requires size { (D.state device.now).words ≡ total_words geometry }
    ensures held { IfSome result (λ ended. ended ≡ value_of (D.state device.now) (slot_start geometry slot + 1)) }
    ensures free { IfNone result (is_free slots.now slot ≡ true) }
{
    if slots.is_free(slot) {
        None
    } else {
        Some(device.load(geometry.slot_start(slot) + 1))
    }
}
