use base::SlotNo;
use number_set::NumberSet;
use slot_alloc::SlotAlloc;
use std::alloc::{AllocError, Global};
use std::marker::Model;

/// Slots that hold a version that was replaced: a visit of any other slot frees nothing. Contracts see a truth value for each slot.
#[derive(Drop)]
pub struct ReplacedSlots {
    slots: NumberSet,
    count: SlotNo,
}

impl Model for ReplacedSlots {
    ghost use Rattle.std.specs.Prelude.{Bool, List, ◌≡◌, length};

    ghost Value = { List Bool };

    ghost view = { λ s. s.slots };

    ghost invariant = { λ s. length s.slots ≡ s.count };
}

impl ReplacedSlots {
    ghost use Rattle.std.specs.Prelude.{◌≡◌, ◌≢◌, ◌≤◌, ◌<◌, ◌^◌, ℕ, Some, false, length, replicate, slice_get, slice_set, if◌then◌else◌, IfOk};
    ghost use Rattle.collector.specs.Replaced.{marked};
    ghost use Rattle.slot_alloc.specs.Free.{is_free};

    /// None of this many slots.
    pub fn none(alloc: Global, count: SlotNo) -> Result<ReplacedSlots, AllocError>
        requires { count < 2 ^ 32 }
        ensures { IfOk result (λ slots. slots ≡ replicate count false) }
    {
        let slots = NumberSet::new(alloc, count as usize)?;
        Ok(ReplacedSlots { slots, count })
    }

    /// Puts the slot in, if one is given and there is one of that number.
    #[inline(always)]
    pub fn mark(&mut self, slot: Option<SlotNo>)
        ensures { self.new ≡ marked slot self.old }
    {
        if let Some(slot) = slot {
            if slot < self.count {
                self.slots.insert(slot as usize);
            }
        }
    }

    /// Takes the slot out, if it is free.
    #[inline(always)]
    pub fn leave_free(&mut self, free: &SlotAlloc, slot: SlotNo)
        ensures { self.new ≡ (if is_free free.now slot then slice_set self.old slot false else self.old) }
    {
        if free.is_free(slot) && slot < self.count {
            self.slots.remove(slot as usize);
        }
    }

    // The first of the slots from this one on, or else the number past the last, or this one if it is greater.
    pub(crate) fn next_from(&self, slot: SlotNo) -> SlotNo
        ensures above { slot ≤ result }
        ensures before { (other : ℕ) → slot ≤ other → other < result → slice_get self.now other ≡ Some false }
        ensures here { slice_get self.now result ≢ Some false }
    {
        match self.slots.first_from(slot as usize) {
            Some(next) => next as u64,
            None => self.count.max(slot),
        }
    }
}
