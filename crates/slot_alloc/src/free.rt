ghost use Rattle.std.specs.Prelude.{◌≡◌, ◌<◌, IfErr, OnErr, OnOk};
ghost use Rattle.base.specs.Layout.{total_words};
ghost use Rattle.pmem.specs.Trace.{Runs, StopsWithin};
ghost use Rattle.version_slot.specs.Operations.{clear_operations};

use base::actor::Actor;
use base::fault::Fault;
use base::geometry::Geometry;
use number_set::NumberSet;
use pmem::Pmem;
use std::alloc::{AllocError, Global};
use std::marker::Model;

/// Which slots are free. Contracts see a truth value for each slot.
#[derive(Drop)]
pub struct SlotAlloc {
    free: NumberSet,
}

impl Model for SlotAlloc {
    ghost use Rattle.std.specs.Prelude.{Bool, List};

    ghost Value = { List Bool };

    ghost view = { λ s. s.free };
}

impl SlotAlloc {
    ghost use Rattle.std.specs.Prelude.{◌≡◌, ◌⊎◌, ◌↔◌, ◌≤◌, ◌<◌, ◌^◌, Bool, true, false, ℕ, List, length, slice_set, Err, None, Some, is_some, IfErr, IfOk, OnErr};
    ghost use Rattle.base.specs.Layout.{slot_start, total_words};
    ghost use Rattle.pmem.specs.Words.{IsSettledAt};
    ghost use Rattle.slot_alloc.specs.Free.{free_count, is_free, lowest_free};
    ghost use Rattle.pmem.specs.Trace.{Runs, StopsWithin};
    ghost use Rattle.version_slot.specs.Operations.{clear_operations};
    ghost use Rattle.base.specs.declared.fault.Fault.TheVariants.{Device, SlotsOut};

    /// The slots that are free, by their numbers.
    pub fn new(alloc: Global, free: &[bool]) -> Result<SlotAlloc, AllocError>
        requires { length free.now < 2 ^ 32 }
        ensures { IfOk result (λ s. s ≡ free.now) }
    {
        let mut slots = NumberSet::new(alloc, free.len())?;
        for (slot, is_free) in free.iter().enumerate() {
            if *is_free {
                slots.insert(slot);
            }
        }
        Ok(SlotAlloc { free: slots })
    }

    /// Whether the slot is free. No slot past the last is free.
    pub fn is_free(&self, slot: u64) -> bool
        ensures { result ≡ is_free self.now slot }
    {
        self.free.contains(slot as usize)
    }

    /// Whether some slot is free.
    pub fn has_free(&self) -> bool
        ensures { result ≡ is_some (lowest_free self.now) }
    {
        self.lowest().is_some()
    }

    /// How many slots are free.
    pub fn free_count(&self) -> u64
        ensures { result ≡ free_count self.now }
    {
        self.free.count() as u64
    }

    // The lowest free slot.
    fn lowest(&self) -> Option<u64>
        ensures { result ≡ lowest_free self.now }
    {
        match self.free.first_from(0) {
            Some(slot) => Some(slot as u64),
            None => None,
        }
    }

    /// Makes a slot free. The others are as before.
    pub fn give(&mut self, slot: u64)
        requires { slot < length self.old }
        ensures { self.new ≡ slice_set self.old slot true }
    {
        self.free.insert(slot as usize);
    }

    /// Takes the lowest free slot, once 0 in its begin is sure to survive a crash.
    pub fn take<D: Pmem>(
        &mut self,
        device: &mut D,
        geometry: Geometry,
        actor: Actor,
    ) -> Result<u64, Fault>
        requires slots { length self.old ≡ geometry.slots }
        requires device { (D.state device.old).words ≡ total_words geometry }

        // The lowest free slot, which alone is taken.
        ensures lowest { IfOk result (λ slot. lowest_free self.old ≡ Some slot) }
        ensures taken { IfOk result (λ slot. self.new ≡ slice_set self.old slot false) }

        // Its begin is settled at 0.
        ensures cleared { IfOk result (λ slot. IsSettledAt (D.state device.new) (slot_start geometry slot) 0) }

        // At Err the free slots are as before. SlotsOut exactly if no slot is free, and then no operation was made. Otherwise the
        // fault is Device.
        ensures err { OnErr result (self.new ≡ self.old) }
        ensures out { (result ≡ Err SlotsOut) ↔ (lowest_free self.old ≡ None) }
        ensures unmoved { result ≡ Err SlotsOut → D.state device.new ≡ D.state device.old }
        ensures fault { IfErr result (λ fault. (fault ≡ SlotsOut) ⊎ (fault ≡ Device)) }

        // Exactly a store of 0 in the slot's begin, a flush of its line and a fence. If the device fails, one of them failed
        // after those before it.
        ensures size { (D.state device.new).words ≡ (D.state device.old).words }
        ensures run { IfOk result (λ slot. Runs (clear_operations geometry actor.number slot) (D.state device.old) (D.state device.new)) }
        ensures stopped { result ≡ Err Device → (slot : ℕ) × (lowest_free self.old ≡ Some slot) × StopsWithin (clear_operations geometry actor.number slot) (D.state device.old) (D.state device.new) }
    {
        let slot = match self.lowest() {
            Some(slot) => slot,
            None => return Err(Fault::SlotsOut),
        };
        match clear(device, geometry, actor, slot) {
            Ok(()) => {}
            Err(fault) => return Err(fault),
        }
        self.free.remove(slot as usize);
        Ok(slot)
    }
}

// Stores 0 in the begin of a slot, and waits until it persists.
fn clear<D: Pmem>(device: &mut D, geometry: Geometry, actor: Actor, slot: u64) -> Result<(), Fault>
    requires slot { slot < geometry.slots }
    requires device { (D.state device.old).words ≡ total_words geometry }
    ensures ok { OnOk result (Runs (clear_operations geometry actor.number slot) (D.state device.old) (D.state device.new)) }
    ensures err { OnErr result (StopsWithin (clear_operations geometry actor.number slot) (D.state device.old) (D.state device.new)) }
    ensures fault { IfErr result (λ fault. fault ≡ Fault.Device) }
{
    let word = geometry.slot_start(slot);
    device.store(word, 0)?;
    device.flush(actor, word / 8)?;
    device.fence(actor)?;
    Ok(())
}
