ghost use Rattle.std.specs.Prelude.{ℕ, ◌≡◌, ◌+◌, ◌-◌, ◌^◌, ◌<◌, ◌≤◌, [], ◌∷◌, length, slice_index, IfErr, OnErr, OnOk, Some};
ghost use Rattle.base.specs.Layout.{row_limit, total_words};
ghost use Rattle.pmem.specs.Persisting.{store_operations};
ghost use Rattle.pmem.specs.Words.{value_of};
ghost use Rattle.pmem.specs.Trace.{store_op, Runs, StopsWithin};
ghost use Rattle.version_slot.specs.Operations.{begin_operations, end_operations, fill_operations};
ghost use Rattle.version_slot.specs.Words.{IsVersion, filled_word, link_number, slot_at};

use crate::words::Version;
use base::fault::Fault;
use base::geometry::Geometry;
use pmem::{Pmem, store_all};

/// Stores 0 in a slot's end and then a version in the words after it, to the slot's last: 7 stores, and 8 more for each
/// further line of a slot. The begin stays.
#[tactic(auto, unfolding(base::specs::Layout::most_slots))]
#[inline(always)]
pub fn fill<D: Pmem>(
    device: &mut D,
    geometry: Geometry,
    slot: u64,
    version: &Version,
) -> Result<(), Fault>
    requires slot { slot < geometry.slots }
    requires row { length version.now.row ≤ row_limit geometry.version }
    requires previous { link_number version.now.previous ≤ geometry.slots }
    requires device { (D.state device.old).words ≡ total_words geometry }

    // The words hold the version, with no end.
    ensures version { OnOk result (IsVersion geometry (slot_at geometry slot (value_of (D.state device.new))) version.now) }

    // At Err the fault is Device.
    ensures fault { IfErr result (λ fault. fault ≡ Fault.Device) }

    ensures size { (D.state device.new).words ≡ (D.state device.old).words }

    // Exactly the words after the begin are stored in order, and nothing else is done to the device. At Err the first few of
    // them were stored, then one operation failed.
    ensures run { OnOk result (Runs (fill_operations geometry slot version.now) (D.state device.old) (D.state device.new)) }
    ensures stopped { OnErr result (StopsWithin (fill_operations geometry slot version.now) (D.state device.old) (D.state device.new)) }
{
    if geometry.slot_words() == 8 {
        // These words are few, so each store is by itself.
        let words = version.line_words();
        store_all(device, geometry.slot_start(slot) + 1, &words)
    } else {
        let count = geometry.slot_words() as usize;
        store_lines(device, geometry.slot_start(slot) + 1, version, count)
    }
}

// Stores the words of a slot of `count` words that is filled with the version, in the words from `first` on.
#[cold]
#[inline(never)]
fn store_lines<D: Pmem>(
    device: &mut D,
    first: usize,
    version: &Version,
    count: usize,
) -> Result<(), Fault>
    requires count { (4 ≤ count) × (count ≤ 64) }
    requires link { link_number version.now.previous < 2 ^ 32 }
    requires fits { first + (count - 1) < 2 ^ 64 }
    requires device { first + (count - 1) ≤ (D.state device.old).words }
    ensures run { OnOk result (Runs (store_operations first (λ k. filled_word version.now (k + 1)) (count - 1)) (D.state device.old) (D.state device.new)) }
    ensures stopped { OnErr result (StopsWithin (store_operations first (λ k. filled_word version.now (k + 1)) (count - 1)) (D.state device.old) (D.state device.new)) }
    ensures fault { IfErr result (λ fault. fault ≡ Fault.Device) }
    ensures size { (D.state device.new).words ≡ (D.state device.old).words }
    ensures table { version.now.key.table < 2 ^ 16 }
    ensures bytes { (i : ℕ) → slice_index version.now.row i < 2 ^ 8 }
{
    // In one place, since an array is large to pass on.
    let mut words = [0; 64];
    version.put_words(count, &mut words);
    store_all(device, first, &words[1..count])
}

/// Stores the timestamp of the commit that wrote the slot's version.
#[inline(always)]
pub fn stamp_begin<D: Pmem>(
    device: &mut D,
    geometry: Geometry,
    slot: u64,
    timestamp: u64,
) -> Result<(), Fault>
    requires slot { slot < geometry.slots }
    requires device { (D.state device.old).words ≡ total_words geometry }

    // At Err the fault is Device.
    ensures fault { IfErr result (λ fault. fault ≡ Fault.Device) }

    ensures size { (D.state device.new).words ≡ (D.state device.old).words }

    // The one word is stored and nothing else is done, or one operation failed and nothing was done.
    ensures run { OnOk result (Runs (begin_operations geometry (Some slot) timestamp) (D.state device.old) (D.state device.new)) }
    ensures stopped { OnErr result (StopsWithin (begin_operations geometry (Some slot) timestamp) (D.state device.old) (D.state device.new)) }
{
    store_one(device, geometry.slot_start(slot), timestamp)
}

/// Stores the timestamp of the commit that replaced the slot's version.
#[inline(always)]
pub fn stamp_end<D: Pmem>(
    device: &mut D,
    geometry: Geometry,
    slot: u64,
    timestamp: u64,
) -> Result<(), Fault>
    requires slot { slot < geometry.slots }
    requires device { (D.state device.old).words ≡ total_words geometry }

    // At Err the fault is Device.
    ensures fault { IfErr result (λ fault. fault ≡ Fault.Device) }

    ensures size { (D.state device.new).words ≡ (D.state device.old).words }

    // The one word is stored and nothing else is done, or one operation failed and nothing was done.
    ensures run { OnOk result (Runs (end_operations geometry (Some slot) timestamp) (D.state device.old) (D.state device.new)) }
    ensures stopped { OnErr result (StopsWithin (end_operations geometry (Some slot) timestamp) (D.state device.old) (D.state device.new)) }
{
    store_one(device, geometry.slot_start(slot) + 1, timestamp)
}

// Stores one word.
#[inline(always)]
fn store_one<D: Pmem>(device: &mut D, word: usize, value: u64) -> Result<(), Fault>
    requires { word < (D.state device.old).words }
    ensures fault { IfErr result (λ fault. fault ≡ Fault.Device) }
    ensures size { (D.state device.new).words ≡ (D.state device.old).words }
    ensures run { OnOk result (Runs (store_op word value ∷ []) (D.state device.old) (D.state device.new)) }
    ensures stopped { OnErr result (StopsWithin (store_op word value ∷ []) (D.state device.old) (D.state device.new)) }
{
    match device.store(word, value) {
        Ok(()) => Ok(()),
        Err(fault) => Err(fault),
    }
}
