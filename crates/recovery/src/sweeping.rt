//! A record names eight gaps at most. If opening would leave more, each begin and end that is in one becomes 0, and that
//! persists before a record without gaps is written: under a record that drops a gap, a timestamp that is in it would count as
//! committed.

ghost use Rattle.std.specs.Prelude.{◌≡◌, ◌+◌, ◌<◌, ◌||◌, IfOk, IfErr, OnOk, OnErr};
ghost use Rattle.base.specs.Actors.{committer};
ghost use Rattle.base.specs.Layout.{total_words};
ghost use Rattle.base.specs.Records.{opened_gaps};
ghost use Rattle.base.specs.Images.{IsRuledBy};
ghost use Rattle.pmem.specs.Trace.{Runs, StopsWithin};
ghost use Rattle.pmem.specs.Words.{value_of, image_of};
ghost use Rattle.version_slot.specs.Operations.{sweep_operations, zero_operations};
ghost use Rattle.recovery.specs.Gaps.{MayRule};
ghost use Rattle.recovery.specs.Sweeping.{hits, hits_below, whole_sweep};

use crate::gaps::lies_in_gap;
use base::actor::Actor;
use base::fault::Fault;
use base::geometry::Geometry;
use log_area::Record;
use pmem::Pmem;
use std::alloc::{AllocError, Global};

// Whether a sweep stores 0 in each slot.
pub fn hit_slots<D: Pmem>(
    alloc: Global,
    device: &D,
    geometry: Geometry,
    ruling: Record,
) -> Result<Vec<bool>, AllocError>
    requires rules { IsRuledBy geometry ruling (image_of (D.state device.now)) }
    ensures { IfOk result (λ hits. hits.items ≡ hits_below (image_of (D.state device.now)) geometry.slots) }
{
    let mut hits = Vec::new(alloc);
    for slot in 0..geometry.slots() {
        hits.push(is_hit(device, geometry, ruling, slot))?;
    }
    Ok(hits)
}

// Whether it does in this one.
fn is_hit<D: Pmem>(device: &D, geometry: Geometry, ruling: Record, slot: u64) -> bool
    requires rules { IsRuledBy geometry ruling (image_of (D.state device.now)) }
    requires slot { slot < geometry.slots }
    ensures { result ≡ hits (image_of (D.state device.now)) slot }
{
    let begin = version_slot::begin(device, geometry, slot);
    let end = version_slot::end(device, geometry, slot);
    lies_in_gap(ruling, begin) || lies_in_gap(ruling, end)
}

/// Stores 0 in each begin and each end that is in a gap with which the image is opened, flushes the first lines of
/// these slots, which have both, and waits until that persists. It reads no other slot.
pub fn sweep<D: Pmem>(
    device: &mut D,
    geometry: Geometry,
    ruling: Record,
    hits: &[bool],
) -> Result<(), Fault>
    requires rules { IsRuledBy geometry ruling (image_of (D.state device.old)) }
    requires hits { hits.now ≡ hits_below (image_of (D.state device.old)) geometry.slots }
    ensures run { OnOk result (Runs (whole_sweep geometry ruling (value_of (D.state device.old))) (D.state device.old) (D.state device.new)) }
    ensures stopped { OnErr result (StopsWithin (whole_sweep geometry ruling (value_of (D.state device.old))) (D.state device.old) (D.state device.new)) }
    ensures fault { IfErr result (λ fault. fault ≡ Fault.Device) }
{
    for slot in 0..geometry.slots() {
        if hits[slot as usize] {
            sweep_slot(device, geometry, ruling, slot)?;
        }
    }
    device.fence(Actor::COMMITTER)?;
    Ok(())
}

// Stores 0 in the begin and in the end of a slot if they are in a gap, and then flushes its first line.
fn sweep_slot<D: Pmem>(
    device: &mut D,
    geometry: Geometry,
    ruling: Record,
    slot: u64,
) -> Result<(), Fault>
    requires may_rule { MayRule ruling }
    requires size { (D.state device.old).words ≡ total_words geometry }
    requires slot { slot < geometry.slots }
    ensures run { OnOk result (Runs (sweep_operations geometry committer (opened_gaps ruling) (value_of (D.state device.old)) slot) (D.state device.old) (D.state device.new)) }
    ensures stopped { OnErr result (StopsWithin (sweep_operations geometry committer (opened_gaps ruling) (value_of (D.state device.old)) slot) (D.state device.old) (D.state device.new)) }
    ensures fault { IfErr result (λ fault. fault ≡ Fault.Device) }
{
    let start = geometry.slot_start(slot);
    zero_in_gap(device, ruling, start)?;
    zero_in_gap(device, ruling, start + 1)?;
    device.flush(Actor::COMMITTER, geometry.slot_line(slot))?;
    Ok(())
}

// Stores 0 in a word that is in a gap.
fn zero_in_gap<D: Pmem>(device: &mut D, ruling: Record, word: usize) -> Result<(), Fault>
    requires may_rule { MayRule ruling }
    requires within { word < (D.state device.old).words }
    ensures run { OnOk result (Runs (zero_operations (opened_gaps ruling) word (value_of (D.state device.old) word)) (D.state device.old) (D.state device.new)) }
    ensures stopped { OnErr result (StopsWithin (zero_operations (opened_gaps ruling) word (value_of (D.state device.old) word)) (D.state device.old) (D.state device.new)) }
    ensures fault { IfErr result (λ fault. fault ≡ Fault.Device) }
    ensures size { (D.state device.new).words ≡ (D.state device.old).words }
{
    if lies_in_gap(ruling, device.load(word)) {
        device.store(word, 0)?;
    }
    Ok(())
}
