ghost use Rattle.std.specs.Prelude.{◌≡◌, ◌<◌, ◌+◌, IfErr, OnErr, OnOk};
ghost use Rattle.base.specs.Layout.{slot_start, total_words};
ghost use Rattle.pmem.specs.Words.{value_of};
ghost use Rattle.pmem.specs.Trace.{Runs, StopsWithin};
ghost use Rattle.version_slot.specs.Operations.{zero_operations};
ghost use Rattle.collector.specs.Sweeping.{sweep_operations};

use base::SlotNo;
use base::actor::Actor;
use base::fault::Fault;
use base::geometry::Geometry;
use gap_list::GapList;
use pmem::Pmem;

// Stores 0 in the begin and in the end of a slot if they are in a gap. Then flushes its first line, which has both,
// since an older value of theirs that is in a gap may survive.
#[inline(never)]
pub(crate) fn sweep_slot<D: Pmem>(
    device: &mut D,
    geometry: Geometry,
    gaps: &GapList,
    slot: SlotNo,
) -> Result<(), Fault>
    requires slot { slot < geometry.slots }
    requires size { (D.state device.old).words ≡ total_words geometry }
    ensures ok { OnOk result (Runs (sweep_operations geometry gaps.now (value_of (D.state device.old)) slot) (D.state device.old) (D.state device.new)) }
    ensures err { OnErr result (StopsWithin (sweep_operations geometry gaps.now (value_of (D.state device.old)) slot) (D.state device.old) (D.state device.new)) }
    ensures fault { IfErr result (λ fault. fault ≡ Fault.Device) }
{
    let start = geometry.slot_start(slot);
    zero_in_gap(device, gaps, start)?;
    zero_in_gap(device, gaps, start + 1)?;
    device.flush(Actor::COLLECTOR, geometry.slot_line(slot))?;
    Ok(())
}

// Stores 0 in a word if its value is in a gap.
fn zero_in_gap<D: Pmem>(device: &mut D, gaps: &GapList, word: usize) -> Result<(), Fault>
    requires { word < (D.state device.old).words }
    ensures ok { OnOk result (Runs (zero_operations gaps.now word (value_of (D.state device.old) word)) (D.state device.old) (D.state device.new)) }
    ensures err { OnErr result (StopsWithin (zero_operations gaps.now word (value_of (D.state device.old) word)) (D.state device.old) (D.state device.new)) }
    ensures fault { IfErr result (λ fault. fault ≡ Fault.Device) }
    ensures size { (D.state device.new).words ≡ (D.state device.old).words }
{
    if gaps.holds(device.load(word)) {
        device.store(word, 0)?;
    }
    Ok(())
}
