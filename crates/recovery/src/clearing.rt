//! All records and slots are 0 before a format writes the first record: what the device held there before could be taken for
//! records and versions.

ghost use Rattle.std.specs.Prelude.{◌≡◌, ◌+◌, ◌*◌, ◌/◌, ◌^◌, ◌<◌, ◌≤◌, IfErr, OnOk, OnErr};
ghost use Rattle.base.specs.Actors.{committer};
ghost use Rattle.pmem.specs.Persisting.{flush_operations, store_operations};
ghost use Rattle.pmem.specs.Trace.{Runs, StopsWithin};
ghost use Rattle.recovery.specs.Fresh.{clear_operations};

use base::actor::Actor;
use base::fault::Fault;
use pmem::Pmem;

// Stores 0 in each word after the superblock, and waits until that persists.
pub fn clear<D: Pmem>(device: &mut D) -> Result<(), Fault>
    requires some { 8 ≤ (D.state device.old).words }
    ensures run { OnOk result (Runs (clear_operations (D.state device.old).words) (D.state device.old) (D.state device.new)) }
    ensures stopped { OnErr result (StopsWithin (clear_operations (D.state device.old).words) (D.state device.old) (D.state device.new)) }
    ensures fault { IfErr result (λ fault. fault ≡ Fault.Device) }
{
    let words = device.words();
    store_zeros(device, 8, words - 8)?;
    flush_lines(device, 1, words / 8 - 1)?;
    device.fence(Actor::COMMITTER)?;
    Ok(())
}

// Stores 0 in this many words from the first on.
fn store_zeros<D: Pmem>(device: &mut D, first: usize, count: usize) -> Result<(), Fault>
    requires fits { first + count < 2 ^ 64 }
    requires within { first + count ≤ (D.state device.old).words }
    ensures run { OnOk result (Runs (store_operations first (λ k. 0) count) (D.state device.old) (D.state device.new)) }
    ensures stopped { OnErr result (StopsWithin (store_operations first (λ k. 0) count) (D.state device.old) (D.state device.new)) }
    ensures fault { IfErr result (λ fault. fault ≡ Fault.Device) }
{
    for k in 0..count {
        device.store(first + k, 0)?;
    }
    Ok(())
}

// Flushes this many lines from the first on.
fn flush_lines<D: Pmem>(device: &mut D, first: usize, count: usize) -> Result<(), Fault>
    requires fits { first + count < 2 ^ 64 }
    requires within { 8 * (first + count) ≤ (D.state device.old).words }
    ensures run { OnOk result (Runs (flush_operations committer first count) (D.state device.old) (D.state device.new)) }
    ensures stopped { OnErr result (StopsWithin (flush_operations committer first count) (D.state device.old) (D.state device.new)) }
    ensures fault { IfErr result (λ fault. fault ≡ Fault.Device) }
{
    for k in 0..count {
        device.flush(Actor::COMMITTER, first + k)?;
    }
    Ok(())
}
