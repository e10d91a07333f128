ghost use Rattle.std.specs.Prelude.{◌≡◌, ◌+◌, ◌*◌, ◌<◌, ◌≤◌, OnOk};
ghost use Rattle.pmem_model.specs.Sim.{device_of};

use base::actor::Actor;
use base::fault::Fault;
use pmem::Pmem;
use pmem_model::SimPmem;

pub const STORES_IN_A_ROUND: u64 = 10;

/// Makes this many rounds, each in the next line of the device. After the last line comes the first.
pub fn make_rounds(device: &mut SimPmem, rounds: u64) -> Result<(), Fault>
    requires { 8 ≤ (device_of device.old).words }
{
    let lines = device.words() / 8;
    for round in 0..rounds {
        make_round(device, round as usize % lines)?;
    }
    Ok(())
}

// Stores in one line, and persists it.
fn make_round(device: &mut SimPmem, line: usize) -> Result<(), Fault>
    requires { 8 * line + 7 < (device_of device.old).words }
    ensures { OnOk result ((device_of device.new).words ≡ (device_of device.old).words) }
{
    for value in 0..STORES_IN_A_ROUND {
        device.store(8 * line + value as usize % 8, value)?;
    }
    device.flush(Actor::COMMITTER, line)?;
    device.fence(Actor::COMMITTER)
}
