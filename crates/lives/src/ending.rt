//! After a crash the device is at rest, and without a fuse: the fuse was only for this life.

ghost use Rattle.std.specs.Prelude.{◌≡◌, Some, IfOk, IfErr};
ghost use Rattle.base.specs.declared.fault.Fault.TheVariants.{OutOfMemory};
ghost use Rattle.base.specs.Images.{log_damage};
ghost use Rattle.machine.specs.Machine.{State};
ghost use Rattle.pmem.specs.Device.{MayLeave};
ghost use Rattle.pmem.specs.Words.{image_of};
ghost use Rattle.pmem_model.specs.Chosen.{IsChosen};
ghost use Rattle.pmem_model.specs.Sim.{device_of, IsWithinLimit};
ghost use Rattle.room.specs.Room.{Shows, device_of as device_in};
ghost use Rattle.lives.specs.Parts.{HasEnded, MayAsk, ruling_numbers};
ghost use Rattle.lives.specs.Plain.{numbers_of, closed_of};
ghost use Rattle.lives.specs.Stops.{ClosesWithDevice, EndsOn, IsRestarted, StopsBy};

use crate::life::Numbers;
use base::fault::Fault;
use log_area::latest;
use pmem_model::{Choice, SimPmem};
use room::Room;

/// Closes the room if that is asked for, and stops the device by a crash with this choice. Returns the numbers after closing, or
/// why it failed, and the device as the crash left it.
pub fn end(
    room: Room<SimPmem>,
    closes: bool,
    choice: &Choice,
) -> Result<(Option<Result<Numbers, Fault>>, SimPmem), Fault>
    ensures ok { IfOk result (λ ended. (q : State) → Shows device_of room q → MayAsk closes q → HasEnded q closes (closed_of ended.0) (image_of (device_of ended.1))) }
    ensures stopped { IfOk result (λ ended. (q : State) → Shows device_of room q
        → StopsBy choice.now (device_in device_of room) (ClosesWithDevice ended.0) (EndsOn q ended.0 (device_in device_of room)) (image_of (device_of ended.1))) }
    ensures rests { IfOk result (λ ended. IsRestarted (device_of ended.1)) }
    ensures fault { IfErr result (λ fault. fault ≡ OutOfMemory) }
{
    if !closes {
        let left = stop(&room.into_device(), choice)?;
        return Ok((None, left));
    }
    match room.close() {
        Ok(device) => {
            let left = stop(&device, choice)?;
            Ok((Some(numbers_on(&left)), left))
        }
        Err((fault, device)) => {
            let left = stop(&device, choice)?;
            Ok((Some(Err(fault)), left))
        }
    }
}

/// The device after a crash with this choice, at rest, and without a fuse. Fails if the device couldn't keep what was
/// done to it for lack of memory, so that an operation failed that no fuse stopped.
pub fn stop(device: &SimPmem, choice: &Choice) -> Result<SimPmem, Fault>
    ensures chosen { IfOk result (λ left. IsChosen choice.now (device_of device.now) (image_of (device_of left))) }
    ensures possible { IfOk result (λ left. MayLeave (device_of device.now) (image_of (device_of left))) }
    ensures within { IfOk result (λ left. IsWithinLimit (device_of device.now)) }
    ensures rests { IfOk result (λ left. IsRestarted (device_of left)) }
    ensures fault { IfErr result (λ fault. fault ≡ OutOfMemory) }
{
    if device.failed_otherwise() {
        return Err(Fault::OutOfMemory);
    }
    device.crash(choice)
}

// The numbers of the record that rules the device's image.
fn numbers_on(device: &SimPmem) -> Result<Numbers, Fault>
    ensures ok { IfOk result (λ numbers. numbers_of numbers ≡ ruling_numbers (image_of (device_of device.now))) }
    ensures fault { IfErr result (λ fault. log_damage (image_of (device_of device.now)) ≡ Some fault) }
{
    match latest(device) {
        Ok(found) => Ok(Numbers {
            gate: found.record.gate(),
            persisted: found.record.persisted(),
            dirty: found.record.dirty(),
        }),
        Err(fault) => Err(fault),
    }
}
