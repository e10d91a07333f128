//! A life may end at any point, even while opening, and its device is handed on each time: the next life has to open what is
//! left.

ghost use Rattle.std.specs.Prelude.{◌≡◌, IfOk, IfErr};
ghost use Rattle.base.specs.declared.fault.Fault.TheVariants.{OutOfMemory};
ghost use Rattle.machine.specs.Machine.{State};
ghost use Rattle.pmem.specs.Words.{IsAtRest, image_of};
ghost use Rattle.pmem_model.specs.Sim.{device_of};
ghost use Rattle.room.specs.Room.{Shows, device_of as device_in};
ghost use Rattle.lives.specs.Parts.{HasLived, Plays};
ghost use Rattle.lives.specs.Stops.{IsRestarted, IsStopped, LivesOn, ReportsDevice, StopsBy, WhereItStands};

use crate::ending::{end, stop};
use crate::life::{Life, LifeReport, Numbers, Opened};
use crate::obeying::obey;
use base::fault::Fault;
use base::key::Key;
use base::row::Row;
use image_check::check;
use pmem_model::SimPmem;
use room::Room;
use std::alloc::Global;
use std::thread::Threads;

/// One life of the device: its report, and the device as its stop leaves it.
pub fn live<R: Threads + Sync>(
    rt: &R,
    alloc: Global,
    mut device: SimPmem,
    life: &Life,
) -> Result<(LifeReport, SimPmem), Fault>
    requires { IsRestarted (device_of device) }
    ensures ok { IfOk result (λ lived. WhereItStands (image_of (device_of device))
        (λ before. HasLived before life.now lived.0 (image_of (device_of lived.1)) (λ replies. IsStopped life.now lived.0 replies before (image_of (device_of lived.1))))) }
    ensures rests { IfOk result (λ lived. IsRestarted (device_of lived.1)) }
    ensures fault { IfErr result (λ fault. fault ≡ OutOfMemory) }
{
    device.set_fuse(life.fuse);
    live_under_fuse(rt, alloc, device, life)
}

// The same, for a device that has the life's fuse.
fn live_under_fuse<R: Threads + Sync>(
    rt: &R,
    alloc: Global,
    device: SimPmem,
    life: &Life,
) -> Result<(LifeReport, SimPmem), Fault>
    requires { IsAtRest (device_of device) }
    ensures ok { IfOk result (λ lived. WhereItStands (image_of (device_of device))
        (λ before. HasLived before life.now lived.0 (image_of (device_of lived.1))
        (λ replies. StopsBy life.now.choice (device_of device) (ReportsDevice lived.0) (LivesOn (device_of device) before life.now lived.0 replies) (image_of (device_of lived.1))))) }
    ensures rests { IfOk result (λ lived. IsRestarted (device_of lived.1)) }
    ensures fault { IfErr result (λ fault. fault ≡ OutOfMemory) }
{
    let image = device.image()?;
    let checked = check(rt, alloc, image.as_slice());
    match Room::open(rt, alloc, device) {
        Ok(room) => match checked {
            Ok(found) => play(alloc, room, found.rows, life),
            // An image that opens is sound, so only memory can be lacking.
            Err(_) => Err(Fault::OutOfMemory),
        },
        Err((fault, device)) => {
            let left = stop(&device, &life.choice)?;
            Ok((
                LifeReport {
                    opening: Err(fault),
                    replies: Vec::new(alloc),
                    closed: None,
                },
                left,
            ))
        }
    }
}

// The life of a room that has just been opened with these rows.
fn play(
    alloc: Global,
    mut room: Room<SimPmem>,
    rows: Vec<(Key, Row)>,
    life: &Life,
) -> Result<(LifeReport, SimPmem), Fault>
    ensures ok { IfOk result (λ played. (q : State) → Shows device_of room q
        → Plays q (device_in device_of room) rows.items life.now played.0 (image_of (device_of played.1))) }
    ensures rests { IfOk result (λ played. IsRestarted (device_of played.1)) }
    ensures fault { IfErr result (λ fault. fault ≡ OutOfMemory) }
{
    let status = room.status();
    let opened = Opened {
        numbers: Numbers {
            gate: status.gate,
            persisted: status.persisted,
            dirty: status.dirty,
        },
        next: status.next,
        gaps: status.gaps,
        rows,
    };
    let Ok(obeyed) = obey(alloc, &mut room, life.steps.as_slice()) else {
        return Err(Fault::OutOfMemory);
    };
    let (closed, left) = end(room, life.close && !obeyed.failed, &life.choice)?;
    Ok((
        LifeReport {
            opening: Ok(opened),
            replies: obeyed.replies,
            closed,
        },
        left,
    ))
}
