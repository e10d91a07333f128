ghost use Rattle.std.specs.Prelude.{◌≡◌, ◌<◌, ◌≤◌, IfOk, length};
ghost use Rattle.base.specs.Layout.{layout_with, plain_version};
ghost use Rattle.pmem_model.specs.Sim.{device_of};

use crate::fixture::{device_after, fresh, leave, make_each, opened};
use asks::Ask::{Begin, End, Put};
use asks::{ONE_LINE_COVERED, Past, THREE_LINES_COVERED, steps};
use base::actor::Actor;
use base::fault::Fault;
use base::geometry::Geometry;
use base::key::Key;
use base::step::Step;
use pmem::Pmem;
use pmem_model::SimPmem;
use recovery::{OpenedSlot, open};
use room::{Room, Visit};
use slot_alloc::SlotAlloc;
use std::alloc::Global;
use std::process::Abort;

// Four slots and two places.
fn geometry() -> Result<Geometry, Fault>
    ensures { IfOk result (λ geometry. geometry ≡ layout_with plain_version 4 2 8) }
{
    Geometry::new(4, 2, 8)
}

fn zeroed(alloc: Global) -> Result<SimPmem, Fault>
    ensures { IfOk result (λ device. (device_of device).words ≡ 104) }
{
    SimPmem::from_words(alloc, &[0; 104])
}

// Takes a slot of the device.
#[tactic(auto, unfolding(base::specs::Layout::slot_words, base::specs::Layout::slot_lines))]
fn take(device: &mut SimPmem, slots: &mut SlotAlloc) -> Result<u64, Fault>
    requires words { (device_of device.old).words ≡ 104 }
    requires slots { length slots.old ≡ 4 }
    ensures words { (device_of device.new).words ≡ 104 }
    ensures slots { length slots.new ≡ 4 }
{
    slots.take(device, geometry()?, Actor::session(2))
}

#[test]
fn taken_slot_is_cleared(rt: HostRuntime) -> Result<(), Fault> {
    let mut device = zeroed(rt.alloc())?;
    let free = [false, true, false, true];
    let mut slots = SlotAlloc::new(rt.alloc(), &free).or(Err(Fault::OutOfMemory))?;
    device.store(80, 9)?;
    assert!(rt; device.survivors(80) == 2);
    assert!(rt; take(&mut device, &mut slots) == Ok(1));
    assert!(rt; (device.survivors(80), device.load(80)) == (1, 0));
    Ok(())
}

// A version of key 7 in slot 0 that one in slot 1 replaces, with which slot 2 gets a version of key 8; slot 3 is free.
const REPLACED: Past = (
    &[
        &[Begin, Put(2, 7, 1)],
        ONE_LINE_COVERED,
        &[End(2), Begin, Put(2, 7, 2), Put(2, 8, 3)],
        THREE_LINES_COVERED,
    ],
    false,
);

#[test]
fn opening_lists_the_live_slots(rt: HostRuntime) -> Result<(), Fault> {
    let stopped = device_after(&rt, rt.alloc(), fresh(rt.alloc(), 4, 8)?, &[REPLACED])?;
    assert!(rt; stopped.at_rest());
    let opened = match open(&rt, rt.alloc(), stopped) {
        Ok(opened) => opened,
        Err((fault, _device)) => return Err(fault),
    };
    let live = |key, slot| OpenedSlot {
        key: Key { table: 1, key },
        slot,
        begin: 2,
    };
    assert!(rt; opened.live.as_slice() == [live(7, 1), live(8, 2)].as_slice());
    Ok(())
}

fn assert_visits(rt: &impl Abort, room: &mut Room<SimPmem>, steps: &[Step]) {
    assert!(rt; room.pass(9) == 4);
    assert!(rt; room.collect() == Ok(Visit::SweepEnd));
    make_each(rt, room, steps);
    // Slot 0 is visited, and is free then.
    assert!(rt; room.pass(9) == 0);
    assert!(rt; room.collect() == Ok(Visit::Slot(0)));
    assert!(rt; room.pass(2) == 2);
    assert!(rt; room.pass(9) == 1);
    assert!(rt; room.collect() == Ok(Visit::SweepEnd));
    assert!(rt; room.pass(9) == 4);
}

#[test]
fn visits_pass_what_was_not_replaced(rt: HostRuntime) -> Result<(), Fault> {
    let (life, _newest) = REPLACED;
    let steps = steps(rt.alloc(), life)?;
    let mut room = opened(&rt, rt.alloc(), fresh(rt.alloc(), 4, 8)?)?;
    assert_visits(&rt, &mut room, &steps);
    leave(room);
    Ok(())
}
