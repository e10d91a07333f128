use asks::{Life, Story, steps};
use base::fault::Fault;
use base::geometry::Geometry;
use base::step::{Reply, Step};
use pmem::Pmem;
use pmem_model::{Choice, SimPmem};
use recovery::format;
use room::Room;
use std::alloc::Global;
use std::thread::Threads;

/// Which operations of a life fail.
#[derive(Clone, Copy)]
pub enum Failing {
    /// All after this many.
    After(u64),
    /// The one after this many.
    Once(u64),
}

/// What a life left.
#[derive(Drop)]
pub struct Left {
    pub device: SimPmem,
    /// How many records were acknowledged as covering.
    pub acknowledged: usize,
    /// Was a step refused, and the next one too?
    pub failed: bool,
}

/// How many operations the device made.
pub fn operations(device: &SimPmem) -> u64 {
    let made = device.operations();
    made.stores
        .saturating_add(made.flushes)
        .saturating_add(made.fences)
}

/// The room of the device, which has to be at rest, or the fault with the device.
pub fn opened<R: Threads + Sync>(
    rt: &R,
    alloc: Global,
    device: SimPmem,
) -> Result<Room<SimPmem>, (Fault, SimPmem)> {
    if device.at_rest() {
        Room::open(rt, alloc, device)
    } else {
        Err((Fault::Failed, device))
    }
}

/// Drops a room: in one place, since each function that drops a room itself is long to prove.
pub fn leave(_room: Room<SimPmem>) {}

/// Opens a device with these words on which only this many operations succeed, makes the steps up to the one that is refused,
/// and closes the room if that is asked.
pub fn live<R: Threads + Sync>(
    rt: &R,
    alloc: Global,
    words: &[u64],
    asked: (&[Step], bool),
    failing: Option<Failing>,
) -> Result<Left, Fault> {
    let (steps, closes) = asked;
    match opened(rt, alloc, failing_device(alloc, words, failing)?) {
        Ok(room) => Ok(run(room, steps, closes)),
        Err((Fault::Device, device)) => Ok(Left {
            device,
            acknowledged: 0,
            failed: true,
        }),
        Err((fault, _device)) => Err(fault),
    }
}

fn failing_device(
    alloc: Global,
    words: &[u64],
    failing: Option<Failing>,
) -> Result<SimPmem, Fault> {
    let mut device = SimPmem::from_words(alloc, words)?;
    match failing {
        Some(Failing::After(fuse)) => device.set_fuse(Some(fuse)),
        Some(Failing::Once(fault)) => device.set_fault(Some(fault)),
        None => {}
    }
    Ok(device)
}

// Makes the steps up to the one that is refused. If none is, the room is closed if that is asked.
fn run(room: Room<SimPmem>, steps: &[Step], closes: bool) -> Left {
    let mut room = room;
    match make_each(&mut room, steps) {
        (acknowledged, None) if closes => closed(room, acknowledged),
        (acknowledged, refused) => Left {
            device: room.into_device(),
            acknowledged,
            failed: refused == Some(Fault::Device),
        },
    }
}

// How many records were acknowledged, and the fault of the step that was refused, if one was. That step is made again: if it
// doesn't find that the device failed, the fault is another one.
fn make_each(room: &mut Room<SimPmem>, steps: &[Step]) -> (usize, Option<Fault>) {
    let mut acknowledged: usize = 0;
    for step in steps {
        match room.step(*step) {
            Reply::Covered(_) => acknowledged = acknowledged.saturating_add(1),
            Reply::Refused(fault) => return (acknowledged, Some(fault_again(room, *step, fault))),
            _ => {}
        }
    }
    (acknowledged, None)
}

fn fault_again(room: &mut Room<SimPmem>, step: Step, fault: Fault) -> Fault {
    match room.step(step) {
        Reply::Refused(Fault::Failed) => fault,
        _ => Fault::WrongState,
    }
}

// Closing is acknowledged as one more record.
fn closed(room: Room<SimPmem>, acknowledged: usize) -> Left {
    match room.close() {
        Ok(device) => Left {
            device,
            acknowledged: acknowledged.saturating_add(1),
            failed: false,
        },
        Err((fault, device)) => Left {
            device,
            acknowledged,
            failed: fault == Fault::Device,
        },
    }
}

/// The words of a fresh device of this version with this many slots, 2 places and a window of 8.
pub fn formatted(alloc: Global, version: u64, slots: u64) -> Result<Vec<u64>, Fault> {
    fresh_words(alloc, Geometry::of_version(version, slots, 2, 8)?)
}

/// The words of a fresh device of this geometry.
pub fn fresh_words(alloc: Global, geometry: Geometry) -> Result<Vec<u64>, Fault> {
    let Ok(zeros) = vec![in alloc; 0; geometry.words() as usize] else {
        return Err(Fault::OutOfMemory);
    };
    let mut device = SimPmem::from_words(alloc, &zeros)?;
    match format(&mut device, geometry) {
        Ok(()) => device.image(),
        Err(fault) => Err(fault),
    }
}

/// The words that the lives before the story leave.
pub fn words_before<R: Threads + Sync>(
    rt: &R,
    alloc: Global,
    story: &Story,
) -> Result<Vec<u64>, Fault> {
    let version = story.version.max(Geometry::PLAIN_VERSION);
    let mut words = formatted(alloc, version, story.slots)?;
    for (life, newest) in story.before {
        words = words_after(rt, alloc, &words, life, *newest)?;
    }
    if let Some(version) = words.get_mut(1) {
        *version = story.version;
    }
    Ok(words)
}

// The words that a life leaves in which nothing is refused.
fn words_after<R: Threads + Sync>(
    rt: &R,
    alloc: Global,
    words: &[u64],
    life: Life,
    newest: bool,
) -> Result<Vec<u64>, Fault> {
    let steps = steps(alloc, life)?;
    let left = live(rt, alloc, words, (&steps, false), None)?;
    if left.failed {
        return Err(Fault::Failed);
    }
    let choice = if newest {
        Choice::Newest
    } else {
        Choice::Oldest
    };
    crashed_words(&left.device, &choice)
}

/// The words that a crash of this choice leaves.
pub fn crashed_words(device: &SimPmem, choice: &Choice) -> Result<Vec<u64>, Fault> {
    match device.crash(choice) {
        Ok(device) => device.image(),
        Err(fault) => Err(fault),
    }
}
