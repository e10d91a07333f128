use crate::random::chance::Chance;
use crate::random::model::WINDOW;
use crate::random::slots::SLOTS;
use base::fault::Fault;
use base::geometry::Geometry;
use pmem::Pmem;
use pmem_model::{Choice, SimPmem};
use recovery::format;
use room::Room;
use std::alloc::Global;
use std::thread::Threads;

/// The room of a device, which has to be at rest, or the fault with the device.
pub fn opened<R: Threads + Sync>(
    rt: &R,
    alloc: Global,
    device: SimPmem,
) -> Result<Room<SimPmem>, (Fault, SimPmem)> {
    if device.at_rest() {
        Room::open(rt, alloc, device)
    } else {
        Err((Fault::Failed, device))
    }
}

/// The room of a device that opens.
pub fn room_of<R: Threads + Sync>(
    rt: &R,
    alloc: Global,
    device: SimPmem,
) -> Result<Room<SimPmem>, Fault> {
    match opened(rt, alloc, device) {
        Ok(room) => Ok(room),
        Err((fault, _device)) => Err(fault),
    }
}

/// The room of what a crash of the device leaves.
pub fn reopened<R: Threads + Sync>(
    rt: &R,
    alloc: Global,
    device: &SimPmem,
) -> Result<Room<SimPmem>, Fault> {
    room_of(rt, alloc, device.crash(&Choice::Oldest)?)
}

/// The gate that opening the device leaves.
pub fn gate_of<R: Threads + Sync>(rt: &R, alloc: Global, device: &SimPmem) -> Result<u64, Fault> {
    let room = reopened(rt, alloc, device)?;
    Ok(last_gate(room))
}

fn last_gate(room: Room<SimPmem>) -> u64 {
    room.status().gate
}

/// Drops a room: in one place, since each function that drops a room itself is long to prove.
pub fn leave(_room: Room<SimPmem>) {}

/// What is left if opening is stopped after this many operations, if it makes as many.
pub fn left_by_opening<R: Threads + Sync>(
    rt: &R,
    alloc: Global,
    device: SimPmem,
    fuse: u64,
) -> Result<SimPmem, Fault> {
    let mut device = device;
    device.set_fuse(Some(fuse));
    match opened(rt, alloc, device) {
        Ok(room) => Ok(room.into_device()),
        Err((Fault::Device, device)) => Ok(device),
        Err((fault, _device)) => Err(fault),
    }
}

/// The device that closing leaves.
pub fn closed(room: Room<SimPmem>) -> Result<SimPmem, Fault> {
    match room.close() {
        Ok(device) => device.crash(&Choice::Oldest),
        Err((fault, _device)) => Err(fault),
    }
}

/// The device after a crash that leaves any value of each word that may have survived.
pub fn crashed(alloc: Global, device: SimPmem, chance: &mut Chance) -> Result<SimPmem, Fault> {
    let choice = any_choice(alloc, chance, device.words())?;
    device.crash(&choice)
}

/// A device that was formatted with this version, at rest, and its layout once it is opened.
pub fn formatted(alloc: Global, version: u64) -> Result<(SimPmem, Geometry), Fault> {
    let opened = version.max(Geometry::PLAIN_VERSION);
    let geometry = Geometry::of_version(opened, SLOTS as u64, 2, WINDOW)?;
    let mut words = formatted_words(alloc, geometry)?;
    if let Some(word) = words.get_mut(VERSION) {
        *word = version;
    }
    Ok((SimPmem::from_words(alloc, &words)?, geometry))
}

// The words of a device that was formatted.
fn formatted_words(alloc: Global, geometry: Geometry) -> Result<Vec<u64>, Fault> {
    let Ok(zeros) = vec![in alloc; 0; geometry.words() as usize] else {
        return Err(Fault::OutOfMemory);
    };
    let mut device = SimPmem::from_words(alloc, &zeros)?;
    match format(&mut device, geometry) {
        Ok(()) => device.image(),
        Err(fault) => Err(fault),
    }
}

// The word of the version in the superblock.
const VERSION: usize = 1;

// Any value of each word that may have survived.
fn any_choice(alloc: Global, chance: &mut Chance, words: usize) -> Result<Choice, Fault> {
    let mut numbers = Vec::new(alloc);
    for _ in 0..words {
        if numbers.push(chance.below(u32::MAX)).is_err() {
            return Err(Fault::OutOfMemory);
        }
    }
    Ok(Choice::Each(numbers))
}
