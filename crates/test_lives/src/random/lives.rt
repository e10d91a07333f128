use crate::random::chance::Chance;
use crate::random::counts::Counts;
use crate::random::devices::{
    closed, crashed, formatted, gate_of, leave, left_by_opening, reopened, room_of,
};
use crate::random::model::{Model, Tables};
use crate::random::slots::KEYS;
use anyhow::{Error, bail};
use base::fault::Fault;
use base::key::Key;
use base::step::{Note, Step};
use pmem_model::SimPmem;
use room::Room;
use std::alloc::Global;
use std::thread::Threads;

const LIVES: u64 = 12;

const STEPS: u64 = 120;

// Opening never makes more operations, even if it sweeps.
const MOST_IN_AN_OPENING: u64 = 64;

fn key_of(chance: &mut Chance) -> Key {
    Key {
        table: 1,
        key: chance.below(KEYS as u32),
    }
}

// A step, and how often it is made: ticks and visits come in numbers.
fn any_step(chance: &mut Chance, model: &Model) -> Result<(Step, u64), Fault> {
    let session = 2 + chance.below(4) as u8;
    let step = match chance.below(20) {
        0..2 => Step::Begin,
        2..4 => Step::Get {
            session,
            key: key_of(chance),
        },
        4..7 => Step::Put {
            session,
            key: key_of(chance),
            row: model.row(chance.below(256) as u8)?,
        },
        7 => Step::Delete {
            session,
            key: key_of(chance),
        },
        8..10 => Step::Draw { session },
        10..12 => Step::Stamp { session },
        12 => Step::Poll { session },
        13 => Step::Abort { session },
        14 => Step::End { session },
        15..17 => Step::Scan {
            session,
            table: 1 + (chance.below(4) / 3) as u16,
            lo: chance.below(3),
            hi: chance.below(4),
        },
        17 => return Ok((Step::Collect, 1 + chance.below(12))),
        _ => return Ok((Step::Commit, 1 + chance.below(60))),
    };
    Ok((step, 1))
}

// The notes agree. The model doesn't distinguish the ticks of a cycle.
fn are_alike(found: &Note, want: &Note) -> bool {
    found == want || matches!((found, want), (Note::Ticked(_), Note::Ticked(_)))
}

// Makes a step, and notes its reply. A lack of memory for the note looks like that of a scan, which changes nothing.
fn noted(room: &mut Room<SimPmem>, step: Step) -> Note {
    match Note::of(&room.step(step)) {
        Ok(note) => note,
        Err(_) => Note::Refused(Fault::OutOfMemory),
    }
}

/// Lives of one device, whose random numbers begin with the seed, and whose format has this version.
pub fn live_all<R: Threads + Sync>(
    rt: &R,
    alloc: Global,
    seed: u64,
    version: u64,
    counts: &mut Counts,
) -> Result<(), Error> {
    let mut chance = Chance::new(seed);
    let (mut device, geometry) = formatted(alloc, version)?;
    let mut model = Model::new(alloc, geometry);
    for _ in 0..LIVES {
        device = live_once(rt, alloc, device, &mut model, &mut chance, counts)?;
    }
    Ok(())
}

// The device is opened with stops, lives once, and then opens in agreement with the model.
fn live_once<R: Threads + Sync>(
    rt: &R,
    alloc: Global,
    device: SimPmem,
    model: &mut Model,
    chance: &mut Chance,
    counts: &mut Counts,
) -> Result<SimPmem, Error> {
    let device = stopped_openings(rt, alloc, device, model, chance, counts)?;
    let device = next_life(rt, alloc, device, model, chance, counts)?;
    assert_opening_agrees(rt, alloc, &device, model)?;
    counts.lives = counts.lives.saturating_add(1);
    Ok(device)
}

// Opens the device at most three times, each time with a stop and a crash.
fn stopped_openings<R: Threads + Sync>(
    rt: &R,
    alloc: Global,
    device: SimPmem,
    model: &mut Model,
    chance: &mut Chance,
    counts: &mut Counts,
) -> Result<SimPmem, Fault> {
    let mut device = device;
    for _ in 0..chance.below(4) {
        device = stopped_opening(rt, alloc, device, chance)?;
        follow_opening(rt, alloc, &device, model)?;
        counts.stops = counts.stops.saturating_add(1);
    }
    Ok(device)
}

// The device after opening was stopped after this many operations, if it made as many, and a crash.
fn stopped_opening<R: Threads + Sync>(
    rt: &R,
    alloc: Global,
    device: SimPmem,
    chance: &mut Chance,
) -> Result<SimPmem, Fault> {
    let fuse = chance.below(MOST_IN_AN_OPENING as u32);
    let left = left_by_opening(rt, alloc, device, fuse)?;
    crashed(alloc, left, chance)
}

// The model is stopped too if the gate of the stopped opening survived.
fn follow_opening<R: Threads + Sync>(
    rt: &R,
    alloc: Global,
    device: &SimPmem,
    model: &mut Model,
) -> Result<(), Fault> {
    let gate = gate_of(rt, alloc, device)?;
    if model.numbers().0 < gate {
        model.stop(gate)?;
    }
    Ok(())
}

// A life that ends by closing, or in a failure at some operation and a crash. What it leaves is at rest.
fn next_life<R: Threads + Sync>(
    rt: &R,
    alloc: Global,
    device: SimPmem,
    model: &mut Model,
    chance: &mut Chance,
    counts: &mut Counts,
) -> Result<SimPmem, Error> {
    if chance.below(4) == 0 {
        closed_life(rt, alloc, device, model, chance, counts)
    } else {
        counts.stops = counts.stops.saturating_add(1);
        crashed_life(rt, alloc, device, model, chance, counts)
    }
}

fn closed_life<R: Threads + Sync>(
    rt: &R,
    alloc: Global,
    device: SimPmem,
    model: &mut Model,
    chance: &mut Chance,
    counts: &mut Counts,
) -> Result<SimPmem, Error> {
    let device = closed(lived(rt, alloc, device, model, chance, counts)?)?;
    model.close()?;
    Ok(device)
}

fn crashed_life<R: Threads + Sync>(
    rt: &R,
    alloc: Global,
    device: SimPmem,
    model: &mut Model,
    chance: &mut Chance,
    counts: &mut Counts,
) -> Result<SimPmem, Error> {
    let mut device = device;
    device.set_fuse(Some(MOST_IN_AN_OPENING + chance.below(400)));
    let room = lived(rt, alloc, device, model, chance, counts)?;
    let left = crashed(alloc, room.into_device(), chance)?;
    model.stop(gate_of(rt, alloc, &left)?)?;
    Ok(left)
}

// The room of the device after a life.
fn lived<R: Threads + Sync>(
    rt: &R,
    alloc: Global,
    device: SimPmem,
    model: &mut Model,
    chance: &mut Chance,
    counts: &mut Counts,
) -> Result<Room<SimPmem>, Error> {
    let mut room = room_of(rt, alloc, device)?;
    match live(&mut room, model, chance, counts) {
        Ok(()) => Ok(room),
        Err(error) => {
            leave(room);
            Err(error)
        }
    }
}

// Makes random steps, after which the record of the room names the model's long commits.
fn live(
    room: &mut Room<SimPmem>,
    model: &mut Model,
    chance: &mut Chance,
    counts: &mut Counts,
) -> Result<(), Error> {
    make_steps(room, model, chance, counts)?;
    assert_same_longs(room, model)
}

// Makes random steps up to the first that finds the device failing. One session, if it is there, rarely stamps, so that its
// commits stay long.
fn make_steps(
    room: &mut Room<SimPmem>,
    model: &mut Model,
    chance: &mut Chance,
    counts: &mut Counts,
) -> Result<(), Error> {
    let slow = 2 + chance.below(6) as u8;
    for _ in 0..STEPS {
        let (step, count) = any_step(chance, model)?;
        if is_left_out(&step, slow, model, chance) {
            continue;
        }
        if !makes(room, model, step, count, counts)? {
            return Ok(());
        }
    }
    Ok(())
}

// A fifth session isn't begun, and the slow one rarely stamps.
fn is_left_out(step: &Step, slow: u8, model: &Model, chance: &mut Chance) -> bool {
    match *step {
        Step::Begin => model.is_full(),
        Step::Stamp { session } => session == slow && chance.below(16) > 0,
        _ => false,
    }
}

// Makes the step this often. Did the device work each time?
fn makes(
    room: &mut Room<SimPmem>,
    model: &mut Model,
    step: Step,
    count: u64,
    counts: &mut Counts,
) -> Result<bool, Error> {
    for _ in 0..count {
        let found = noted(room, step);
        if found == Note::Refused(Fault::Device) {
            return Ok(false);
        }
        let want = model.step(step);
        assert_alike(&step, &found, &want)?;
        counts.steps = counts.steps.saturating_add(1);
    }
    Ok(true)
}

fn assert_alike(step: &Step, found: &Note, want: &Note) -> Result<(), Error> {
    if are_alike(found, want) {
        return Ok(());
    }
    bail!("{step:?} is answered {found:?}, and {want:?} by the model")
}

// Opening the device finds the model's numbers, its gaps and its rows.
fn assert_opening_agrees<R: Threads + Sync>(
    rt: &R,
    alloc: Global,
    device: &SimPmem,
    model: &Model,
) -> Result<(), Error> {
    let room = reopened(rt, alloc, device)?;
    let agrees = assert_agrees(&room, model);
    leave(room);
    agrees
}

// The room has the model's numbers, its gaps and its rows.
fn assert_agrees(room: &Room<SimPmem>, model: &Model) -> Result<(), Error> {
    assert_same_status(room, model)?;
    assert_same_rows(room, model)
}

fn assert_same_status(room: &Room<SimPmem>, model: &Model) -> Result<(), Error> {
    let status = room.status();
    let numbers = (status.gate, status.dirty, status.next);
    if numbers != model.numbers() {
        bail!("an opening has the numbers {numbers:?}");
    }
    if status.gaps.as_slice() != model.gaps() {
        bail!("an opening has other gaps than the model");
    }
    Ok(())
}

fn assert_same_rows(room: &Room<SimPmem>, model: &Model) -> Result<(), Error> {
    let tables = tables_of(room)?;
    if tables != model.tables() {
        bail!("an opening has the rows {tables:?}");
    }
    Ok(())
}

// The first byte of each row.
fn tables_of(room: &Room<SimPmem>) -> Result<Tables, Fault> {
    let mut tables = [None; KEYS];
    for (key, row) in room.tables()?.iter() {
        if let Some(place) = tables.get_mut(key.key as usize) {
            *place = row.as_bytes().first().copied();
        }
    }
    Ok(tables)
}

// The record of the room names the model's long commits.
fn assert_same_longs(room: &Room<SimPmem>, model: &Model) -> Result<(), Error> {
    let longs = model.longs()?;
    if room.status().longs.as_slice() != longs.as_slice() {
        bail!("a record names other long commits than the model");
    }
    Ok(())
}
