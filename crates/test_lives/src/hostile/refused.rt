//! Runs of lives that print each reply. If the caller of the program refuses an allocation, the call is made once more.
use crate::hostile::life::{crashed_words, fresh_words, leave, opened};
use crate::hostile::runs::Run;
use anyhow::Error;
use asks::{Ask, Life, Past, count_of, step_of};
use base::fault::Fault;
use base::geometry::Geometry;
use base::key::Key;
use base::row::Row;
use base::step::{Reply, Stage, Step};
use pmem_model::{Choice, SimPmem};
use room::{Room, Status};
use std::alloc::Global;
use std::thread::Threads;

/// What all stores of a life need at most.
const STORES: u64 = 1_000;

type Opened = Result<Room<SimPmem>, (Fault, SimPmem)>;

/// Runs the lives, and prints what each opening shows and each step's reply. The device has the memory for its stores if
/// that is asked. Otherwise one that finds none fails, and the run ends with what the next opening finds.
pub fn live_run<H: Print + Threads + Sync>(
    rt: &H,
    alloc: Global,
    run: &Run,
    reserved: bool,
) -> Result<(), Error> {
    println!(rt; "run {}", run.name)?;
    let fresh = fresh_words(alloc, Geometry::new(run.slots, 2, run.window)?)?;
    let words = live_each(rt, alloc, fresh, run.lives, reserved)?;
    let device = device_of(alloc, &words, reserved)?;
    let (_device, _failed) = live_once(rt, alloc, device, &[])?;
    Ok(())
}

// The words that the lives leave, up to the one in which the device fails.
fn live_each<H: Print + Threads + Sync>(
    rt: &H,
    alloc: Global,
    words: Vec<u64>,
    lives: &[Past],
    reserved: bool,
) -> Result<Vec<u64>, Error> {
    let mut words = words;
    for (life, newest) in lives {
        let device = device_of(alloc, &words, reserved)?;
        let (left, failed) = live_and_crash(rt, alloc, device, life, *newest)?;
        words = left;
        if failed {
            break;
        }
    }
    Ok(words)
}

// The words that a life leaves, and whether its device failed.
fn live_and_crash<H: Print + Threads + Sync>(
    rt: &H,
    alloc: Global,
    device: SimPmem,
    life: Life,
    newest: bool,
) -> Result<(Vec<u64>, bool), Error> {
    let (device, failed) = live_once(rt, alloc, device, life)?;
    let words = crashed_words(&device, &choice_of(newest))?;
    Ok((words, failed))
}

fn choice_of(newest: bool) -> Choice {
    if newest {
        Choice::Newest
    } else {
        Choice::Oldest
    }
}

fn device_of(alloc: Global, words: &[u64], reserved: bool) -> Result<SimPmem, Fault> {
    let mut device = SimPmem::from_words(alloc, words)?;
    if reserved {
        device.reserve(STORES)?;
    }
    Ok(device)
}

// A life of the device, up to a step in which it fails. Returns what is left of it, and whether it failed.
fn live_once<H: Print + Threads + Sync>(
    rt: &H,
    alloc: Global,
    device: SimPmem,
    life: Life,
) -> Result<(SimPmem, bool), Error> {
    match open_twice(rt, alloc, device)? {
        Ok(room) => live_in(rt, room, life),
        Err((fault, device)) => {
            println!(rt; "opening: {fault:?}")?;
            Ok((device, true))
        }
    }
}

// A life in this room. Returns what is left of its device, and whether that failed.
fn live_in<H: Print>(rt: &H, room: Room<SimPmem>, life: Life) -> Result<(SimPmem, bool), Error> {
    let mut room = room;
    match say_and_make(rt, &mut room, life) {
        Ok(failed) => Ok((room.into_device(), failed)),
        Err(error) => {
            leave(room);
            Err(error)
        }
    }
}

// Prints what is there, and makes what is asked for: did the device fail?
fn say_and_make<H: Print>(rt: &H, room: &mut Room<SimPmem>, life: Life) -> Result<bool, Error> {
    say_status(rt, &room.status())?;
    say_tables(rt, room)?;
    make_each(rt, room, life)
}

// Opens the device, and once more if memory is missing.
fn open_twice<H: Print + Threads + Sync>(
    rt: &H,
    alloc: Global,
    device: SimPmem,
) -> Result<Opened, Error> {
    match opened(rt, alloc, device) {
        Err((Fault::OutOfMemory, device)) => {
            println!(rt; "opening: OutOfMemory")?;
            Ok(opened(rt, alloc, device))
        }
        found => Ok(found),
    }
}

fn say_status<H: Print>(rt: &H, status: &Status) -> Result<(), Error> {
    println!(rt;
        "opened gate {} p {} d {} next {} gaps {}",
        status.gate,
        status.persisted,
        status.dirty,
        status.next,
        status.gaps.as_slice().len()
    )?;
    Ok(())
}

// Prints the rows of all tables. If memory is missing they are read once more.
fn say_tables<H: Print>(rt: &H, room: &Room<SimPmem>) -> Result<(), Error> {
    match room.tables() {
        Ok(rows) => say_rows(rt, &rows),
        Err(fault) => {
            println!(rt; "tables: {fault:?}")?;
            say_rows(rt, &room.tables()?)
        }
    }
}

fn say_rows<H: Print>(rt: &H, rows: &[(Key, Row)]) -> Result<(), Error> {
    for (key, row) in rows {
        println!(rt; "has {} {:?}", key.key, row.as_bytes())?;
    }
    Ok(())
}

// Makes what is asked for, up to the step that finds the device failing: did it fail?
fn make_each<H: Print>(rt: &H, room: &mut Room<SimPmem>, life: Life) -> Result<bool, Error> {
    for ask in life.iter().copied().flatten() {
        let step = step_of(*ask)?;
        if make_often(rt, room, *ask, &step)? {
            println!(rt; "then: {:?}", room.step(Step::Begin))?;
            return Ok(true);
        }
    }
    Ok(false)
}

// Makes the step as often as is asked for, up to a failure of the device: did it fail?
fn make_often<H: Print>(
    rt: &H,
    room: &mut Room<SimPmem>,
    ask: Ask,
    step: &Step,
) -> Result<bool, Error> {
    for _ in 0..count_of(ask) {
        let reply = make_twice(rt, room, ask, step)?;
        say(rt, ask, &reply)?;
        if reply.is_failure() {
            return Ok(true);
        }
    }
    Ok(false)
}

// Makes the step, and once more if memory is missing.
fn make_twice<H: Print>(
    rt: &H,
    room: &mut Room<SimPmem>,
    ask: Ask,
    step: &Step,
) -> Result<Reply, Error> {
    let reply = room.step(*step);
    if matches!(reply, Reply::Refused(Fault::OutOfMemory)) {
        say(rt, ask, &reply)?;
        return Ok(room.step(*step));
    }
    Ok(reply)
}

// Prints the reply. Of the ticks of a cycle only the first and the last are printed.
fn say<H: Print>(rt: &H, ask: Ask, reply: &Reply) -> Result<(), Error> {
    match reply {
        Reply::Row(Some(row)) => println!(rt; "{ask:?}: row {:?}", row.as_bytes())?,
        Reply::Rows(rows) => {
            println!(rt; "{ask:?}: rows {}", rows.as_slice().len())?;
            say_rows(rt, rows.as_slice())?;
        }
        Reply::Covered(batch) => {
            println!(rt;
                "{ask:?}: covered {} p {}",
                batch.stamp(),
                batch.persisted()
            )?;
        }
        Reply::Ticked(Stage::Chosen) => println!(rt; "{ask:?}: chosen")?,
        Reply::Ticked(_) => {}
        _ => println!(rt; "{ask:?}: {reply:?}")?,
    }
    Ok(())
}
