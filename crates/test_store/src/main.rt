//! Each call of a store, conflicts between two threads, and each error that a store reports if its file doesn't fail.
#![tactic(auto)]

mod calls;
mod conflicts;
mod histories;
mod images;
mod openings;
mod ranges;
mod refusals;

use anyhow::Error;
use std::alloc::Global;
use std::fs;
use std::fs::File;
use std::rt::Files;
use std::sync::Wait;
use std::thread::Threads;
use store::{Geometry, Store};

fn main(rt: HostRuntime) -> Result<(), Error> {
    let alloc = rt.alloc();
    let geometry = Geometry::new(64, 2, 64)?;
    call_each(&rt, alloc, geometry)?;
    find_each(&rt, alloc, geometry)?;
    histories::keep_one(&rt)?;
    openings::refuse_each(&rt, alloc)?;
    openings::find_each(&rt, alloc)?;
    openings::end_numbers(&rt, alloc)
}

// Makes each call of a new store, and closes it.
fn call_each<
    R: Print
        + AllocGlobal
        + Files<File = File>
        + Threads
        + Wait
        + Copy
        + Drop
        + Send
        + Sync
        + 'static,
>(rt: &R, alloc: Global, geometry: Geometry) -> Result<(), Error> {
    let store = Store::open(*rt, alloc, "calls.img", geometry)?;
    let made = make_calls(rt, &store);
    store.close()?;
    made?;
    // 64 slots and two places take 8 * (1 + 4 * 2 + 64) words.
    let left = fs::read(rt, "calls.img")?;
    println!(rt; "closed, of {} bytes", left.len())?;
    Ok(())
}

fn make_calls<R: Print + AllocGlobal + Threads + Wait + Drop + Sync>(
    rt: &R,
    store: &Store<R>,
) -> Result<(), Error> {
    calls::make_each(rt, store)?;
    ranges::read_each(rt, store)?;
    conflicts::meet_each(rt, store)?;
    refusals::meet_each(rt, store)
}

// What is found when the store is opened again.
fn find_each<R: Print + Files<File = File> + Threads + Wait + Copy + Drop + Send + Sync + 'static>(
    rt: &R,
    alloc: Global,
    geometry: Geometry,
) -> Result<(), Error> {
    let store = Store::open(*rt, alloc, "calls.img", geometry)?;
    let found = calls::find_all(rt, &store);
    store.close()?;
    found
}
