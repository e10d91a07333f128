use crate::calls::{CYCLES, READS_OF_A_KIND, time_reads, time_steps};
use crate::engine::{Load, new_room, put_each_key, run_load, run_together, visit_free};
use crate::keys::Order;
use crate::places::{free_first_slot, put_into_full, put_pairs};
use crate::print::{
    print_covered, print_each, print_rate, print_rates, print_reading, print_run, print_spent,
};
use crate::slow::covered_beside_a_slow_one;
use crate::words::Work;
use anyhow::Error;
use pmem::Pmem;
use room::Room;
use std::alloc::Global;
use std::rt::Clock;
use std::thread::Threads;
use std::time::Instant;

// How many keys are updated, and how many slots are kept for newer versions of the keys that are read.
const UPDATED_KEYS: u64 = 256;

const LEFT_SLOTS: u64 = 128;

impl Work {
    /// The load for which the room is created.
    pub fn load(&self) -> Load {
        match self {
            Work::Run(load)
            | Work::Together(load)
            | Work::Slow(load)
            | Work::Far(load)
            | Work::Full(load) => *load,
            Work::Visits { slots, .. } => load_in(*slots, 0),
            Work::Steps(slots) => load_in(*slots, UPDATED_KEYS),
            Work::Reads(slots) => load_in(*slots, slots.saturating_sub(LEFT_SLOTS)),
        }
    }
}

/// A load with this many slots, and with rows under this many keys.
pub fn load_in(slots: u64, keys: u64) -> Load {
    Load {
        slots,
        keys,
        commits: 0,
        batch: 1,
        reads: 0,
        order: Order::Counted,
    }
}

/// Does the work in a room over the device, which it formats. Each key has a row before.
pub fn measure_work<H: Print + Clock + Threads + Sync, D: Pmem + Drop + Send + Sync>(
    rt: &H,
    alloc: Global,
    device: D,
    work: Work,
    timed: bool,
) -> Result<(), Error> {
    let mut room = new_room(rt, alloc, device, &work.load())?;
    work_in(rt, &mut room, work, timed)
}

fn work_in<H: Print + Clock, D: Pmem + Drop>(
    rt: &H,
    room: &mut Room<D>,
    work: Work,
    timed: bool,
) -> Result<(), Error> {
    put_each_key(room, &work.load())?;
    match work {
        Work::Run(load) => measure_run(rt, room, &load, timed),
        Work::Together(load) => measure_together(rt, room, &load, timed),
        Work::Slow(load) => count_beside_a_slow_one(rt, room, &load),
        Work::Far(load) => measure_pairs(rt, room, &load),
        Work::Full(load) => measure_puts(rt, room, &load),
        Work::Visits { rounds, .. } => Ok(visit_free(room, rounds)?),
        Work::Steps(_) => measure_steps(rt, room, &work.load()),
        Work::Reads(_) => measure_reads(rt, room, &work.load()),
    }
}

/// Runs the load, and prints what it did.
pub fn measure_run<H: Print + Clock, D: Pmem + Drop>(
    rt: &H,
    room: &mut Room<D>,
    load: &Load,
    timed: bool,
) -> Result<(), Error> {
    let made = run_load(rt, room, load)?;
    print_run(rt, load, &made)?;
    if timed {
        print_rates(rt, load, &made)?;
    }
    Ok(())
}

fn measure_together<H: Print + Clock, D: Pmem + Drop>(
    rt: &H,
    room: &mut Room<D>,
    load: &Load,
    timed: bool,
) -> Result<(), Error> {
    let took = run_together(rt, room, load)?;
    if timed {
        print_rate(rt, "commits", load.commits, took)?;
    }
    Ok(())
}

fn count_beside_a_slow_one<H: Print, D: Pmem + Drop>(
    rt: &H,
    room: &mut Room<D>,
    load: &Load,
) -> Result<(), Error> {
    let covered = covered_beside_a_slow_one(room, load.commits)?;
    Ok(print_covered(rt, covered, load)?)
}

fn measure_pairs<H: Print + Clock, D: Pmem + Drop>(
    rt: &H,
    room: &mut Room<D>,
    load: &Load,
) -> Result<(), Error> {
    free_first_slot(room, load)?;
    let start = Instant::now(rt)?;
    put_pairs(room, load)?;
    let took = start.elapsed(rt)?.as_nanos();
    Ok(print_each(rt, "pair", load.commits, took)?)
}

fn measure_puts<H: Print + Clock, D: Pmem + Drop>(
    rt: &H,
    room: &mut Room<D>,
    load: &Load,
) -> Result<(), Error> {
    let start = Instant::now(rt)?;
    put_into_full(room, load)?;
    let took = start.elapsed(rt)?.as_nanos();
    Ok(print_each(rt, "put", load.commits, took)?)
}

fn measure_steps<H: Print + Clock, D: Pmem + Drop>(
    rt: &H,
    room: &mut Room<D>,
    load: &Load,
) -> Result<(), Error> {
    let spent = time_steps(rt, room, load.keys, CYCLES)?;
    Ok(print_spent(rt, &spent)?)
}

fn measure_reads<H: Print + Clock, D: Pmem + Drop>(
    rt: &H,
    room: &mut Room<D>,
    load: &Load,
) -> Result<(), Error> {
    let took = time_reads(rt, room, load.keys, READS_OF_A_KIND)?;
    Ok(print_reading(rt, &took)?)
}
