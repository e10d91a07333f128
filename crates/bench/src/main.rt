//! Counts what the modelled device, the engine and the board do: rounds of stores on the device, commits and reads of the engine, and
//! reads on a board while a writer publishes. With `time` as the first word it also measures how fast they are.
//!
//! The operations that it counts are in `stdout`: ten stores, a flush and a fence for each round, 12 for an update, and one for each line
//! and 40 for a cycle. The collector visits a place with each tick, so that the small run makes 1,600 commits on 16 slots.
//!
//! - `engine SLOTS KEYS COMMITS BATCH READS` runs only the engine.
//! - `plain` takes the same numbers and runs the engine over a device that keeps no history.
//! - `together` does so too, with the updates of a batch in one transaction.
//! - `far` takes them too: the first row is deleted, and then COMMITS pairs of rows are put and rolled back, of which one takes that row's
//!   slot and the next a slot that is far from it.
//! - `full` takes them too, with as many KEYS as SLOTS: COMMITS puts find no free slot, each before a round of the collector and after it.
//! - `fill NAME` takes them too, and creates that file, with a row for each key.
//! - `life NAME` takes them too: it opens that file, makes a first and a second commit, runs the engine, and closes the file. It prints how
//!   long each part took, and the memory of the process once the file was open.
//!
//! After these numbers the word `random` may come. Then the keys are numbers from all over 64 bits, in an order in which none is near the
//! one before; otherwise they are counted from 0 on.
//!
//! - `readers N` makes the reads of N readers, each in a thread of its own.
//! - `open SLOTS` times opening a full image, and `openings SLOTS TIMES` opens it TIMES times.
//! - `visits SLOTS ROUNDS` makes ROUNDS rounds of the collector over free slots.
//! - `steps SLOTS` times each kind of call by itself.
//! - `reads SLOTS` times reads of keys that have rows, of keys that have none, and of old versions.
#![tactic(auto)]

ghost use Rattle.std.specs.Prelude.{◌<◌, ◌≤◌, IfOk};
ghost use Rattle.pmem_model.specs.Sim.{device_of};

mod calls;
mod engine;
mod keys;
mod kinds;
mod life;
mod opening;
mod places;
mod print;
mod readers;
mod rounds;
mod slow;
mod words;
mod work;

use anyhow::{Error, ensure};
use base::geometry::Geometry;
use engine::{Load, image_of_keys, plain_device, run_modelled};
use keys::Order;
use life::{fill, live};
use opening::{open_often, time_opening};
use pmem::Pmem;
use pmem_model::SimPmem;
use print::{print_each, print_operations, print_rate, print_rates, print_run};
use readers::{Done, read_beside_a_writer};
use rounds::{STORES_IN_A_ROUND, make_rounds};
use std::alloc::Global;
use std::fs::File;
use std::rt::{Clock, Env, Files};
use std::sync::Wait;
use std::thread::Threads;
use std::time::{Duration, Instant};
use std::{env, io};
use words::{Measure, Work, measure_of};
use work::{load_in, measure_work};

const ROUNDS: u64 = 1_000;

// The commits take each slot a hundred times.
const SMALL: Load = Load {
    slots: 16,
    keys: 8,
    commits: 1_600,
    batch: 4,
    reads: 1_000,
    order: Order::Counted,
};

const FEW_READERS: usize = 2;

// How many rows each reader reads, and how many if the reads are timed.
const READS: u64 = 100_000;

const TIMED_READS: u64 = 10_000_000;

fn main(rt: HostRuntime) -> Result<(), Error> {
    let alloc = rt.alloc();
    let words = words_of(&rt, alloc)?;
    let words: Vec<&str> = words.iter().map(|word| word.as_str()).collect(alloc)?;
    match words.as_slice() {
        ["time", words @ ..] => measure(&rt, alloc, measure_of(words)?, true),
        words => measure(&rt, alloc, measure_of(words)?, false),
    }
}

// The words of the command line after the program's name.
fn words_of(rt: &(impl Env + AllocGlobal), alloc: Global) -> io::Result<Vec<String>> {
    Ok(env::args(rt)?.skip(1).collect(alloc)?)
}

fn measure<H: Print + Files<File = File> + Clock + Threads + Wait + Sync>(
    rt: &H,
    alloc: Global,
    measure: Measure<'_>,
    timed: bool,
) -> Result<(), Error> {
    match measure {
        Measure::Engine(load) => measure_engine(rt, alloc, &load, timed),
        Measure::Fill(name, load) => fill(rt, alloc, name, &load),
        Measure::Life(name, load) => live(rt, alloc, name, &load),
        Measure::Plain(work) => measure_plain(rt, alloc, work, timed),
        Measure::Readers(readers) => measure_readers(rt, alloc, readers, timed),
        Measure::Opening(slots) => measure_opening(rt, alloc, slots),
        Measure::Openings { slots, times } => open_full(rt, alloc, slots, times),
        Measure::Little => measure_a_little(rt, alloc, timed),
    }
}

// A small load of each kind.
fn measure_a_little<H: Print + Clock + Threads + Wait + Sync>(
    rt: &H,
    alloc: Global,
    timed: bool,
) -> Result<(), Error> {
    measure_rounds(rt, alloc, 4, Geometry::LEAST_PLACES, timed)?;
    measure_rounds(
        rt,
        alloc,
        Geometry::MOST_SLOTS,
        Geometry::MOST_PLACES,
        timed,
    )?;
    measure_engine(rt, alloc, &SMALL, timed)?;
    measure_plain(rt, alloc, Work::Slow(SMALL), timed)?;
    measure_readers(rt, alloc, FEW_READERS, timed)
}

// Rounds on a device that has the words of an image with this layout.
fn measure_rounds<H: Print + Clock>(
    rt: &H,
    alloc: Global,
    slots: u64,
    places: u64,
    timed: bool,
) -> Result<(), Error> {
    let mut device = device_of_zeros(alloc, Geometry::new(slots, places, 8)?)?;
    run_rounds(rt, &mut device, timed)
}

fn run_rounds<H: Print + Clock>(rt: &H, device: &mut SimPmem, timed: bool) -> Result<(), Error>
    requires { 8 ≤ (device_of device.old).words }
{
    let elapsed = time_rounds(rt, device)?;
    println!(rt; "words {} rounds {ROUNDS}", device.words())?;
    print_operations(rt, device.operations())?;
    if timed {
        print_rate(rt, "rounds", ROUNDS, elapsed)?;
    }
    Ok(())
}

fn time_rounds<H: Clock>(rt: &H, device: &mut SimPmem) -> Result<Duration, Error>
    requires { 8 ≤ (device_of device.old).words }
{
    let start = Instant::now(rt)?;
    make_rounds(device, ROUNDS)?;
    Ok(start.elapsed(rt)?)
}

// A device with memory for all rounds.
fn device_of_zeros(alloc: Global, geometry: Geometry) -> Result<SimPmem, Error>
    ensures { IfOk result (λ device. 8 ≤ (device_of device).words) }
{
    let words = geometry.words() as usize;
    let mut device = SimPmem::from_words(alloc, &vec![in alloc; 0; words]?)?;
    device.reserve(STORES_IN_A_ROUND * ROUNDS)?;
    Ok(device)
}

fn measure_engine<H: Print + Clock + Threads + Sync>(
    rt: &H,
    alloc: Global,
    load: &Load,
    timed: bool,
) -> Result<(), Error> {
    let (made, operations) = run_modelled(rt, alloc, load)?;
    print_run(rt, load, &made)?;
    print_operations(rt, operations)?;
    if timed {
        print_rates(rt, load, &made)?;
    }
    Ok(())
}

// The same over a device that keeps neither its history nor its lines, and counts nothing.
fn measure_plain<H: Print + Clock + Threads + Sync>(
    rt: &H,
    alloc: Global,
    work: Work,
    timed: bool,
) -> Result<(), Error> {
    let device = plain_device(alloc, &work.load())?;
    measure_work(rt, alloc, device, work, timed)
}

// Opens an image in which each slot holds the row of a key.
fn measure_opening<H: Print + Clock + Threads + Sync>(
    rt: &H,
    alloc: Global,
    slots: u64,
) -> Result<(), Error> {
    let took = run_opening(rt, alloc, slots)?;
    Ok(print_each(rt, "opening", 1, took)?)
}

fn run_opening<H: Clock + Threads + Sync>(
    rt: &H,
    alloc: Global,
    slots: u64,
) -> Result<u128, Error> {
    let words = image_of_keys(rt, alloc, &load_in(slots, slots))?;
    time_opening(rt, alloc, words.as_slice())
}

// Opens the same image, this many times.
fn open_full<H: Threads + Sync>(
    rt: &H,
    alloc: Global,
    slots: u64,
    times: u64,
) -> Result<(), Error> {
    let words = image_of_keys(rt, alloc, &load_in(slots, slots))?;
    open_often(rt, alloc, words.as_slice(), times)
}

fn measure_readers<H: Print + Threads + Wait + Clock + Sync>(
    rt: &H,
    alloc: Global,
    readers: usize,
    timed: bool,
) -> Result<(), Error> {
    ensure!(0 < readers && readers <= 8, "there may be 1 to 8 readers");
    let reads = if timed { TIMED_READS } else { READS };
    let (done, elapsed) = time_readers(rt, alloc, readers, reads)?;
    println!(rt; "readers {} reads {}", done.readers, done.reads)?;
    if timed {
        print_readers(rt, &done, elapsed)?;
    }
    Ok(())
}

fn time_readers<H: Threads + Wait + Clock + Sync>(
    rt: &H,
    alloc: Global,
    readers: usize,
    reads: u64,
) -> Result<(Done, Duration), Error>
    requires { (0 < readers) × (readers ≤ 8) }
{
    let start = Instant::now(rt)?;
    let done = read_beside_a_writer(rt, alloc, readers, reads)?;
    Ok((done, start.elapsed(rt)?))
}

fn print_readers<H: Print>(rt: &H, done: &Done, elapsed: Duration) -> io::Result<()> {
    print_rate(rt, "reads", done.reads, elapsed)?;
    print_rate(rt, "batches", done.batches, elapsed)
}
